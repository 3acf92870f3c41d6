// The whole search for every end: from a graph's arcs and forbidden paths to the table of ends.
#![tactic(auto)]

ghost use Rattle.std.specs.Prelude.{◌≡◌, ◌*◌, ◌<◌, ◌≤◌, length};
ghost use Rattle.walks.specs.Graph.{Graph};
ghost use Rattle.walks.specs.Weights.{Weights};
ghost use Rattle.automaton.specs.Area.{Given};
ghost use Rattle.end_search.specs.EndsAll.{EndsAll};

use automaton::{Automaton, STATES, STEPS};
use ends::fill_ends;
use measuring::Work;
use product::Goal;
use walks::{ArcTable, PathArea};

// Works out the distances from the start, in work tables for any number of states, and reads the entry of each vertex off them.
pub fn search_ends(arcs: ArcTable, paths: PathArea, start: u8, ends: &mut [u32])
    requires given { Given paths.bytes.now paths.count arcs.vertices }
    requires weighed { (g : Graph) × (g.count ≡ arcs.vertices) × Weights g arcs.weights.now }
    requires start_below { start < arcs.vertices }
    requires room { 2 * arcs.vertices ≤ length ends.old }
    ensures { EndsAll arcs.entry.weights.now arcs.entry.vertices paths.entry.bytes.now paths.entry.count start ends.old ends.new }
{
    // written out here and in `search`: handed back by a function (tried) the tables are copied
    let mut work = Work::<STATES, STEPS> {
        automaton: Automaton {
            steps: [0; STEPS],
            blocked: [0; STATES],
            latest: [0; STATES],
            fail: [0; STATES],
        },
        table: [0; STATES],
        other: [0; STATES],
    };
    let measures = work.measure(arcs, paths, Goal::From(start));
    fill_ends(
        arcs.vertices,
        &work.automaton.latest,
        &work.table[..measures.states],
        ends,
    )
}
