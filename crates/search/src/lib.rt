// The whole search, from a graph's arcs and forbidden paths to the best walk, in work tables for the states that there can be.
#![tactic(auto)]

ghost use Rattle.std.specs.Prelude.{◌≡◌, ◌*◌, ◌<◌, ◌≤◌, length};
ghost use Rattle.walks.specs.Graph.{Graph};
ghost use Rattle.walks.specs.Weights.{Weights};
ghost use Rattle.automaton.specs.Area.{Given};
ghost use Rattle.states.specs.Count.{states_of, most_states};
ghost use Rattle.limits.specs.Limits.{longest, most_vertices};
ghost use Rattle.routes.specs.Plan.{Asked, SearchedAll};

use automaton::{Automaton, PREFIXES, STATES, STEPS};
use limits::MOST_VERTICES;
use measuring::Work;
use product::{Goal, Product};
use routes::{Plan, least_walk};
use walks::{ArcTable, PathArea};

// How many states and steps there are for a usual book at most (01: 30 grades, 20 runs). Work tables are cleared before use, and to
// clear those for all states would take as long as a usual search.
const USUAL_STATES: usize = 160;

const USUAL_STEPS: usize = USUAL_STATES * MOST_VERTICES;

// Works out the distances to the end, and reads the best walk off them, in work tables of its own for S states.
fn search_in<const S: usize, const T: usize>(
    arcs: ArcTable,
    paths: PathArea,
    start: usize,
    end: u8,
    walk: &mut [u8],
) -> Option<Plan>
    requires asked { Asked arcs.weights.now arcs.vertices paths.bytes.now paths.count start walk.old }
    requires states_fit { states_of arcs.vertices paths.count ≤ S }
    requires few_states { S ≤ most_states }
    requires steps_fit { T ≡ S * most_vertices }
    ensures { SearchedAll arcs.entry.weights.now arcs.entry.vertices paths.entry.bytes.now paths.entry.count start end walk.old result walk.new }
{
    // written out here and in `end_search`: handed back by a function (tried) the tables are copied
    let mut work = Work::<S, T> {
        automaton: Automaton {
            steps: [0; T],
            blocked: [0; S],
            latest: [0; S],
            fail: [0; S],
        },
        table: [0; S],
        other: [0; S],
    };
    let measures = work.measure(arcs, paths, Goal::To(end));
    let product = Product::of(arcs, &work.automaton);
    least_walk(product, start, &work.table[..measures.states], walk)
}

// Writes the best walk from start to end that avoids the forbidden paths into the front of the area `walk`, and answers its
// weight and hops; or nothing, and the area as it was.
pub fn best_walk(
    arcs: ArcTable,
    paths: PathArea,
    start: usize,
    end: u8,
    walk: &mut [u8],
) -> Option<Plan>
    requires given { Given paths.bytes.now paths.count arcs.vertices }
    requires weighed { (g : Graph) × (g.count ≡ arcs.vertices) × Weights g arcs.weights.now }
    requires start_below { start < arcs.vertices }
    requires area_room { longest ≤ length walk.old }
    ensures { SearchedAll arcs.entry.weights.now arcs.entry.vertices paths.entry.bytes.now paths.entry.count start end walk.old result walk.new }
{
    if arcs.vertices + paths.count * PREFIXES <= USUAL_STATES {
        search_in::<USUAL_STATES, USUAL_STEPS>(arcs, paths, start, end, walk)
    } else {
        search_in::<STATES, STEPS>(arcs, paths, start, end, walk)
    }
}
