// The distances of the automaton's states, from a graph's arcs and forbidden paths.
#![tactic(auto)]

ghost use Rattle.std.specs.Prelude.{◌≡◌, ◌≤◌, length, take};
ghost use Rattle.walks.specs.Graph.{Graph};
ghost use Rattle.walks.specs.Weights.{Weights};
ghost use Rattle.distances.specs.Table.{made};
ghost use Rattle.automaton.specs.Area.{Given};
ghost use Rattle.automaton.specs.Rows.{Sized};
ghost use Rattle.states.specs.Count.{states_of};
ghost use Rattle.product.specs.Product.{state_edges};
ghost use Rattle.product.specs.Base.{is_towards, vertex_of, base, directed};
ghost use Rattle.routes.specs.Plan.{MeasuredAll};
ghost use Rattle.measuring.specs.Work.{WorkRoom, TablesRoom};

use automaton::Automaton;
use product::{Goal, Product};
use walks::{ArcTable, PathArea};

// The work tables of a search, for S states and T steps from them: the automaton, the distances, and a table for every second pass.
#[derive(Drop)]
pub struct Work<const S: usize, const T: usize> {
    pub automaton: Automaton<S, T>,
    pub table: [u64; S],
    pub other: [u64; S],
}

// How many states the automaton has, and how many passes were made over them.
#[derive(Clone, Copy)]
pub struct Measures {
    pub states: usize,
    pub passes: usize,
}

// Builds the automaton, and works out the distances of its states to a vertex, or from it, in the front
// of the table: all in lent tables of any lengths. `fail` is for the automaton's failure links, and
// `other` for every second pass.
pub fn measure(
    arcs: ArcTable,
    paths: PathArea,
    goal: Goal,
    steps: &mut [u16],
    blocked: &mut [u64],
    latest: &mut [u8],
    fail: &mut [u16],
    table: &mut [u64],
    other: &mut [u64],
) -> Measures
    requires given { Given paths.bytes.now paths.count arcs.vertices }
    requires weighed { (g : Graph) × (g.count ≡ arcs.vertices) × Weights g arcs.weights.now }
    requires room { TablesRoom (states_of arcs.vertices paths.count) steps.old blocked.old latest.old fail.old table.old other.old }
    ensures states_fit { result.states ≤ length table.new }
    ensures measured_all { MeasuredAll (is_towards goal) arcs.entry.weights.now arcs.entry.vertices paths.entry.bytes.now paths.entry.count (vertex_of goal) steps.new blocked.new latest.new (take result.states table.new) }
    ensures counted { result.passes ≡ made (directed (is_towards goal) (state_edges arcs.entry.weights.now steps.new blocked.new latest.new arcs.entry.vertices result.states)) result.states (base (is_towards goal) latest.new (vertex_of goal) result.states) }
{
    let states = automaton::build(paths, arcs.vertices, steps, blocked, latest, fail);
    let product = Product {
        arcs,
        steps,
        blocked,
        latest,
    };
    let passes = sweeps::distances(product, goal, &mut table[..states], &mut other[..states]);
    Measures { states, passes }
}

impl<const S: usize, const T: usize> Work<S, T> {
    // Builds the automaton, and works out the distances of its states to a vertex, or from it, in the
    // front of the table. All tables keep their sizes.
    pub fn measure(&mut self, arcs: ArcTable, paths: PathArea, goal: Goal) -> Measures
        requires given { Given paths.bytes.now paths.count arcs.vertices }
        requires weighed { (g : Graph) × (g.count ≡ arcs.vertices) × Weights g arcs.weights.now }
        requires room { WorkRoom (states_of arcs.vertices paths.count) S T self.old.table self.old.other }
        ensures states_fit { result.states ≤ S }
        ensures sized { length self.new.table ≡ S }
        ensures other_sized { length self.new.other ≡ S }
        ensures automaton_sized { Sized S T self.new.automaton.steps self.new.automaton.blocked self.new.automaton.latest self.new.automaton.fail }
        ensures measured_all { MeasuredAll (is_towards goal) arcs.entry.weights.now arcs.entry.vertices paths.entry.bytes.now paths.entry.count (vertex_of goal) self.new.automaton.steps self.new.automaton.blocked self.new.automaton.latest (take result.states self.new.table) }
        ensures counted { result.passes ≡ made (directed (is_towards goal) (state_edges arcs.entry.weights.now self.new.automaton.steps self.new.automaton.blocked self.new.automaton.latest arcs.entry.vertices result.states)) result.states (base (is_towards goal) self.new.automaton.latest (vertex_of goal) result.states) }
    {
        measure(
            arcs,
            paths,
            goal,
            &mut self.automaton.steps,
            &mut self.automaton.blocked,
            &mut self.automaton.latest,
            &mut self.automaton.fail,
            &mut self.table,
            &mut self.other,
        )
    }
}
