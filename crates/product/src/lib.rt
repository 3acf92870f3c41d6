// The product of graph and automaton: its tables, and the table that distances in it start from.
#![tactic(auto)]

ghost use Rattle.std.specs.Prelude.{◌≡◌, cond, ◌≤◌, eqb, length};
ghost use Rattle.product.specs.Base.{is_towards, vertex_of, base};

use automaton::Automaton;
use distances::INF;
use walks::ArcTable;

// A graph's arcs and the automaton's tables. State q steps over v to steps[q * 64 + v], has the blocked vertices as the bits of
// blocked[q], and stands at latest[q]. Tables and no struct a state, since they are the automaton's.
#[derive(Clone, Copy)]
pub struct Product<'a> {
    pub arcs: ArcTable<'a>,
    pub steps: &'a [u16],
    pub blocked: &'a [u64],
    pub latest: &'a [u8],
}

// Distances to a vertex, or from it.
#[derive(Clone, Copy)]
pub enum Goal {
    To(u8),
    From(u8),
}

impl Goal {
    // Whether the distances are counted from state q, which stands at `latest`: those to a vertex from every state that stands at
    // it, those from a vertex from its own state.
    fn counts(self, q: usize, latest: u8) -> bool
        ensures { result ≡ eqb (cond (is_towards self) latest q) (vertex_of self) }
    {
        match self {
            Goal::To(vertex) => latest == vertex,
            Goal::From(vertex) => q == vertex as usize,
        }
    }
}

impl<'a> Product<'a> {
    // The product of a graph and an automaton.
    pub fn of<const S: usize, const T: usize>(
        arcs: ArcTable<'a>,
        automaton: &'a Automaton<S, T>,
    ) -> Product<'a>
        ensures vertices { result.arcs.vertices ≡ arcs.entry.vertices }
        ensures weights { result.arcs.weights.now ≡ arcs.entry.weights.now }
        ensures steps { result.steps.now ≡ automaton.now.steps }
        ensures blocked { result.blocked.now ≡ automaton.now.blocked }
        ensures latest { result.latest.now ≡ automaton.now.latest }
    {
        Product {
            arcs,
            steps: &automaton.steps,
            blocked: &automaton.blocked,
            latest: &automaton.latest,
        }
    }
}

impl Product<'_> {
    // The table that the distances start with: 0 at the states that they are counted from, INF at the others.
    pub fn base(self, goal: Goal, table: &mut [u64])
        requires { length table.old ≤ length self.latest.now }
        ensures { table.new ≡ base (is_towards goal) self.entry.latest.now (vertex_of goal) (length table.old) }
    {
        for (q, entry) in table.iter_mut().enumerate() {
            let counted = goal.counts(q, self.latest[q]);
            *entry = if counted { 0 } else { INF };
        }
    }
}
