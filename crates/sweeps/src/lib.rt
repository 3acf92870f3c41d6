// The distances of the product's states, in passes over all states and their open vertices.
//
// There are two tables, which take turns: a pass leaves in one what a pass makes of the other. It reads the other at the heads of edges, and
// lowers what it finds in the one that it writes: entries of two passes before (in the first pass the same as in the other), and to lower those
// comes to the same as to lower a copy of the other.
#![tactic(auto)]

ghost use Rattle.std.specs.Prelude.{◌≡◌, ℕ, ◌<◌, ◌≤◌, not, length};
ghost use Rattle.limits.specs.Limits.{most_vertices};
ghost use Rattle.distances.specs.Reverse.{swapped};
ghost use Rattle.distances.specs.Table.{lowest, relaxes, pass, passes, settled, made};
ghost use Rattle.product.specs.Base.{is_towards, vertex_of, base, directed};
ghost use Rattle.product.specs.View.{edges_of, state_edges_of, FitsOf};
ghost use Rattle.sweeps.specs.Outgoing.{outgoing, Outgoing};
ghost use Rattle.sweeps.specs.Sweep.{open_of, edges_in, Ready, Before, Capped};

use distances::{HOPS, INF};
use limits::{MOST_VERTICES, NO_ARC};
use product::{Goal, Product};
use walks::ArcTable;

// What each pass reads: the product, the vertices to which there are arcs from each vertex, as the bits of a word, and where the distances lead.
#[derive(Clone, Copy)]
struct Sweep<'a> {
    product: Product<'a>,
    outgoing: &'a [u64; MOST_VERTICES],
    goal: Goal,
}

// The vertices to which there is an arc from u, as the bits of a word.
fn outgoing_from(arcs: ArcTable, u: usize) -> u64
    requires few { arcs.vertices ≤ most_vertices }
    requires below { u < most_vertices }
    ensures { result ≡ outgoing arcs.entry.weights.now u arcs.entry.vertices }
{
    let row = u * MOST_VERTICES;
    let mut word = 0;
    for v in 0..arcs.vertices {
        if arcs.weights[row + v] != NO_ARC {
            word += 1 << v;
        }
    }
    word
}

// The same for each vertex.
fn outgoing(arcs: ArcTable) -> [u64; MOST_VERTICES]
    requires few { arcs.vertices ≤ most_vertices }
    ensures { Outgoing arcs.entry result }
{
    let mut words = [0; MOST_VERTICES];
    for u in 0..arcs.vertices {
        words[u] = outgoing_from(arcs, u);
    }
    words
}

impl Sweep<'_> {
    // The open vertices of state q, as the bits of a word.
    fn open(self, q: usize) -> u64
        requires ready { (m : ℕ) × (q < m) × Ready self m }
        ensures { result ≡ open_of self.entry q }
    {
        let arcs = self.outgoing[self.product.latest[q] as usize];
        arcs - (arcs & self.product.blocked[q])
    }

    // The entry of state q lowered by its edges: by what the states that they lead to have in `old`.
    fn pull(self, q: usize, old: &[u64], entry: u64) -> u64
        requires ready { Ready self (length old.now) }
        requires within { q < length old.now }
        requires capped { Capped old.now }
        ensures { result ≡ lowest old.now (edges_of self.entry.product q) entry }
    {
        let arcs = self.product.latest[q] as usize * MOST_VERTICES;
        let row = q * MOST_VERTICES;
        let mut least = entry;
        let mut left = self.open(q);
        // over the set bits: as many turns as there are edges
        while left != 0 {
            let v = u64::trailing_zeros(left) as usize;
            let head = self.product.steps[row + v] as usize;
            let reach = old[head] + (self.product.arcs.weights[arcs + v] * HOPS + 1) as u64;
            if reach < least {
                least = reach;
            }
            left &= left - 1;
        }
        least
    }

    // The same edges turned round: each lowers the entry of the state that it leads to, by what state q has in `old`.
    fn push(self, q: usize, old: &[u64], new: &mut [u64])
        requires ready { Ready self (length old.now) }
        requires within { q < length old.now }
        requires same_length { length new.old ≡ length old.now }
        requires capped { Capped old.now }
        requires new_capped { Capped new.old }
        ensures { new.new ≡ relaxes old.now (swapped (edges_of self.entry.product q)) new.old }
    {
        let here = old[q];
        if here == INF {
            return;
        }
        let arcs = self.product.latest[q] as usize * MOST_VERTICES;
        let row = q * MOST_VERTICES;
        let mut left = self.open(q);
        // over the set bits, as above
        while left != 0 {
            let v = u64::trailing_zeros(left) as usize;
            let head = self.product.steps[row + v] as usize;
            let reach = here + (self.product.arcs.weights[arcs + v] * HOPS + 1) as u64;
            if reach < new[head] {
                new[head] = reach;
            }
            left &= left - 1;
        }
    }

    // The edges of state q, in the direction in which the distances are worked out.
    fn relax(self, q: usize, old: &[u64], new: &mut [u64])
        requires ready { Ready self (length old.now) }
        requires within { q < length old.now }
        requires same_length { length new.old ≡ length old.now }
        requires capped { Capped old.now }
        requires new_capped { Capped new.old }
        ensures { new.new ≡ relaxes old.now (directed (is_towards self.entry.goal) (edges_of self.entry.product q)) new.old }
    {
        match self.goal {
            Goal::To(_) => new[q] = self.pull(q, old, new[q]),
            Goal::From(_) => self.push(q, old, new),
        }
    }

    // One pass, over every state: `new` has then what a pass makes of `old`. Answers whether that is another table.
    fn pass(self, old: &[u64], new: &mut [u64]) -> bool
        requires ready { Ready self (length old.now) }
        requires before { Before (edges_in self (length old.now)) old.now new.old }
        ensures after { new.new ≡ pass (edges_in self.entry (length old.now)) old.now }
        ensures changed { result ≡ not (settled (edges_in self.entry (length old.now)) old.now) }
    {
        for q in 0..old.len() {
            self.relax(q, old, new);
        }
        *old != *new
    }

    // Passes until one changes none; both tables start the same. Answers how many there were.
    fn passes(self, table: &mut [u64], other: &mut [u64]) -> usize
        requires ready { Ready self (length table.old) }
        requires same { other.old ≡ table.old }
        requires capped { Capped table.old }
        ensures after { table.new ≡ passes (edges_in self.entry (length table.old)) (length table.old) table.old }
        ensures counted { result ≡ made (edges_in self.entry (length table.old)) (length table.old) table.old }
    {
        let mut count = 1;
        // goes on while a pass changes an entry: there is no index to count
        while self.pass(table, other) {
            count += 1;
            if !self.pass(other, table) {
                return count;
            }
            count += 1;
        }
        count
    }
}

// The distances of the states to a vertex, or from it: what the passes over the product's edges end in. The table `other` is for every
// second pass. Answers how many passes were made.
pub fn distances(product: Product, goal: Goal, table: &mut [u64], other: &mut [u64]) -> usize
    requires fits { FitsOf product (length table.old) }
    requires few { product.arcs.vertices ≤ most_vertices }
    requires same_length { length other.old ≡ length table.old }
    ensures after { table.new ≡ passes (directed (is_towards goal) (state_edges_of product.entry (length table.old))) (length table.old) (base (is_towards goal) product.entry.latest.now (vertex_of goal) (length table.old)) }
    ensures counted { result ≡ made (directed (is_towards goal) (state_edges_of product.entry (length table.old))) (length table.old) (base (is_towards goal) product.entry.latest.now (vertex_of goal) (length table.old)) }
{
    let outgoing = outgoing(product.arcs);
    product.base(goal, table);
    product.base(goal, other);
    let sweep = Sweep {
        product,
        outgoing: &outgoing,
        goal,
    };
    sweep.passes(table, other)
}
