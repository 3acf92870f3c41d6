// The table of ends, read off the distances of the automaton's states from the start.
#![tactic(auto)]

ghost use Rattle.std.specs.Prelude.{◌≡◌, ◌++◌, ℕ, ◌*◌, ◌<◌, ◌≤◌, length, drop};
ghost use Rattle.limits.specs.Limits.{most_vertices};
ghost use Rattle.distances.specs.Table.{at, inf};
ghost use Rattle.ends.specs.Least.{Gathered, numbers, entries, Standing};

use distances::{HOPS, INF};
use limits::MOST_VERTICES;

// Both numbers of a vertex to which no walk leads.
pub const NO_END: u32 = 4294967295;

// Lowers the entry of each vertex to the least distance of a state that stands at it: by weight, then by hops, which one number
// holds.
fn gather(latest: &[u8], table: &[u64], least: &mut [u64; MOST_VERTICES])
    requires room { length table.now ≤ length latest.now }
    requires stands { (q : ℕ) → q < length table.now → at latest.now q < most_vertices }
    requires unreached { (v : ℕ) → v < most_vertices → at least.old v ≡ inf }
    ensures { Gathered latest.now table.now (length table.now) least.new }
{
    for (q, d) in table.iter().enumerate() {
        let v = latest[q] as usize;
        if *d < least[v] {
            least[v] = *d;
        }
    }
}

// Writes weight and hops of the vertices below n, from the least distance to each, into the front of the table.
#[tactic(auto, using(crate::proofs::Telling::telling_none))]
fn tell(n: usize, least: &[u64; MOST_VERTICES], ends: &mut [u32])
    requires few { n ≤ most_vertices }
    requires room { 2 * n ≤ length ends.old }
    ensures { ends.new ≡ numbers (at least.now) n ++ drop (2 * n) ends.old }
{
    // by index: of a slice that `chunks_exact_mut` lends out a proof knows the length alone
    for (v, d) in least[..n].iter().enumerate() {
        let (weight, hops) = if *d < INF {
            ((*d / HOPS as u64) as u32, (*d % HOPS as u64) as u32)
        } else {
            (NO_END, NO_END)
        };
        ends[2 * v] = weight;
        ends[2 * v + 1] = hops;
    }
}

// Writes the two numbers of each vertex below n into the front of the table of ends, from the distances of the states.
pub fn fill_ends(n: usize, latest: &[u8], table: &[u64], ends: &mut [u32])
    requires standing { Standing n latest.now table.now }
    requires room { 2 * n ≤ length ends.old }
    ensures { ends.new ≡ entries latest.now table.now (length table.now) n ++ drop (2 * n) ends.old }
{
    let mut least = [INF; MOST_VERTICES];
    gather(latest, table, &mut least);
    tell(n, &least, ends);
}
