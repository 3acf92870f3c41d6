// Counts without known runs: the passes that planning to an end makes, and the most changeovers of a plan.
#![tactic(auto)]

ghost use Rattle.std.specs.Prelude.{◌≡◌, suc, ◌*◌, ◌≤◌, length, ltb};
ghost use Rattle.limits.specs.Limits.{most_vertices};
ghost use Rattle.walks.specs.Graph.{Graph};
ghost use Rattle.walks.specs.Weights.{Weights};
ghost use Rattle.measuring.specs.Counted.{Counted};
ghost use Rattle.pass_counts.specs.Most.{free_table, greater, most_from, most_hops};

use automaton::Automaton;
use ends::NO_END;
use limits::{AREA, MOST_VERTICES, PAIRS};
use measuring::Work;
use product::Goal;
use walks::{ArcTable, PathArea};

// The numbers of the longest table of ends: two for each vertex.
const NUMBERS: usize = 2 * MOST_VERTICES;

// How many passes the distances to an end take. Without forbidden paths there is a state for each vertex, and a step for each pair.
pub fn passes_to(arcs: ArcTable, end: u8) -> usize
    requires weighed { (g : Graph) × (g.count ≡ arcs.vertices) × Weights g arcs.weights.now }
    ensures { (g : Graph) → g.count ≡ arcs.entry.vertices → Weights g arcs.entry.weights.now → Counted g end result }
{
    let mut work = Work::<MOST_VERTICES, PAIRS> {
        automaton: Automaton {
            steps: [0; PAIRS],
            blocked: [0; MOST_VERTICES],
            latest: [0; MOST_VERTICES],
            fail: [0; MOST_VERTICES],
        },
        table: [0; MOST_VERTICES],
        other: [0; MOST_VERTICES],
    };
    let paths = PathArea {
        bytes: &[],
        count: 0,
    };
    work.measure(arcs, paths, Goal::To(end)).passes
}

// The greater of two numbers of hops, where the second is not that of no plan.
fn greater(most: u32, hops: u32) -> u32
    ensures { result ≡ greater most hops }
{
    if hops == NO_END { most } else { most.max(hops) }
}

// The greatest of a number and the hops in a table of ends.
#[tactic(auto, unfolding(crate::specs::Most::most_hops))]
fn most_hops(table: &[u32], vertices: usize, most: u32) -> u32
    requires { 2 * vertices ≤ length table.now }
    ensures { result ≡ most_hops table.now vertices most }
{
    let mut greatest = most;
    for v in 0..vertices {
        greatest = greater(greatest, table[2 * v + 1]);
    }
    greatest
}

// The greatest of a number and the hops of the plans from a start.
fn most_with(bytes: &[u8], vertices: usize, start: u8, most: u32) -> u32
    requires { vertices ≤ most_vertices }
    ensures { result ≡ most_hops (free_table bytes.now start) vertices most }
{
    let paths = [0; AREA];
    let mut table = [0; NUMBERS];
    reach::reach(bytes, &paths, 0, start, &mut table).ok();
    most_hops(&table, vertices, most)
}

// The most hops of a plan of a book with so many vertices, from any of them to any.
#[tactic(auto, unfolding(crate::specs::Most::most_from))]
pub fn most_changes(bytes: &[u8], vertices: usize) -> u32
    requires { vertices ≤ most_vertices }
    ensures { result ≡ most_from bytes.now vertices vertices }
{
    let mut most = 0;
    for start in 0..vertices {
        most = most_with(bytes, vertices, start as u8, most);
    }
    most
}

// Whether there were more passes than one more than the most hops of a plan.
pub fn is_over(passes: usize, most: u32) -> bool
    ensures { result ≡ ltb (suc most) passes }
{
    most as usize + 1 < passes
}
