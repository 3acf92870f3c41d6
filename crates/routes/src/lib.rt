// The best walk, read off a table of distances.
#![tactic(auto)]

ghost use Rattle.std.specs.Prelude.{◌≡◌, true, not, ◌&&◌, eqb, List, [], ◌∷◌, ◌++◌, ℕ, ◌%◌, ◌<◌, ◌≤◌, length, drop};
ghost use Rattle.walks.specs.Graph.{Graph};
ghost use Rattle.walks.specs.Avoid.{Avoids};
ghost use Rattle.distances.specs.Table.{at, inf};
ghost use Rattle.distances.specs.Pack.{hops_limit};
ghost use Rattle.limits.specs.Limits.{longest, no_arc};
ghost use Rattle.routes.specs.View.{NodeOf, GuidingOf, MeasuredOf, usable_of, next_of, walk_of};
ghost use Rattle.routes.specs.Plan.{Searched};

use distances::{HOPS, INF};
use limits::{MOST_VERTICES, NO_ARC};
use product::Product;

// A walk that stands in an area has that weight (01: litres) and as many arcs (01: changeovers).
#[derive(Clone, Copy, PartialEq, Eq, Debug)]
pub struct Plan {
    pub weight: u64,
    pub hops: usize,
}

// Whether there is an arc of that weight, and the lowest of the blocked bits is not set.
fn is_open(weight: u32, bits: u64) -> bool
    ensures { result ≡ not (eqb weight no_arc) && eqb (bits % 2) 0 }
{
    weight != NO_ARC && bits % 2 == 0
}

// The usable vertices at state q as a word: those over which the entry falls by the arc and one hop.
fn usable(product: Product, q: usize, table: &[u64]) -> u64
    requires { NodeOf product table.now q }
    ensures { result ≡ usable_of product.entry table.now q }
{
    let arcs = product.latest[q] as usize * MOST_VERTICES;
    let row = q * MOST_VERTICES;
    let here = table[q];
    let mut bits = product.blocked[q];
    let mut word = 0;
    for v in 0..product.arcs.vertices {
        let weight = product.arcs.weights[arcs + v];
        if is_open(weight, bits) {
            let r = product.steps[row + v] as usize;
            if table[r] + (weight * HOPS + 1) as u64 == here {
                word += 1 << v;
            }
        }
        bits /= 2;
    }
    word
}

// The lowest usable vertex.
fn next(product: Product, q: usize, table: &[u64]) -> usize
    requires { NodeOf product table.now q }
    ensures { result ≡ next_of product.entry table.now q }
{
    u64::trailing_zeros(usable(product, q, table)) as usize
}

// Writes the vertices of the best walk from `start` into the front of the area. Answers how many there are.
fn walk(product: Product, start: usize, table: &[u64], area: &mut [u8]) -> usize
    requires guiding { GuidingOf product table.now }
    requires start_below { start < product.arcs.vertices }
    requires start_within { start < length table.now }
    requires start_near { at table.now start < inf }
    requires area_room { at table.now start % hops_limit < length area.old }
    ensures counted { result ≡ length (walk_of product.entry table.now start) }
    ensures area_after { area.new ≡ walk_of product.entry table.now start ++ drop result area.old }
{
    let count = (table[start] % HOPS as u64) as usize + 1;
    area[0] = start as u8;
    let mut q = start;
    for vertex in area[1..count].iter_mut() {
        let v = next(product, q, table);
        *vertex = v as u8;
        q = product.steps[q * MOST_VERTICES + v] as usize;
    }
    count
}

// The best walk from `start` to where the distances lead: its vertices in the front of the area; or nothing, and the area as it
// was.
pub fn least_walk(product: Product, start: usize, table: &[u64], area: &mut [u8]) -> Option<Plan>
    requires measured { (g : Graph) × (F : List (List ℕ)) × (t : ℕ) × MeasuredOf product table.now true g F t }
    requires start_below { start < product.arcs.vertices }
    requires area_room { longest ≤ length area.old }
    ensures { (g : Graph) (F : List (List ℕ)) (t : ℕ) → MeasuredOf product.entry table.now true g F t → Avoids F (start ∷ []) → Searched g F start t area.old result area.new }
{
    let here = table[start];
    if here == INF {
        return None;
    }
    let count = walk(product, start, table, area);
    Some(Plan {
        weight: here / HOPS as u64,
        hops: count - 1,
    })
}
