// Planning from a list of arcs.
#![tactic(auto)]

ghost use Rattle.std.specs.Prelude.{◌≡◌, replicate};
ghost use Rattle.book.specs.Book.{Book};
ghost use Rattle.book.specs.Reading.{verdict_of, with_arc, arc_of};
ghost use Rattle.book.specs.Tables.{IsGraph};
ghost use Rattle.limits.specs.Limits.{no_arc, pairs};
ghost use Rattle.planner.specs.Planning.{PlanningOf};
ghost use Rattle.listed.specs.Listing.{counted as Listing-counted, listing};
ghost use Rattle.listed.specs.Standing.{Stands};

// An item of the list (01: a changeover, with its litres).
pub use book::Arc;
use book::Refusal;
use limits::{MOST_VERTICES, NO_ARC, PAIRS};
use routes::Plan;
use walks::{ArcTable, PathArea};

// The count of vertices, before any item.
fn counted(vertices: usize) -> Result<(), Refusal>
    ensures { result ≡ verdict_of (Listing-counted vertices) }
{
    if vertices < 1 || MOST_VERTICES < vertices {
        return Err(Refusal::Value(0));
    }
    Ok(())
}

// Enters the item at index i into the table of weights of the items before it, which it writes, and an `ArcTable` only lends.
fn enter(vertices: usize, i: usize, arc: Arc, weights: &mut [u32; PAIRS]) -> Result<(), Refusal>
    requires { (b : Book) × IsGraph b vertices weights.old }
    ensures { (b : Book) → IsGraph b vertices weights.old → Stands vertices (with_arc b i (arc_of arc)) result weights.new }
{
    book::enter_arc(vertices, i, arc, weights)
}

// Enters the items into a blank table one by one, up to the first bad one; it writes the table too.
fn load(vertices: usize, arcs: &[Arc], weights: &mut [u32; PAIRS]) -> Result<(), Refusal>
    requires blank { weights.old ≡ replicate pairs no_arc }
    ensures { Stands vertices (listing vertices arcs.now) result weights.new }
{
    counted(vertices)?;
    for (i, arc) in arcs.iter().enumerate() {
        enter(vertices, i, *arc, weights)?;
    }
    Ok(())
}

// Writes the best walk from start to end in the graph of that many vertices and those arcs into the front of the area `walk`, and
// answers its weight and hops, or that there is none. The runs area and its count stand apart: this outward form is set.
pub fn plan_arcs(
    vertices: usize,
    arcs: &[Arc],
    paths: &[u8],
    count: usize,
    start: u8,
    end: u8,
    walk: &mut [u8],
) -> Result<Option<Plan>, Refusal>
    ensures { PlanningOf (listing vertices arcs.now) paths.now count start end walk.old result walk.new }
{
    let mut weights = [NO_ARC; PAIRS];
    load(vertices, arcs, &mut weights)?;
    let arcs = ArcTable {
        vertices,
        weights: &weights,
    };
    let paths = PathArea {
        bytes: paths,
        count,
    };
    planner::plan_in(arcs, paths, start, end, walk)
}
