// Planning: the best walk of a book under the forbidden paths of a runs area.
#![tactic(auto)]

ghost use Rattle.std.specs.Prelude.{◌≡◌, true, ◌<◌, ◌≤◌, length};
ghost use Rattle.book.specs.Book.{Book, graph};
ghost use Rattle.book.specs.Reading.{accepted};
ghost use Rattle.book.specs.Tables.{IsGraph};
ghost use Rattle.rules.specs.Area.{spelled, valid};
ghost use Rattle.limits.specs.Limits.{longest};
ghost use Rattle.routes.specs.Plan.{Searched};
ghost use Rattle.planner.specs.Planning.{Planning, PlanningOf};

use book::Refusal;
use limits::{AREA, LONGEST};
use routes::Plan;
use walks::{ArcTable, PathArea};

// Writes the best walk from start to end into the front of the area `walk`, and answers its weight and hops, or that there is none.
// The runs area and its count stand apart: this outward form is set.
pub fn plan(
    bytes: &[u8],
    paths: &[u8],
    count: usize,
    start: u8,
    end: u8,
    walk: &mut [u8],
) -> Result<Option<Plan>, Refusal>
    ensures { Planning bytes.now paths.now count start end walk.old result walk.new }
{
    let book = book::load(bytes)?;
    let paths = PathArea {
        bytes: paths,
        count,
    };
    plan_in(book.arcs(), paths, start, end, walk)
}

// The same in a book that has been read.
pub fn plan_in(
    arcs: ArcTable,
    paths: PathArea,
    start: u8,
    end: u8,
    walk: &mut [u8],
) -> Result<Option<Plan>, Refusal>
    requires { (b : Book) × IsGraph b arcs.vertices arcs.weights.now }
    ensures { (b : Book) → IsGraph b arcs.entry.vertices arcs.entry.weights.now → PlanningOf (accepted b) paths.entry.bytes.now paths.entry.count start end walk.old result walk.new }
{
    if paths.bytes.len() < AREA {
        return Err(Refusal::Area);
    }
    if walk.len() < LONGEST {
        return Err(Refusal::Area);
    }
    if arcs.vertices <= usize::from(start) {
        return Err(Refusal::Endpoint);
    }
    if arcs.vertices <= usize::from(end) {
        return Err(Refusal::Endpoint);
    }
    if !rules::valid(paths, arcs.vertices) {
        return Err(Refusal::Invalid);
    }
    Ok(find(arcs, paths, start, end, walk))
}

// The same where nothing is to be refused: the best walk, or that there is none.
pub fn find(arcs: ArcTable, paths: PathArea, start: u8, end: u8, walk: &mut [u8]) -> Option<Plan>
    requires graph { (b : Book) × IsGraph b arcs.vertices arcs.weights.now }
    requires valid_paths { valid arcs.vertices paths.bytes.now paths.count ≡ true }
    requires start_and_room { (start < arcs.vertices) × (longest ≤ length walk.old) }
    ensures { (b : Book) → IsGraph b arcs.entry.vertices arcs.entry.weights.now → Searched (graph b) (spelled paths.entry.count paths.entry.bytes.now) start end walk.old result walk.new }
{
    search::best_walk(arcs, paths, usize::from(start), end, walk)
}
