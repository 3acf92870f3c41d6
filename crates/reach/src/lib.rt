// The table of ends: weight and hops of the plan from one start to every vertex of a book, from one working-out.
#![tactic(auto)]

ghost use Rattle.std.specs.Prelude.{◌≡◌, true, ◌++◌, ◌*◌, ◌<◌, ◌≤◌, length, drop};
ghost use Rattle.book.specs.Book.{Book, graph};
ghost use Rattle.book.specs.Reading.{accepted, reading};
ghost use Rattle.book.specs.Tables.{IsGraph};
ghost use Rattle.rules.specs.Area.{spelled, valid};
ghost use Rattle.ends.specs.Ends.{ends};
ghost use Rattle.reach.specs.Reaching.{Reaching};

use book::Refusal;
use end_search::search_ends;
use limits::AREA;
use walks::{ArcTable, PathArea};

// Fills the front of the table with two numbers for each vertex in rising order: weight and hops of the best walk to it from the
// start, NO_END in both where there is none. Answers how many vertices there are. The runs area and its count stand apart: this
// outward form is set.
pub fn reach(
    bytes: &[u8],
    paths: &[u8],
    count: usize,
    start: u8,
    table: &mut [u32],
) -> Result<usize, Refusal>
    ensures { Reaching (reading bytes.now) paths.now count start table.old result table.new }
{
    let book = book::load(bytes)?;
    let paths = PathArea {
        bytes: paths,
        count,
    };
    reach_in(book.arcs(), paths, start, table)
}

// The same in a book that has been read.
fn reach_in(arcs: ArcTable, paths: PathArea, start: u8, table: &mut [u32]) -> Result<usize, Refusal>
    requires { (b : Book) × IsGraph b arcs.vertices arcs.weights.now }
    ensures { (b : Book) → IsGraph b arcs.entry.vertices arcs.entry.weights.now → Reaching (accepted b) paths.entry.bytes.now paths.entry.count start table.old result table.new }
{
    if paths.bytes.len() < AREA {
        return Err(Refusal::Area);
    }
    if table.len() < 2 * arcs.vertices {
        return Err(Refusal::Area);
    }
    if arcs.vertices <= usize::from(start) {
        return Err(Refusal::Endpoint);
    }
    if !rules::valid(paths, arcs.vertices) {
        return Err(Refusal::Invalid);
    }
    fill(arcs, paths, start, table);
    Ok(arcs.vertices)
}

// The same where nothing is to be refused.
pub fn fill(arcs: ArcTable, paths: PathArea, start: u8, table: &mut [u32])
    requires graph { (b : Book) × IsGraph b arcs.vertices arcs.weights.now }
    requires valid_paths { valid arcs.vertices paths.bytes.now paths.count ≡ true }
    requires start_and_room { (start < arcs.vertices) × (2 * arcs.vertices ≤ length table.old) }
    ensures { (b : Book) → IsGraph b arcs.entry.vertices arcs.entry.weights.now → table.new ≡ ends (graph b) (spelled paths.entry.count paths.entry.bytes.now) start arcs.entry.vertices ++ drop (2 * arcs.entry.vertices) table.old }
{
    search_ends(arcs, paths, start, table)
}
