// Begin: bind, plan.
ghost use Rattle.std.specs.Prelude.{◌≡◌};
ghost use Rattle.book.specs.Book.{Book};
ghost use Rattle.book.specs.Reading.{accepted};
ghost use Rattle.book.specs.Tables.{IsLoaded};
ghost use Rattle.trials.specs.Operations.{answering, beginning_of, beginning};

use book::{Loaded, Refusal};
use limits::{AREA, LONGEST};
use rules::Batch;
use trial_record::Record;
use walks::PathArea;

// Binds the rule sets that apply to a batch, and plans from start to end: the forbidden paths that are known then
// go to the front of `paths`, the walk to the front of `walk`.
pub fn begin(
    bytes: &[u8],
    batch: Batch,
    start: u8,
    end: u8,
    paths: &mut [u8],
    walk: &mut [u8],
) -> Result<Record, Refusal>
    ensures { answering result paths.new walk.new ≡ beginning bytes.now batch start end paths.old walk.old }
{
    let mut book = Loaded::blank();
    book.read(bytes)?;
    begin_in(&book, batch, start, end, paths, walk)
}

// The same in a book that has been read. All is tested before anything is written.
fn begin_in(
    book: &Loaded,
    batch: Batch,
    start: u8,
    end: u8,
    paths: &mut [u8],
    walk: &mut [u8],
) -> Result<Record, Refusal>
    requires { (b : Book) × IsLoaded b book.now }
    ensures { (b : Book) → IsLoaded b book.now → answering result paths.new walk.new ≡ beginning_of (accepted b) batch start end paths.old walk.old }
{
    let arcs = book.arcs();
    if paths.len() < AREA {
        return Err(Refusal::Area);
    }
    if walk.len() < LONGEST {
        return Err(Refusal::Area);
    }
    if arcs.vertices <= usize::from(start) {
        return Err(Refusal::Endpoint);
    }
    if arcs.vertices <= usize::from(end) {
        return Err(Refusal::Endpoint);
    }
    if !batch.date.is_valid() {
        return Err(Refusal::Date);
    }
    let mut known = [0; AREA];
    let count = rules::gather(book, batch, &mut known);
    let area = PathArea {
        bytes: &known,
        count,
    };
    let found = planner::find(arcs, area, start, end, walk);
    paths[..AREA].copy_from_slice(&known);
    Ok(Record::new(start, end, count).replanned(found))
}
