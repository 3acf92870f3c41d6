// The reports of the oracle.
ghost use Rattle.std.specs.Prelude.{◌≡◌, ◌+◌, ◌*◌, ◌≤◌, length, set};
ghost use Rattle.std.proofs.Math.Option.{none};
ghost use Rattle.std.proofs.Math.Seq.{paste};
ghost use Rattle.book.specs.Book.{Book};
ghost use Rattle.book.specs.Reading.{accepted};
ghost use Rattle.book.specs.Refusal.{refusal_by};
ghost use Rattle.book.specs.Tables.{IsGraph};
ghost use Rattle.limits.specs.Limits.{entry_size, longest_path};
ghost use Rattle.trial_rules.specs.Trials.{passed, failed};
ghost use Rattle.trials.specs.Operations.{answering, rejected_as, reporting_of, reporting};
ghost use Rattle.judging.specs.Judging.{report_tests};

use crate::Rejected;
use book::{Loaded, Refusal};
use judging::{judge, judge_named};
use limits::ENTRY;
use trial_record::Record;
use walks::{ArcTable, PathArea};

// The standing walk has passed.
pub fn report_passed(
    bytes: &[u8],
    rec: Record,
    paths: &[u8],
    walk: &[u8],
) -> Result<Record, Rejected>
    ensures { answering result paths.now walk.now ≡ reporting bytes.now rec paths.now walk.now passed }
{
    accept_passed(bytes, rec, paths, walk).map_err(|refusal| Rejected {
        refusal,
        record: rec,
    })
}

// The same, with what it is refused for alone.
fn accept_passed(bytes: &[u8], rec: Record, paths: &[u8], walk: &[u8]) -> Result<Record, Refusal>
    ensures { answering (rejected_as rec result) paths.now walk.now ≡ reporting bytes.now rec paths.now walk.now passed }
{
    let mut book = Loaded::blank();
    book.read(bytes)?;
    judge(book.arcs(), rec, paths, walk)?;
    Ok(rec.passed())
}

// The standing walk has failed, and a forbidden path that stands in it is named.
pub fn report_failed(
    bytes: &[u8],
    rec: Record,
    paths: &mut [u8],
    walk: &mut [u8],
    named: &[u8],
) -> Result<Record, Rejected>
    ensures { answering result paths.new walk.new ≡ reporting bytes.now rec paths.old walk.old (failed named.now) }
{
    accept_failed(bytes, rec, paths, walk, named).map_err(|refusal| Rejected {
        refusal,
        record: rec,
    })
}

// The same, with what it is refused for alone.
fn accept_failed(
    bytes: &[u8],
    rec: Record,
    paths: &mut [u8],
    walk: &mut [u8],
    named: &[u8],
) -> Result<Record, Refusal>
    ensures { answering (rejected_as rec result) paths.new walk.new ≡ reporting bytes.now rec paths.old walk.old (failed named.now) }
{
    let mut book = Loaded::blank();
    book.read(bytes)?;
    let arcs = book.arcs();
    judge(arcs, rec, paths, walk)?;
    judge_named(arcs, rec, walk, named)?;
    Ok(replan(arcs, rec, paths, walk, named))
}

// The path becomes the last known one, and there is a plan anew.
fn replan(arcs: ArcTable, rec: Record, paths: &mut [u8], walk: &mut [u8], named: &[u8]) -> Record
    requires { (b : Book) × IsGraph b arcs.vertices arcs.weights.now × (refusal_by (report_tests rec paths.old walk.old (failed named.now) b) ≡ none) }
    ensures { (b : Book) → IsGraph b arcs.entry.vertices arcs.entry.weights.now → refusal_by (report_tests rec paths.old walk.old (failed named.now) b) ≡ none → answering (Ok result) paths.new walk.new ≡ reporting_of (accepted b) rec paths.old walk.old (failed named.now) }
{
    enter(named, rec.known, paths);
    let next = rec.failed();
    let area = PathArea {
        bytes: paths,
        count: next.known,
    };
    let found = planner::find(arcs, area, next.start, next.end, walk);
    next.replanned(found)
}

// Enters a path into an area behind `known` others.
fn enter(path: &[u8], known: usize, paths: &mut [u8])
    requires path_short { length path.now ≤ longest_path }
    requires entry_fits { known * entry_size + entry_size ≤ length paths.old }
    ensures { paths.new ≡ paste (set paths.old (known * entry_size) (length path.now)) (known * entry_size + 1) path.now (length path.now) }
{
    let at = known * ENTRY;
    let n = path.len();
    paths[at] = n as u8;
    paths[at + 1..at + 1 + n].copy_from_slice(path);
}
