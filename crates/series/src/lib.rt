// Trials over a list of reports as bytes: 0 is passed; 1, a number n and n vertices is failed, and names them. A report that is cut short ends
// the list, and so does any other first byte.
#![tactic(auto)]

ghost use Rattle.std.specs.Prelude.{◌≡◌, if◌then◌else◌};
ghost use Rattle.trials.specs.Operations.{answering, record_in};
ghost use Rattle.series.specs.Making.{making, replaying};
ghost use Rattle.series.specs.Reports.{is_report, size_of};

use book::Refusal;
use rules::Batch;
use trial_record::Record;
use trials::{Rejected, begin, report_failed, report_passed};

// A report of a list that has been made, and where it ends.
#[derive(Clone, Copy, PartialEq, Eq, Debug)]
pub struct Made {
    pub reported: Result<Record, Rejected>,
    pub end: usize,
}

// How many bytes the report takes that a list begins with, if it begins with one.
fn report_size(list: &[u8]) -> Option<usize>
    ensures { result ≡ (if is_report list.now then Some (size_of list.now) else None) }
{
    match list {
        [0, ..] => Some(1),
        [1, n, rest @ ..] if usize::from(*n) <= rest.len() => Some(2 + usize::from(*n)),
        _ => None,
    }
}

// Makes the report at a place, if there is one; its first byte then is its kind, 0 or 1.
pub fn make(
    bytes: &[u8],
    rec: Record,
    reports: &[u8],
    at: usize,
    paths: &mut [u8],
    walk: &mut [u8],
) -> Option<Made>
    ensures { answering result paths.new walk.new ≡ making bytes.now rec reports.now at paths.old walk.old }
{
    let list = reports.get(at..)?;
    let size = report_size(list)?;
    let reported = if list[0] == 0 {
        report_passed(bytes, rec, paths, walk)
    } else {
        report_failed(bytes, rec, paths, walk, &list[2..size])
    };
    Some(Made {
        reported,
        end: at + size,
    })
}

// The record that a report leaves.
pub fn record_of(reported: Result<Record, Rejected>) -> Record
    ensures { result ≡ record_in reported }
{
    match reported {
        Ok(rec) => rec,
        Err(rejected) => rejected.record,
    }
}

// Begins, and makes each report of the list. What it takes stands apart: this outward form is set.
pub fn replay(
    bytes: &[u8],
    batch: Batch,
    start: u8,
    end: u8,
    reports: &[u8],
    paths: &mut [u8],
    walk: &mut [u8],
) -> Result<Record, Refusal>
    ensures { answering result paths.new walk.new ≡ replaying bytes.now batch start end reports.now paths.old walk.old }
{
    let mut rec = begin(bytes, batch, start, end, paths, walk)?;
    let mut at = 0;
    while let Some(made) = make(bytes, rec, reports, at, paths, walk) {
        rec = record_of(made.reported);
        at = made.end;
    }
    Ok(rec)
}
