// The case of a replay: marks in two bytes (high byte first), start, end, day, month, year in two, the book's length in four, the book, and the
// reports.
ghost use Rattle.std.specs.Prelude.{◌≡◌, ◌<◌, length, MatchOption};
ghost use Rattle.kinds.specs.Inputs.{IsCase, reports_from};
ghost use Rattle.trials.specs.Operations.{answering};
ghost use Rattle.series.specs.Making.{replaying};
ghost use Rattle.series.specs.Reports.{reports_of};
ghost use Rattle.series.specs.Whole.{reports_on};

use book::Refusal;
use cases::{Walk, same_answer};
use limits::{AREA, LONGEST};
use rules::Batch;
use std::fmt;
use trial_record::Record;
use trials::Rejected;

// A batch with its book, and the reports of its trials.
#[derive(Clone, Copy)]
struct Case<'a> {
    batch: Batch,
    start: u8,
    end: u8,
    bytes: &'a [u8],
    reports: &'a [u8],
}

// Prints what begin and each report leave.
pub fn replay_case(rt: &impl Print, input: &[u8]) {
    match case_of(input) {
        Some(case) => replay(rt, case),
        None => println!(rt; "{}", Refusal::Truncated(0)).unwrap_or(()),
    }
}

fn case_of(input: &[u8]) -> Option<Case<'_>>
    ensures { MatchOption result (length input.now < reports_from input.now) (λ case. IsCase input.now case.batch case.start case.end case.bytes.now case.reports.now) }
{
    let [
        m1,
        m0,
        start,
        end,
        day,
        month,
        y1,
        y0,
        n3,
        n2,
        n1,
        n0,
        rest @ ..,
    ] = input
    else {
        return None;
    };
    let length = u32::from_be_bytes([*n3, *n2, *n1, *n0]);
    let (bytes, reports) = rest.split_at_checked(length as usize)?;
    Some(Case {
        batch: Batch::from_bytes([*m1, *m0, *day, *month, *y1, *y0]),
        start: *start,
        end: *end,
        bytes,
        reports,
    })
}

// Makes the reports one by one, and then the whole list anew: both are to leave the same. A line more where an answer or a byte differs.
fn replay(rt: &impl Print, case: Case) {
    let mut paths = [0; AREA];
    let mut walk = [0; LONGEST];
    let stepped = step(rt, case, &mut paths, &mut walk);
    let mut paths_anew = [0; AREA];
    let mut walk_anew = [0; LONGEST];
    let whole = series::replay(
        case.bytes,
        case.batch,
        case.start,
        case.end,
        case.reports,
        &mut paths_anew,
        &mut walk_anew,
    );
    if !same_answer(stepped, whole) || paths != paths_anew || walk != walk_anew {
        println!(rt; "DIFFERENT").unwrap_or(());
    }
}

// Begins, makes each report, and prints what each leaves.
fn step(rt: &impl Print, case: Case, paths: &mut [u8], walk: &mut [u8]) -> Result<Record, Refusal>
    ensures { answering result paths.new walk.new ≡ replaying case.entry.bytes.now case.entry.batch case.entry.start case.entry.end case.entry.reports.now paths.old walk.old }
{
    match trials::begin(case.bytes, case.batch, case.start, case.end, paths, walk) {
        Ok(first) => {
            write_record(rt, first, walk);
            Ok(make_all(rt, case.bytes, first, case.reports, paths, walk))
        }
        Err(refusal) => {
            println!(rt; "{refusal}").unwrap_or(());
            Err(refusal)
        }
    }
}

// One by one, as `series::replay` does it too: the two are compared.
fn make_all(
    rt: &impl Print,
    bytes: &[u8],
    first: Record,
    reports: &[u8],
    paths: &mut [u8],
    walk: &mut [u8],
) -> Record
    ensures { answering result paths.new walk.new ≡ reports_on bytes.now (answering first paths.old walk.old) (reports_of reports.now) }
{
    let mut rec = first;
    let mut at = 0;
    while let Some(made) = series::make(bytes, rec, reports, at, paths, walk) {
        write_reported(rt, made.reported, walk);
        rec = series::record_of(made.reported);
        at = made.end;
    }
    rec
}

// Prints what a report leaves.
fn write_reported(rt: &impl Print, reported: Result<Record, Rejected>, walk: &[u8]) {
    match reported {
        Ok(rec) => write_record(rt, rec, walk),
        Err(rejected) => println!(rt; "{}", rejected.refusal).unwrap_or(()),
    }
}

// The line of a record, and in stages 0 and 1 that of its walk.
pub fn write_record(rt: &impl Print, rec: Record, walk: &[u8]) {
    println!(rt; "{}", Fields(rec)).unwrap_or(());
    if rec.stage != 2 {
        let length = walk.len().min(rec.length);
        println!(rt; "{}", Walk(&walk[..length])).unwrap_or(());
    }
}

// The fields of a record, whatever it says.
#[derive(Clone, Copy)]
pub struct Fields(pub Record);

impl fmt::Display for Fields {
    fn fmt<W: fmt::Write>(&self, f: &mut fmt::Formatter<W>) -> fmt::Result {
        let rec = self.0;
        write!(
            f,
            "STAGE {} START {} END {} KNOWN {} AT-START {} FAILED {} PASSED {} LITRES {} LENGTH {}",
            rec.stage,
            rec.start,
            rec.end,
            rec.known,
            rec.first,
            rec.failed,
            rec.passed,
            rec.litres,
            rec.length,
        )
    }
}
