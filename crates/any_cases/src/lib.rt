// Cases of single calls with any record and areas of any length and content: each prints the answer, and every byte that the call changed.
//
// A case is a head of 76 bytes (the record, the flags, the lengths, and the date), what is given of the two areas, a list, and the book. All
// kinds have the same head, and each takes what its operation takes.
#![tactic(auto)]

ghost use Rattle.any_cases.specs.Making.{Made};

mod answers;

use answers::{begun, bound, reported};
use book::Refusal;
use cases::{changes, planned};
use kinds::checked;
use record_bytes::{MOST_AREA, area, record_of, word};
use rules::Batch;
use trial_record::Record;

const HEAD: usize = 76;

#[derive(Clone, Copy)]
pub enum Call {
    Bind,
    Check,
    Plan,
    Begin,
    Passed,
    Failed,
}

// An area is the bytes that are given, and as many more of one value as the head says.
pub fn any_case(rt: &impl Print, call: Call, input: &[u8]) {
    let size = input.len();
    if size < HEAD {
        println!(rt; "{}", Refusal::Truncated(0)).unwrap_or(());
        return;
    }
    let paths_given = word(input, 60);
    let paths_size = paths_given + word(input, 62);
    let walk_given = word(input, 65);
    let walk_size = walk_given + word(input, 67);
    let walk_from = HEAD + paths_given;
    let list_from = walk_from + walk_given;
    let book_from = list_from + word(input, 70);
    if size < book_from || MOST_AREA < paths_size || MOST_AREA < walk_size {
        println!(rt; "{}", Refusal::Truncated(0)).unwrap_or(());
        return;
    }
    let mut paths = area(&input[HEAD..walk_from], input[64]);
    let mut walk = area(&input[walk_from..list_from], input[69]);
    let paths_before = paths;
    let walk_before = walk;
    make(
        rt,
        call,
        record_of(input),
        Batch::from_bytes([
            input[58], input[59], input[72], input[73], input[74], input[75],
        ]),
        &mut paths[..paths_size],
        &mut walk[..walk_size],
        &input[list_from..book_from],
        &input[book_from..],
    );
    changes(rt, "RUNS", &paths_before, &paths);
    changes(rt, "LINEUP", &walk_before, &walk);
}

// Makes the call, and prints its answer. The count of known paths, start and end are the record's. It takes what the operations take, and each
// kind of call is another operation: so a `match`.
fn make(
    rt: &impl Print,
    call: Call,
    rec: Record,
    batch: Batch,
    paths: &mut [u8],
    walk: &mut [u8],
    list: &[u8],
    bytes: &[u8],
)
    ensures { Made call rec batch list.now bytes.now paths.old walk.old paths.new walk.new }
{
    match call {
        Call::Bind => bound(rt, rules::bind(bytes, batch, paths)),
        Call::Check => checked(rt, walk_check::check(bytes, paths, rec.known, list)),
        Call::Plan => {
            let answer = planner::plan(bytes, paths, rec.known, rec.start, rec.end, walk);
            planned(rt, answer, walk);
        }
        Call::Begin => {
            let answer = trials::begin(bytes, batch, rec.start, rec.end, paths, walk);
            begun(rt, answer, walk);
        }
        Call::Passed => reported(rt, trials::report_passed(bytes, rec, paths, walk), walk),
        Call::Failed => {
            let answer = trials::report_failed(bytes, rec, paths, walk, list);
            reported(rt, answer, walk);
        }
    }
}
