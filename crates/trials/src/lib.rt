// The trials of a batch (01, 'Trials'): begin, and what the oracle (01: the lab) reports.
#![tactic(auto)]

mod opening;
mod report;

use book::Refusal;
pub use opening::begin;
pub use report::{report_failed, report_passed};
use trial_record::Record;

// A report that is refused: for what, and the record as it came.
#[derive(Clone, Copy, PartialEq, Eq, Debug)]
pub struct Rejected {
    pub refusal: Refusal,
    pub record: Record,
}
