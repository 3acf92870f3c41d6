// The kinds of cases that the test programs take: each prints its answer.
#![tactic(auto)]

mod checking;
mod planning;
mod reading;
mod replaying;

pub use checking::{check_case, checked};
pub use planning::plan_case;
pub use reading::read_case;
pub use replaying::{Fields, replay_case, write_record};
