// The answers of the calls, printed.
use book::Refusal;
use kinds::{Fields, write_record};
use trial_record::Record;
use trials::Rejected;

pub fn bound(rt: &impl Print, answer: Result<usize, Refusal>) {
    match answer {
        Ok(count) => println!(rt; "KNOWN {count}").unwrap_or(()),
        Err(refusal) => println!(rt; "{refusal}").unwrap_or(()),
    }
}

pub fn begun(rt: &impl Print, answer: Result<Record, Refusal>, walk: &[u8]) {
    match answer {
        Ok(rec) => write_record(rt, rec, walk),
        Err(refusal) => println!(rt; "{refusal}").unwrap_or(()),
    }
}

// A refused report hands the record back, which may be none that could be followed into the area.
pub fn reported(rt: &impl Print, answer: Result<Record, Rejected>, walk: &[u8]) {
    match answer {
        Ok(rec) => write_record(rt, rec, walk),
        Err(Rejected { refusal, record }) => {
            println!(rt; "{refusal}").unwrap_or(());
            println!(rt; "{}", Fields(record)).unwrap_or(());
        }
    }
}
