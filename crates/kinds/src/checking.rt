// The case of a check: marks in two bytes (high byte first), day, month, year in two, the walk's length in two, the walk, and the book.
ghost use Rattle.std.specs.Prelude.{◌≡◌};
ghost use Rattle.kinds.specs.Inputs.{check_input};

use book::Refusal;
use limits::AREA;
use rules::Batch;
use walk_check::Occurrence;

pub fn check_case(rt: &impl Print, input: &[u8]) {
    checked(rt, check(input));
}

fn check(input: &[u8]) -> Result<Option<Occurrence>, Refusal>
    ensures { result ≡ check_input input.now }
{
    let [m1, m0, day, month, y1, y0, n1, n0, rest @ ..] = input else {
        return Err(Refusal::Truncated(0));
    };
    let batch = Batch::from_bytes([*m1, *m0, *day, *month, *y1, *y0]);
    let length = u16::from_be_bytes([*n1, *n0]);
    let Some((walk, bytes)) = rest.split_at_checked(usize::from(length)) else {
        return Err(Refusal::Truncated(0));
    };
    let mut area = [0; AREA];
    let count = rules::bind(bytes, batch, &mut area)?;
    walk_check::check(bytes, &area, count, walk)
}

// Prints the answer of a check.
pub fn checked(rt: &impl Print, answer: Result<Option<Occurrence>, Refusal>) {
    match answer {
        Ok(Some(Occurrence { place, length })) => {
            println!(rt; "RUN AT {place} LENGTH {length}").unwrap_or(());
        }
        Ok(None) => println!(rt; "CLEAR").unwrap_or(()),
        Err(refusal) => println!(rt; "{refusal}").unwrap_or(()),
    }
}
