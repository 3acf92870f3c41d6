// Rule sets: which apply to a batch, and the forbidden paths that are known then.
#![tactic(auto)]

ghost use Rattle.std.specs.Prelude.{◌≡◌};
ghost use Rattle.rules.specs.Binding.{batch_at};
ghost use Rattle.rules.specs.Operations.{binding, bound_as, area_after};

mod area;
mod binding;

pub use area::{entry, valid};
pub use binding::gather;
use book::{Loaded, Refusal};
use dates::Date;
use limits::AREA;

// What the rule sets are asked about: a batch, with its flags (01: marks) and its date.
#[derive(Clone, Copy, PartialEq, Eq, Debug)]
pub struct Batch {
    pub flags: u16,
    pub date: Date,
}

impl Batch {
    // A batch in bytes: its marks in two (high byte first), day, month, and year in two.
    pub fn from_bytes(bytes: [u8; 6]) -> Batch
        ensures { result ≡ batch_at bytes 2 }
    {
        let [m1, m0, day, month, y1, y0] = bytes;
        Batch {
            flags: u16::from_be_bytes([m1, m0]),
            date: Date {
                day,
                month,
                year: u16::from_be_bytes([y1, y0]),
            },
        }
    }
}

// Writes the forbidden paths that are known for a batch, and answers how many they are.
pub fn bind(bytes: &[u8], batch: Batch, area: &mut [u8]) -> Result<usize, Refusal>
    ensures answered { result ≡ bound_as (binding bytes.now batch area.old) }
    ensures filled { area.new ≡ area_after (binding bytes.now batch area.old) area.old }
{
    let mut book = Loaded::blank();
    book.read(bytes)?;
    if area.len() < AREA {
        return Err(Refusal::Area);
    }
    if !batch.date.is_valid() {
        return Err(Refusal::Date);
    }
    let mut known = [0; AREA];
    let n = gather(&book, batch, &mut known);
    area[..AREA].copy_from_slice(&known);
    Ok(n)
}
