// Printing. A print that fails is passed over, as it was.
use book::Refusal;
use routes::Plan;
use std::fmt;
use std::fmt::Display;

// Vertices, one blank between.
#[derive(Clone, Copy)]
pub struct Walk<'a>(pub &'a [u8]);

impl Display for Walk<'_> {
    fn fmt<W: fmt::Write>(&self, f: &mut fmt::Formatter<W>) -> fmt::Result {
        for (i, vertex) in self.0.iter().enumerate() {
            if 0 < i {
                write!(f, " ")?;
            }
            write!(f, "{vertex}")?;
        }
        Ok(())
    }
}

// The answer of a plan, and its walk, which stands in its area.
pub fn planned(rt: &impl Print, answer: Result<Option<Plan>, Refusal>, area: &[u8]) {
    match answer {
        Ok(Some(Plan { weight, hops })) => {
            println!(rt; "LITRES {weight} CHANGES {hops}").unwrap_or(());
            let length = area.len().min(hops.saturating_add(1));
            println!(rt; "{}", Walk(&area[..length])).unwrap_or(());
        }
        Ok(None) => println!(rt; "NONE").unwrap_or(()),
        Err(refusal) => println!(rt; "{refusal}").unwrap_or(()),
    }
}

// A line for each value that changed: the area, the place, and the values before and after.
pub fn changes<T: PartialEq + Display, const N: usize>(
    rt: &impl Print,
    area: &str,
    before: &[T; N],
    after: &[T; N],
) {
    for (i, (was, is)) in before.iter().zip(after).enumerate() {
        if was != is {
            println!(rt; "{area} {i} {was} {is}").unwrap_or(());
        }
    }
}
