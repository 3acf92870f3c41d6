// The check of a walk against the forbidden paths of a runs area.
#![tactic(auto)]

ghost use Rattle.std.specs.Prelude.{◌≡◌};
ghost use Rattle.walk_check.specs.Checking.{checking};

mod walk;

use book::{Loaded, Refusal};
use limits::AREA;
pub use walk::{first_occurrence, is_walk};
use walks::PathArea;

// A forbidden path occurs in a walk: the place of its first vertex, and its length.
#[derive(Clone, Copy, PartialEq, Eq, Debug)]
pub struct Occurrence {
    pub place: usize,
    pub length: usize,
}

// Checks a walk against the forbidden paths of a runs area: it is clear, or the path that is named occurs in it. The runs area and its count
// stand apart: this outward form is set.
pub fn check(
    bytes: &[u8],
    area: &[u8],
    count: usize,
    walk: &[u8],
) -> Result<Option<Occurrence>, Refusal>
    ensures { result ≡ checking bytes.now area.now count walk.now }
{
    let mut book = Loaded::blank();
    book.read(bytes)?;
    if area.len() < AREA {
        return Err(Refusal::Area);
    }
    let paths = PathArea { bytes: area, count };
    if !rules::valid(paths, book.counts.vertices) {
        return Err(Refusal::Invalid);
    }
    if !is_walk(book.arcs(), walk) {
        return Err(Refusal::NotAWalk);
    }
    Ok(first_occurrence(paths, walk))
}
