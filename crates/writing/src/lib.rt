// The writing of a book: its bytes from its tables; and from its content in numbers into a lent area.
#![tactic(auto)]

ghost use Rattle.std.specs.Prelude.{◌≡◌};
ghost use Rattle.book.specs.Book.{Book};
ghost use Rattle.content.specs.Content.{content};
ghost use Rattle.writing.specs.Kept.{Kept};
ghost use Rattle.writing.specs.Writing.{bytes_in_order, WritingOf};

mod fields;

use arrayvec::ArrayVec;
use book::{Loaded, Refusal};
use fields::{arcs, field, sets};

// How many bytes the longest book has.
pub const LONGEST_BOOK: usize = 39_252;

// A book's bytes; no heap stands behind them.
pub type Bytes = ArrayVec<u8, LONGEST_BOOK>;

// The bytes of a book, with its arcs in rising order of tail, then head.
pub fn bytes(book: &Loaded) -> Bytes
    requires { (b : Book) × Kept b book.now }
    ensures { (b : Book) → Kept b book.now → result.items ≡ bytes_in_order b }
{
    let mut out = Bytes::new();
    field(1, &[book.counts.vertices as u8], &mut out);
    arcs(book, &mut out);
    sets(book, &mut out);
    out
}

// Writes the book that a content comes to into the front of an area, and answers how many bytes it has.
pub fn write(vertices: usize, arcs: &[u32], sets: &[u32], area: &mut [u8]) -> Result<usize, Refusal>
    ensures { WritingOf (content vertices arcs.now sets.now) area.old result area.new }
{
    let book = content::load(vertices, arcs, sets)?;
    let bytes = bytes(&book);
    let n = bytes.len();
    if area.len() < n {
        return Err(Refusal::NoRoom);
    }
    area[..n].copy_from_slice(&bytes);
    Ok(n)
}
