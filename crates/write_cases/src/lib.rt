// The cases of books that are written: from the content that an input says, and anew from a book's bytes. Each prints the book, or its refusal.
#![tactic(auto)]

ghost use Rattle.std.specs.Prelude.{◌≡◌, MatchResult};
ghost use Rattle.book.specs.Reading.{reading, refused};
ghost use Rattle.write_cases.specs.Inputs.{said};
ghost use Rattle.write_cases.specs.Writing.{WrittenAs, Rewritten};

mod input;

use book::Refusal;
use std::fmt;
use writing::Bytes;

// The array of which the first bytes are lent, and what each of its bytes is before.
const SPACE: usize = 65_536;

const BLANK: u8 = 165;

// Writes a book into as many bytes as the input says, and prints the book and each byte that changed besides.
pub fn write_case(rt: &impl Print, input: &[u8]) {
    let mut area = [BLANK; SPACE];
    match written(input, &mut area) {
        Some(Ok(size)) => {
            let (bytes, rest) = area.split_at(size.min(SPACE));
            book(rt, bytes);
            changed(rt, bytes.len(), rest);
        }
        Some(Err(refusal)) => {
            println!(rt; "{refusal}").unwrap_or(());
            changed(rt, 0, &area);
        }
        None => {
            println!(rt; "{}", Refusal::Truncated(0)).unwrap_or(());
            changed(rt, 0, &area);
        }
    }
}

// Reads a book, and prints it with its arcs in rising order.
pub fn rewrite_case(rt: &impl Print, input: &[u8]) {
    match rewritten(input) {
        Ok(bytes) => book(rt, &bytes),
        Err(refusal) => println!(rt; "{refusal}").unwrap_or(()),
    }
}

// What is answered for an input, and what is written into the front of the area, as long as the input says; none where the input is cut short.
fn written(input: &[u8], area: &mut [u8; SPACE]) -> Option<Result<usize, Refusal>>
    ensures { WrittenAs (said input.now) area.old result area.new }
{
    let content = input::read(input)?;
    Some(writing::write(
        content.vertices,
        &content.arcs,
        &content.sets,
        &mut area[..content.room.min(SPACE)],
    ))
}

// A book's bytes with its arcs in rising order, or its refusal.
fn rewritten(bytes: &[u8]) -> Result<Bytes, Refusal>
    ensures { MatchResult result (λ anew. Rewritten (reading bytes.now) anew.items) (λ r. reading bytes.now ≡ refused r) }
{
    let book = book::load(bytes)?;
    Ok(writing::bytes(&book))
}

// The lines of a book.
fn book(rt: &impl Print, bytes: &[u8]) {
    println!(rt; "LENGTH {}", bytes.len()).unwrap_or(());
    println!(rt; "{}", Hex(bytes)).unwrap_or(());
}

// A line for each byte that isn't as it was; the first has this place.
fn changed(rt: &impl Print, from: usize, area: &[u8]) {
    for (i, byte) in area.iter().enumerate() {
        if *byte != BLANK {
            println!(rt; "AREA {} {BLANK} {byte}", from.saturating_add(i)).unwrap_or(());
        }
    }
}

// Bytes in hexadecimal.
#[derive(Clone, Copy)]
struct Hex<'a>(&'a [u8]);

impl fmt::Display for Hex<'_> {
    fn fmt<W: fmt::Write>(&self, f: &mut fmt::Formatter<W>) -> fmt::Result {
        for byte in self.0 {
            write!(f, "{byte:02X}")?;
        }
        Ok(())
    }
}
