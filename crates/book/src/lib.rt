// The book: its reader, and what a book that is read means to the layers above.
#![tactic(auto)]

ghost use Rattle.std.specs.Prelude.{◌≡◌, ◌≤◌, length};
ghost use Rattle.book.specs.Reading.{reading, read_as};
ghost use Rattle.book.specs.Refusal.{number_of, place_of};
ghost use Rattle.book.specs.Tables.{Blank, LoadedAs, left};

mod field;

use dates::Window;
use field::field_end;
pub use field::{are_vertices, enter_arc, is_path, is_path_length};
use limits::{AREA, MOST_PATHS, MOST_SETS, NO_ARC, PAIRS};
use std::fmt;
use walks::ArcTable;

// The refusals of 01 and 02. A book's refusal holds the byte at which the field starts, or the index of an item.
#[derive(Clone, Copy, PartialEq, Eq, Debug)]
pub enum Refusal {
    Truncated(usize),
    Tag(usize),
    Length(usize),
    Value(usize),
    Repeated(usize),
    TooMany(usize),
    Endpoint,
    Area,
    Invalid,
    NotAWalk,
    Ended,
    NotStanding,
    Full,
    Window(usize),
    Date,
    PathLength,
    NoVertex,
    NoRoom,
}

impl Refusal {
    // The number of the refusal (01, 02).
    pub fn number(self) -> usize
        ensures { result ≡ number_of self }
    {
        match self {
            Refusal::Truncated(_) => 1,
            Refusal::Tag(_) => 2,
            Refusal::Length(_) => 3,
            Refusal::Value(_) => 4,
            Refusal::Repeated(_) => 5,
            Refusal::TooMany(_) => 6,
            Refusal::Endpoint => 7,
            Refusal::Area => 8,
            Refusal::Invalid => 9,
            Refusal::NotAWalk => 10,
            Refusal::Ended => 11,
            Refusal::NotStanding => 12,
            Refusal::Full => 13,
            Refusal::Window(_) => 14,
            Refusal::Date => 15,
            Refusal::PathLength => 16,
            Refusal::NoVertex => 17,
            Refusal::NoRoom => 18,
        }
    }

    // The place that it carries, if it has one.
    pub fn place(self) -> Option<usize>
        ensures { result ≡ place_of self }
    {
        match self {
            Refusal::Truncated(at)
            | Refusal::Tag(at)
            | Refusal::Length(at)
            | Refusal::Value(at)
            | Refusal::Repeated(at)
            | Refusal::TooMany(at)
            | Refusal::Window(at) => Some(at),
            _ => None,
        }
    }
}

impl fmt::Display for Refusal {
    fn fmt<W: fmt::Write>(&self, f: &mut fmt::Formatter<W>) -> fmt::Result {
        let number = self.number();
        match self.place() {
            Some(at) => write!(f, "REFUSED {number} AT {at}"),
            None => write!(f, "REFUSED {number}"),
        }
    }
}

// How many vertices, arcs, rule sets and forbidden paths a book has.
#[derive(Clone, Copy, PartialEq, Eq, Debug)]
pub struct Counts {
    pub vertices: usize,
    pub arcs: usize,
    pub sets: usize,
    pub paths: usize,
}

// An arc with its weight (01: a changeover, with its litres), proper or not.
#[derive(Clone, Copy, PartialEq, Eq, Debug)]
pub struct Arc {
    pub tail: usize,
    pub head: usize,
    pub weight: usize,
}

// What a field's tag says that it is.
#[derive(Clone, Copy, PartialEq, Eq, Debug)]
pub enum Kind {
    VertexCount,
    Arc,
    RuleSet,
    Path,
}

// A tag that no kind of field has.
#[derive(Clone, Copy, PartialEq, Eq, Debug)]
pub struct UnknownTag;

// What a rule set needs of a batch: flags (01: marks), and a date in the window, if it has one.
#[derive(Clone, Copy, PartialEq, Eq, Debug)]
pub struct Needs {
    pub flags: u16,
    pub window: Option<Window>,
}

// A book that has been read: its counts, its table of weights, what its rule sets need, and of each of its forbidden paths the rule
// set's index and the entry. The entries stand together, since they have the form of a runs area; the counts say how much of each table is used.
#[derive(Drop)]
pub struct Loaded {
    pub counts: Counts,
    pub weights: [u32; PAIRS],
    pub needs: [Needs; MOST_SETS],
    pub owners: [u8; MOST_PATHS],
    pub entries: [u8; AREA],
}

impl Loaded {
    // Nothing read yet.
    pub fn blank() -> Loaded
        ensures { Blank result }
    {
        Loaded {
            counts: Counts {
                vertices: 0,
                arcs: 0,
                sets: 0,
                paths: 0,
            },
            weights: [NO_ARC; PAIRS],
            needs: [Needs {
                flags: 0,
                window: None,
            }; MOST_SETS],
            owners: [0; MOST_PATHS],
            entries: [0; AREA],
        }
    }

    // The graph of the book.
    pub fn arcs(&self) -> ArcTable<'_>
        ensures vertices { result.vertices ≡ self.now.counts.vertices }
        ensures weights { result.weights.now ≡ self.now.weights }
    {
        ArcTable {
            vertices: self.counts.vertices,
            weights: &self.weights,
        }
    }

    // Takes the fields one after another, up to the first bad one.
    fn fields(&mut self, bytes: &[u8]) -> Result<(), Refusal>
        requires some_byte { 1 ≤ length bytes.now }
        requires nothing_read { Blank self.old }
        ensures { LoadedAs (reading bytes.now) (left result self.new) }
    {
        let mut at = 0;
        while at < bytes.len() {
            // `let else`, the refusal handed up: a form that is set. Where the next field starts is known only then, so `while`.
            let step = self.field(bytes, at);
            let Ok(()) = step else {
                return step;
            };
            at = field_end(bytes, at);
        }
        Ok(())
    }

    // Reads a book into tables in which nothing stands yet, or answers its refusal.
    pub fn read(&mut self, bytes: &[u8]) -> Result<(), Refusal>
        requires nothing_read { Blank self.old }
        ensures { LoadedAs (reading bytes.now) (left result self.new) }
    {
        if bytes.is_empty() {
            return Err(Refusal::Truncated(0));
        }
        self.fields(bytes)
    }
}

// Reads a book: its counts, or its refusal.
pub fn read(bytes: &[u8]) -> Result<Counts, Refusal>
    ensures { result ≡ read_as (reading bytes.now) }
{
    let mut book = Loaded::blank();
    book.read(bytes)?;
    Ok(book.counts)
}

// Reads a book into its counts and tables, or answers its refusal.
pub fn load(bytes: &[u8]) -> Result<Loaded, Refusal>
    ensures { LoadedAs (reading bytes.now) result }
{
    let mut book = Loaded::blank();
    book.read(bytes)?;
    Ok(book)
}
