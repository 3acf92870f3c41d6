// One field of a book: the tests in their order, and what it adds to the tables.
ghost use Rattle.std.specs.Prelude.{◌≡◌, true, ◌+◌, ◌≤◌, ◌<◌, length, ok_or, Some, MatchResult};
ghost use Rattle.std.specs.Prelude.{OnErr};
ghost use Rattle.dates.specs.Dates.{window_fits};
ghost use Rattle.limits.specs.Limits.{most_vertices, most_sets, longest_path};
ghost use Rattle.book.specs.Book.{Book, path_length, are_vertices, proper_arc, is_path};
ghost use Rattle.book.specs.Reading.{u16_at, u32_at, day_at, window_at, needs_at, end_at, length_at, kind_of, framed, taken, arc_of, with_count, with_arc, with_set, with_path};
ghost use Rattle.book.specs.Reading.{field as Reading-field, fits as Reading-fits, follows as Reading-follows};
ghost use Rattle.book.specs.Tables.{IsGraph, IsLoaded, AreTables, Enters, Leaves, LoadedAs, left};

use crate::{Arc, Counts, Kind, Loaded, Needs, Refusal, UnknownTag};
use dates::{MonthDay, Window};
use limits::{ENTRY, HEAVIEST, LONGEST_PATH, MOST_PATHS, MOST_SETS, MOST_VERTICES, NO_ARC, PAIRS};

// A number becomes a kind by `match`: the tags are these four.
impl TryFrom<u8> for Kind {
    type Error = UnknownTag;

    ghost try_from_gives = { λ tag kind. kind ≡ ok_or (kind_of tag) (record {}) };

    fn try_from(tag: u8) -> Result<Kind, UnknownTag> {
        match tag {
            1 => Ok(Kind::VertexCount),
            2 => Ok(Kind::Arc),
            3 => Ok(Kind::RuleSet),
            4 => Ok(Kind::Path),
            _ => Err(UnknownTag),
        }
    }
}

impl Kind {
    // Whether a field of the kind may stand after what was read. By `match`, as below: the kinds are closed.
    fn follows(self, counts: Counts) -> bool
        ensures { result ≡ Reading-follows counts.vertices counts.sets (Some self) }
    {
        match self {
            Kind::VertexCount => counts.vertices == 0,
            Kind::Arc => counts.vertices != 0 && counts.sets == 0,
            Kind::RuleSet => counts.vertices != 0,
            Kind::Path => counts.sets != 0,
        }
    }

    // Whether a field of the kind may have so many bytes.
    fn fits(self, n: usize) -> bool
        ensures { result ≡ Reading-fits (Some self) n }
    {
        match self {
            Kind::VertexCount => n == 1,
            Kind::Arc => n == 6,
            Kind::RuleSet => n == 2 || n == 6,
            Kind::Path => is_path_length(n),
        }
    }
}

// Numbers, high byte first.
fn u16_at(bytes: &[u8], i: usize) -> u16
    requires { i + 2 ≤ length bytes.now }
    ensures { result ≡ u16_at bytes.now i }
{
    u16::from_be_bytes([bytes[i], bytes[i + 1]])
}

fn u32_at(bytes: &[u8], i: usize) -> u32
    requires { i + 4 ≤ length bytes.now }
    ensures { result ≡ u32_at bytes.now i }
{
    u32::from_be_bytes([bytes[i], bytes[i + 1], bytes[i + 2], bytes[i + 3]])
}

// How many bytes the field's body has.
fn field_length(bytes: &[u8], at: usize) -> usize
    requires { at + 3 ≤ length bytes.now }
    ensures { result ≡ length_at bytes.now at }
{
    usize::from(u16_at(bytes, at + 1))
}

// The byte after the field.
pub fn field_end(bytes: &[u8], at: usize) -> usize
    requires { at + 3 ≤ length bytes.now }
    ensures { result ≡ end_at bytes.now at }
{
    at + 3 + field_length(bytes, at)
}

// The kind of the field, if its frame is whole: 1 for the head, 2, 3, 1 for the body.
fn frame(bytes: &[u8], at: usize, counts: Counts) -> Result<Kind, Refusal>
    requires { at < length bytes.now }
    ensures { MatchResult result (λ kind. framed bytes.now at counts ≡ Ok (Some kind)) (λ r. framed bytes.now at counts ≡ Err r) }
{
    if bytes.len() - at < 3 {
        return Err(Refusal::Truncated(at));
    }
    let kind = match Kind::try_from(bytes[at]) {
        Ok(kind) if kind.follows(counts) => kind,
        _ => return Err(Refusal::Tag(at)),
    };
    let n = field_length(bytes, at);
    if !kind.fits(n) {
        return Err(Refusal::Length(at));
    }
    if bytes.len() - at - 3 < n {
        return Err(Refusal::Truncated(at));
    }
    Ok(kind)
}

impl Arc {
    // Whether a book with so many vertices takes it.
    fn is_proper(self, vertices: usize) -> bool
        ensures { result ≡ proper_arc vertices (arc_of self) }
    {
        self.tail < vertices
            && self.head < vertices
            && self.tail != self.head
            && self.weight <= HEAVIEST
    }
}

// Enters an arc into a book's table of weights; a refusal carries `at`. Count and table stand apart: an `ArcTable` only lends its table.
pub fn enter_arc(
    vertices: usize,
    at: usize,
    arc: Arc,
    weights: &mut [u32; PAIRS],
) -> Result<(), Refusal>
    requires { vertices ≤ most_vertices }
    ensures enters { (b : Book) → IsGraph b vertices weights.old
        → Enters b at (arc_of arc) result weights.new }
    ensures kept { OnErr result (weights.new ≡ weights.old) }
{
    if !arc.is_proper(vertices) {
        return Err(Refusal::Value(at));
    }
    let pair = arc.tail * MOST_VERTICES + arc.head;
    if weights[pair] != NO_ARC {
        return Err(Refusal::Repeated(at));
    }
    weights[pair] = arc.weight as u32;
    Ok(())
}

// A day of the year: its day, its month.
fn day_at(bytes: &[u8], i: usize) -> MonthDay
    requires { i + 2 ≤ length bytes.now }
    ensures { result ≡ day_at bytes.now i }
{
    MonthDay {
        day: bytes[i],
        month: bytes[i + 1],
    }
}

// The window of a rule set's field, if it has one.
fn window_at(bytes: &[u8], at: usize) -> Option<Window>
    requires whole { end_at bytes.now at ≤ length bytes.now }
    requires fit { Reading-fits (Some Kind.RuleSet) (length_at bytes.now at) ≡ true }
    ensures { result ≡ window_at bytes.now at }
{
    if field_length(bytes, at) == 2 {
        return None;
    }
    Some(Window {
        first: day_at(bytes, at + 5),
        last: day_at(bytes, at + 7),
    })
}

// What the rule set of the field needs.
fn needs_at(bytes: &[u8], at: usize) -> Needs
    requires whole { end_at bytes.now at ≤ length bytes.now }
    requires fit { Reading-fits (Some Kind.RuleSet) (length_at bytes.now at) ≡ true }
    ensures { result ≡ needs_at bytes.now at }
{
    Needs {
        flags: u16_at(bytes, at + 3),
        window: window_at(bytes, at),
    }
}

impl Needs {
    // Whether the edges of its window, if it has one, are days.
    fn is_valid(self) -> bool
        ensures { result ≡ window_fits self.window }
    {
        self.window.is_none_or(|w| w.is_valid())
    }
}

// Whether a path may have so many vertices.
pub fn is_path_length(n: usize) -> bool
    ensures { result ≡ path_length n }
{
    (2..=LONGEST_PATH).contains(&n)
}

// Whether all are vertices of a book with so many.
pub fn are_vertices(path: &[u8], vertices: usize) -> bool
    ensures { result ≡ are_vertices vertices path.now }
{
    path.iter().all(|v| usize::from(*v) < vertices)
}

// Whether it is a path that the rules take.
#[tactic(auto, unfolding(crate::specs::Book::is_path))]
pub fn is_path(path: &[u8], vertices: usize) -> bool
    ensures { result ≡ is_path vertices path.now }
{
    is_path_length(path.len()) && are_vertices(path, vertices)
}

// What a book takes: each tests what it takes, and adds it to the tables. A refusal carries `at`.
impl Loaded {
    pub fn add_count(&mut self, at: usize, n: usize) -> Result<(), Refusal>
        ensures leaves { (b : Book) → IsLoaded b self.old
            → Leaves AreTables (with_count b at n) (left result self.new) }
        ensures kept { OnErr result (self.new ≡ self.old) }
    {
        if !(1..=MOST_VERTICES).contains(&n) {
            return Err(Refusal::Value(at));
        }
        self.counts.vertices = n;
        Ok(())
    }

    pub fn add_arc(&mut self, at: usize, arc: Arc) -> Result<(), Refusal>
        requires few_vertices { self.old.counts.vertices ≤ most_vertices }
        requires countable { self.old.counts.arcs < 0xffff_ffff_ffff_ffff }
        ensures leaves { (b : Book) → IsLoaded b self.old
            → Leaves AreTables (with_arc b at (arc_of arc)) (left result self.new) }
        ensures kept { OnErr result (self.new ≡ self.old) }
    {
        enter_arc(self.counts.vertices, at, arc, &mut self.weights)?;
        self.counts.arcs += 1;
        Ok(())
    }

    pub fn add_set(&mut self, at: usize, needs: Needs) -> Result<(), Refusal>
        ensures leaves { (b : Book) → IsLoaded b self.old
            → Leaves AreTables (with_set b at needs) (left result self.new) }
        ensures kept { OnErr result (self.new ≡ self.old) }
    {
        if !needs.is_valid() {
            return Err(Refusal::Window(at));
        }
        let k = self.counts.sets;
        if MOST_SETS <= k {
            return Err(Refusal::TooMany(at));
        }
        self.needs[k] = needs;
        self.counts.sets += 1;
        Ok(())
    }

    pub fn add_path(&mut self, at: usize, path: &[u8]) -> Result<(), Refusal>
        requires short { length path.now ≤ longest_path }
        requires some_set { 1 ≤ self.old.counts.sets }
        requires few_sets { self.old.counts.sets ≤ most_sets }
        ensures leaves { (b : Book) → IsLoaded b self.old
            → Leaves AreTables (with_path b at path.now) (left result self.new) }
        ensures kept { OnErr result (self.new ≡ self.old) }
    {
        if !are_vertices(path, self.counts.vertices) {
            return Err(Refusal::Value(at));
        }
        let k = self.counts.paths;
        if MOST_PATHS <= k {
            return Err(Refusal::TooMany(at));
        }
        let n = path.len();
        self.owners[k] = (self.counts.sets - 1) as u8;
        self.entries[k * ENTRY] = n as u8;
        self.entries[k * ENTRY + 1..k * ENTRY + 1 + n].copy_from_slice(path);
        self.counts.paths += 1;
        Ok(())
    }

    fn vertex_count(&mut self, bytes: &[u8], at: usize) -> Result<(), Refusal>
        requires { at + 4 ≤ length bytes.now }
        ensures leaves { (b : Book) → IsLoaded b self.old
            → Leaves AreTables (taken (Some Kind.VertexCount) bytes.now b at)
            (left result self.new) }
        ensures kept { OnErr result (self.new ≡ self.old) }
    {
        self.add_count(at, usize::from(bytes[at + 3]))
    }

    fn arc(&mut self, bytes: &[u8], at: usize) -> Result<(), Refusal>
        requires at_in_bounds { at + 9 ≤ length bytes.now }
        requires few_vertices { self.old.counts.vertices ≤ most_vertices }
        requires arcs_before { self.old.counts.arcs ≤ at }
        ensures leaves { (b : Book) → IsLoaded b self.old
            → Leaves AreTables (taken (Some Kind.Arc) bytes.now b at) (left result self.new) }
        ensures kept { OnErr result (self.new ≡ self.old) }
    {
        let arc = Arc {
            tail: usize::from(bytes[at + 3]),
            head: usize::from(bytes[at + 4]),
            weight: u32_at(bytes, at + 5) as usize,
        };
        self.add_arc(at, arc)
    }

    fn rule_set(&mut self, bytes: &[u8], at: usize) -> Result<(), Refusal>
        requires whole { end_at bytes.now at ≤ length bytes.now }
        requires fit { Reading-fits (Some Kind.RuleSet) (length_at bytes.now at) ≡ true }
        ensures leaves { (b : Book) → IsLoaded b self.old
            → Leaves AreTables (taken (Some Kind.RuleSet) bytes.now b at) (left result self.new) }
        ensures kept { OnErr result (self.new ≡ self.old) }
    {
        self.add_set(at, needs_at(bytes, at))
    }

    fn path(&mut self, bytes: &[u8], at: usize) -> Result<(), Refusal>
        requires whole { end_at bytes.now at ≤ length bytes.now }
        requires short { length_at bytes.now at ≤ longest_path }
        requires some_set { 1 ≤ self.old.counts.sets }
        requires few_sets { self.old.counts.sets ≤ most_sets }
        ensures leaves { (b : Book) → IsLoaded b self.old
            → Leaves AreTables (taken (Some Kind.Path) bytes.now b at) (left result self.new) }
        ensures kept { OnErr result (self.new ≡ self.old) }
    {
        self.add_path(at, &bytes[at + 3..field_end(bytes, at)])
    }

    // Takes the field at byte `at`.
    pub(crate) fn field(&mut self, bytes: &[u8], at: usize) -> Result<(), Refusal>
        requires at_in_bounds { at < length bytes.now }
        requires few_vertices { self.old.counts.vertices ≤ most_vertices }
        requires arcs_before { self.old.counts.arcs ≤ at }
        requires few_sets { self.old.counts.sets ≤ most_sets }
        ensures leaves { (b : Book) → IsLoaded b self.old
            → LoadedAs (Reading-field bytes.now b at) (left result self.new) }
        ensures kept { OnErr result (self.new ≡ self.old) }
    {
        match frame(bytes, at, self.counts)? {
            Kind::VertexCount => self.vertex_count(bytes, at),
            Kind::Arc => self.arc(bytes, at),
            Kind::RuleSet => self.rule_set(bytes, at),
            Kind::Path => self.path(bytes, at),
        }
    }
}
