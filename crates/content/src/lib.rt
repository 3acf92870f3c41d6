// A book's content in numbers: taken into the tables of a book, or refused.
#![tactic(auto)]

ghost use Rattle.std.specs.Prelude.{◌≡◌, ◌+◌, ◌≤◌, ◌<◌, ℕ, suc, List, [], length, MatchResult};
ghost use Rattle.limits.specs.Limits.{longest_path};
ghost use Rattle.book.specs.Book.{Book};
ghost use Rattle.book.specs.Reading.{arc_of, refused};
ghost use Rattle.book.specs.Tables.{LoadedAs, left};
ghost use Rattle.content.specs.Content.{an_arc, a_set, a_path, arc_in, set_size, needs_in, item_size, arc_items, set_items, with_item, with_items, content};
ghost use Rattle.content.specs.Loading.{Begun, BytesOf, ItemTaken};

use book::{Arc, Loaded, Needs, Refusal};
use dates::{MonthDay, Window};
use limits::LONGEST_PATH;

// The numbers of an arc, and of a rule set without a window and with one.
const ARC: usize = 3;

const SET: usize = 3;

const SET_WITH_WINDOW: usize = 7;

// What a content comes to. The arcs are three numbers each: tail, head, weight. The rule sets are numbers one after another: of each its flags; 0, or
// another number and the four of a window (first day, first month, last day, last month); how many paths it has, and of each of these its length and its vertices.
// A refusal carries the item's index: the count has 0, then come the arcs, then the rule sets, each before its paths.
pub fn load(vertices: usize, arcs: &[u32], sets: &[u32]) -> Result<Loaded, Refusal>
    ensures { LoadedAs (content vertices arcs.now sets.now) result }
{
    let mut book = Loaded::blank();
    book.add_count(0, vertices)?;
    add_arcs(&mut book, arcs)?;
    add_sets(&mut book, 1 + arcs.len() / ARC, sets)?;
    Ok(book)
}

// The arc at the front of some numbers.
fn arc(s: &[u32]) -> Arc
    requires { 3 ≤ length s.now }
    ensures { arc_of result ≡ arc_in s.now }
{
    Arc {
        tail: s[0] as usize,
        head: s[1] as usize,
        weight: s[2] as usize,
    }
}

// Takes the arcs; the first has index 1.
fn add_arcs(book: &mut Loaded, s: &[u32]) -> Result<(), Refusal>
    requires begun { (b : Book) × Begun b book.old × (b.arcs ≡ []) }
    ensures { (b : Book) → Begun b book.old → b.arcs ≡ [] → LoadedAs (with_items 1 (arc_items s.now) b) (left result book.new) }
{
    let whole = s.len() / ARC;
    for k in 0..whole {
        book.add_arc(1 + k, arc(&s[k * ARC..]))?;
    }
    if s.len() % ARC != 0 {
        return Err(Refusal::Length(1 + whole));
    }
    Ok(())
}

// The numbers of the rule set at the front of some.
fn set_size(s: &[u32]) -> usize
    ensures { result ≡ set_size s.now }
{
    if 1 < s.len() && s[1] != 0 {
        SET_WITH_WINDOW
    } else {
        SET
    }
}

// The numbers of the item at the front of some, where so many paths of the last rule set are still to come.
fn item_size(more: u32, s: &[u32]) -> usize
    ensures { result ≡ item_size more s.now }
{
    if more == 0 {
        return set_size(s);
    }
    match s.first() {
        Some(n) => 1 + *n as usize,
        None => 1,
    }
}

// What the rule set at the front of some numbers needs; or its refusal, where flags are no word or a day no two bytes.
fn needs(i: usize, s: &[u32]) -> Result<Needs, Refusal>
    requires { set_size s.now ≤ length s.now }
    ensures { MatchResult result (λ f. (f ≡ needs_in s.now) × (f.flags < 65536)) (λ r. (b : Book) → with_item b i (a_set (needs_in s.now)) ≡ refused r) }
{
    if 65535 < s[0] {
        return Err(Refusal::Value(i));
    }
    let flags = s[0] as u16;
    if s[1] == 0 {
        return Ok(Needs {
            flags,
            window: None,
        });
    }
    if 255 < s[2] || 255 < s[3] || 255 < s[4] || 255 < s[5] {
        return Err(Refusal::Window(i));
    }
    let first = MonthDay {
        day: s[2] as u8,
        month: s[3] as u8,
    };
    let last = MonthDay {
        day: s[4] as u8,
        month: s[5] as u8,
    };
    Ok(Needs {
        flags,
        window: Some(Window { first, last }),
    })
}

// Takes the rule set at the front of some numbers.
fn add_set(book: &mut Loaded, i: usize, s: &[u32]) -> Result<(), Refusal>
    requires { set_size s.now ≤ length s.now }
    ensures { (b : Book) → Begun b book.old → LoadedAs (with_item b i (a_set (needs_in s.now))) (left result book.new) }
{
    let needs = needs(i, s)?;
    book.add_set(i, needs)
}

// The vertices of a path as bytes, if all are.
fn path_bytes(path: &[u32]) -> Option<[u8; LONGEST_PATH]>
    requires { length path.now ≤ longest_path }
    ensures { BytesOf path.now result }
{
    let mut bytes = [0; LONGEST_PATH];
    for (j, v) in path.iter().enumerate() {
        if 255 < *v {
            return None;
        }
        bytes[j] = *v as u8;
    }
    Some(bytes)
}

// Takes a path of the last rule set.
fn add_path(book: &mut Loaded, i: usize, path: &[u32]) -> Result<(), Refusal>
    requires { (b : Book) × Begun b book.old × (1 ≤ length b.sets) }
    ensures { (b : Book) → Begun b book.old → 1 ≤ length b.sets → LoadedAs (with_item b i (a_path path.now)) (left result book.new) }
{
    if !book::is_path_length(path.len()) {
        return Err(Refusal::Length(i));
    }
    let Some(bytes) = path_bytes(path) else {
        return Err(Refusal::Value(i));
    };
    book.add_path(i, &bytes[..path.len()])
}

// Takes the item at the front of some numbers, where so many paths of the last rule set are still to come; and answers how many are to come then.
fn add_item(book: &mut Loaded, i: usize, more: u32, s: &[u32]) -> Result<u32, Refusal>
    requires whole { item_size more s.now ≤ length s.now }
    requires begun { (b : Book) × Begun b book.old × (1 ≤ more → 1 ≤ length b.sets) }
    ensures { (b : Book) → Begun b book.old → (1 ≤ more → 1 ≤ length b.sets) → ItemTaken b i more s.now result book.new }
{
    if more == 0 {
        add_set(book, i, s)?;
        return Ok(s[set_size(s) - 1]);
    }
    add_path(book, i, &s[1..item_size(more, s)])?;
    Ok(more - 1)
}

// Takes the rule sets and their paths; the first has index `first`.
fn add_sets(book: &mut Loaded, first: usize, s: &[u32]) -> Result<(), Refusal>
    requires begun { (b : Book) × Begun b book.old }
    requires countable { first + length s.now < 0xffff_ffff_ffff_ffff }
    ensures { (b : Book) → Begun b book.old → LoadedAs (with_items first (set_items (suc (length s.now)) 0 s.now) b) (left result book.new) }
{
    let mut at = 0;
    let mut i = first;
    // the paths of the last rule set that are still to come
    let mut more = 0;
    while more != 0 || at < s.len() {
        let rest = &s[at..];
        let size = item_size(more, rest);
        if rest.len() < size {
            return Err(Refusal::Length(i));
        }
        more = add_item(book, i, more, rest)?;
        at += size;
        i += 1;
    }
    Ok(())
}
