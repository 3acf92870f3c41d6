// An input taken apart: the numbers of its content, as many as are looked at, and the length of the area.
ghost use Rattle.std.specs.Prelude.{◌≡◌, ◌*◌, ◌≤◌, ◌∷◌, [], length, IfSome, MatchOption, None};
ghost use Rattle.write_cases.specs.Inputs.{held, arc_numbers, arcs_numbers, paths_size, head_size, set_size, set_numbers, sets_size, sets_numbers, said};
ghost use Rattle.write_cases.specs.Kept.{Adds, KeptOf};

use arrayvec::ArrayVec;

// The bytes of an arc, of a rule set without window and paths, and of a window.
const ARC: usize = 6;

const SET: usize = 5;

const WINDOW: usize = 4;

// How many numbers of the arcs are looked at, and as many of the rule sets: more than a book can have of either, so that what has more has a bad item among them.
const MOST_NUMBERS: usize = 12_300;

// Numbers in a row, of which only the first are kept.
type Numbers = ArrayVec<u32, MOST_NUMBERS>;

// A content, as far as it is looked at, and the length of the area that it is to be written into.
#[derive(Drop)]
pub struct Content {
    pub vertices: usize,
    pub arcs: Numbers,
    pub sets: Numbers,
    pub room: usize,
}

// What an input says, or none where it is cut short.
pub fn read(input: &[u8]) -> Option<Content>
    ensures { MatchOption result (said input.now ≡ None) (λ c. KeptOf (said input.now) c.vertices c.arcs.items c.sets.items c.room) }
{
    let [vertices, n1, n0, ..] = input else {
        return None;
    };
    let mut arcs = Numbers::new();
    let at = 3 + add_arcs(&input[3..], u16::from_be_bytes([*n1, *n0]), &mut arcs)?;
    let count = *input.get(at)?;
    let mut sets = Numbers::new();
    let end = at + 1 + add_sets(&input[at + 1..], count, &mut sets)?;
    let [r3, r2, r1, r0, ..] = &input[end..] else {
        return None;
    };
    Some(Content {
        vertices: usize::from(*vertices),
        arcs,
        sets,
        room: u32::from_be_bytes([*r3, *r2, *r1, *r0]) as usize,
    })
}

// A number more, where there is room.
fn add(x: u32, out: &mut Numbers)
    ensures { Adds (x ∷ []) out.old.items out.new.items }
{
    if out.len() < MOST_NUMBERS {
        out.push(x);
    }
}

// Bytes as numbers.
fn add_bytes(bytes: &[u8], out: &mut Numbers)
    ensures { Adds bytes.now out.old.items out.new.items }
{
    for byte in bytes {
        add(u32::from(*byte), out);
    }
}

// Adds the numbers of n arcs, if they are there, and answers how many bytes these have.
fn add_arcs(input: &[u8], n: u16, out: &mut Numbers) -> Option<usize>
    ensures size { result ≡ held (n * 6) input.now }
    ensures numbers { IfSome result (λ _. Adds (arcs_numbers n input.now) out.old.items out.new.items) }
{
    let size = usize::from(n) * ARC;
    if input.len() < size {
        return None;
    }
    for k in 0..usize::from(n) {
        add_arc(&input[k * ARC..], out);
    }
    Some(size)
}

// Adds the numbers of the arc at the front of an input.
fn add_arc(input: &[u8], out: &mut Numbers)
    requires { 6 ≤ length input.now }
    ensures { Adds (arc_numbers input.now) out.old.items out.new.items }
{
    add_bytes(&input[..2], out);
    add(
        u32::from_be_bytes([input[2], input[3], input[4], input[5]]),
        out,
    );
}

// Adds the numbers of n rule sets, if they are there, and answers how many bytes these have.
fn add_sets(input: &[u8], n: u8, out: &mut Numbers) -> Option<usize>
    ensures size { result ≡ held (sets_size n input.now) input.now }
    ensures numbers { IfSome result (λ _. Adds (sets_numbers n input.now) out.old.items out.new.items) }
{
    let mut at = 0;
    for _ in 0..n {
        at += add_set(&input[at..], out)?;
    }
    Some(at)
}

// Adds the numbers of the rule set at the front of an input, if it is there, and answers how many bytes it has.
fn add_set(input: &[u8], out: &mut Numbers) -> Option<usize>
    ensures size { result ≡ held (set_size input.now) input.now }
    ensures numbers { IfSome result (λ _. Adds (set_numbers input.now) out.old.items out.new.items) }
{
    let head = head_size(input);
    if input.len() < head {
        return None;
    }
    let n = u16::from_be_bytes([input[head - 2], input[head - 1]]);
    let size = paths_size(&input[head..], n)?;
    add(u32::from(u16::from_be_bytes([input[0], input[1]])), out);
    add_bytes(&input[2..head - 2], out);
    add(u32::from(n), out);
    add_bytes(&input[head..head + size], out);
    Some(head + size)
}

// How many bytes of the rule set at the front of an input come before its paths.
fn head_size(input: &[u8]) -> usize
    ensures { result ≡ head_size input.now }
{
    if 2 < input.len() && input[2] != 0 {
        SET + WINDOW
    } else {
        SET
    }
}

// How many bytes n paths have, if they are there.
fn paths_size(input: &[u8], n: u16) -> Option<usize>
    ensures { result ≡ held (paths_size n input.now) input.now }
{
    let mut at = 0;
    for _ in 0..n {
        at += 1 + usize::from(*input.get(at)?);
    }
    if input.len() < at {
        return None;
    }
    Some(at)
}
