// The writing of text: each function adds to what stands in a buffer of any size that has the room,
// but `decimal_at`, which writes into a lent slice.
#![tactic(auto)]

ghost use Rattle.std.specs.Prelude.{◌≡◌, ◌∷◌, ◌++◌, ◌+◌, ◌*◌, ◌<◌, ◌≤◌, length, IfSome};
ghost use Rattle.arrayvec.specs.ArrayVec.{array_vec_len};
ghost use Rattle.text.specs.Lent.{StandsAt};
ghost use Rattle.text.specs.Text.{cost_text, plan_text, refusal_text, found_text};
ghost use Rattle.text.specs.Text.{decimal as Text-decimal, vertices as Text-vertices, followed as Text-followed};

use arrayvec::ArrayVec;
use book::Refusal;
use routes::Plan;

// How many bytes of an input are read at most.
pub const LONGEST_INPUT: usize = 65_536;

// How many bytes a text has at most, with room to spare.
pub const LONGEST_TEXT: usize = 8192;

// A text that is written; no heap stands behind it.
pub type Text = ArrayVec<u8, LONGEST_TEXT>;

// The digits of a number. By hand, as all below: that a `write!` answers Ok can't be shown (tried), so it could not promise that the text stands there.
fn digits(n: u64) -> ArrayVec<u8, 20>
    ensures { result.items ≡ Text-decimal n }
{
    let mut digits = if n < 10 {
        ArrayVec::new()
    } else {
        digits(n / 10)
    };
    digits.push(b'0' + (n % 10) as u8);
    digits
}

pub fn decimal<const N: usize>(n: u64, out: &mut ArrayVec<u8, N>)
    requires room { array_vec_len out.old + length (Text-decimal n) ≤ N }
    ensures written { out.new.items ≡ out.old.items ++ Text-decimal n }
{
    word(&digits(n), out);
}

// Writes a number into a slice from the place `at` on, and answers the place after it.
pub fn decimal_at(n: u64, out: &mut [u8], at: usize) -> usize
    requires { at + length (Text-decimal n) ≤ length out.old }
    ensures { StandsAt (Text-decimal n) at out.old result out.new }
{
    let text = digits(n);
    let end = at + text.len();
    out[at..end].copy_from_slice(&text);
    end
}

pub fn word<const N: usize>(s: &[u8], out: &mut ArrayVec<u8, N>)
    requires room { array_vec_len out.old + length s.now ≤ N }
    ensures written { out.new.items ≡ out.old.items ++ s.now }
{
    out.try_extend_from_slice(s).unwrap();
}

// A word and a number.
fn named<const N: usize>(s: &[u8], n: u64, out: &mut ArrayVec<u8, N>)
    requires room { array_vec_len out.old + length s.now + 20 ≤ N }
    ensures written { out.new.items ≡ out.old.items ++ (s.now ++ Text-decimal n) }
    ensures short { array_vec_len out.new ≤ array_vec_len out.old + length s.now + 20 }
{
    word(s, out);
    decimal(n, out);
}

// A blank and a vertex.
fn vertex<const N: usize>(v: u8, out: &mut ArrayVec<u8, N>)
    requires room { array_vec_len out.old + 4 ≤ N }
    ensures written { out.new.items ≡ out.old.items ++ (32 ∷ Text-decimal v) }
    ensures short { array_vec_len out.new ≤ array_vec_len out.old + 4 }
{
    out.push(b' ');
    decimal(u64::from(v), out);
}

// Each vertex after a blank.
fn followed<const N: usize>(walk: &[u8], out: &mut ArrayVec<u8, N>)
    requires room { array_vec_len out.old + length walk.now * 4 ≤ N }
    ensures written { out.new.items ≡ out.old.items ++ Text-followed walk.now }
    ensures short { array_vec_len out.new ≤ array_vec_len out.old + length walk.now * 4 }
{
    for v in walk {
        vertex(*v, out);
    }
}

// The vertices of a walk, with one blank between.
fn vertices<const N: usize>(walk: &[u8], out: &mut ArrayVec<u8, N>)
    requires some_vertex { 1 ≤ length walk.now }
    requires room { array_vec_len out.old + length walk.now * 4 ≤ N }
    ensures written { out.new.items ≡ out.old.items ++ Text-vertices walk.now }
    ensures short { array_vec_len out.new ≤ array_vec_len out.old + length walk.now * 4 }
{
    decimal(u64::from(walk[0]), out);
    followed(&walk[1..], out);
}

// The line of a plan's weight and hops.
pub fn cost_text<const N: usize>(plan: Plan, out: &mut ArrayVec<u8, N>)
    requires room { array_vec_len out.old + 57 ≤ N }
    ensures written { out.new.items ≡ out.old.items ++ cost_text plan.weight plan.hops }
    ensures short { array_vec_len out.new ≤ array_vec_len out.old + 57 }
{
    named(b"LITRES ", plan.weight, out);
    named(b" CHANGES ", plan.hops as u64, out);
    word(b"\n", out);
}

// The two lines of a plan.
pub fn plan_text<const N: usize>(plan: Plan, walk: &[u8], out: &mut ArrayVec<u8, N>)
    requires some_vertex { 1 ≤ length walk.now }
    requires room { array_vec_len out.old + 58 + length walk.now * 4 ≤ N }
    ensures written { out.new.items ≡ out.old.items ++ plan_text plan.weight plan.hops walk.now }
    ensures within { array_vec_len out.new ≤ N }
{
    cost_text(plan, out);
    vertices(walk, out);
    word(b"\n", out);
}

// The line of a refusal, with its place where it has one.
pub fn refusal_text<const N: usize>(r: Refusal, out: &mut ArrayVec<u8, N>)
    requires room { array_vec_len out.old + 53 ≤ N }
    ensures written { out.new.items ≡ out.old.items ++ refusal_text r }
    ensures within { array_vec_len out.new ≤ N }
{
    named(b"REFUSED ", r.number() as u64, out);
    if let Some(at) = r.place() {
        named(b" AT ", at as u64, out);
    }
    word(b"\n", out);
}

// The text of what is found.
pub fn found_text<const N: usize>(found: Option<Plan>, walk: &[u8], out: &mut ArrayVec<u8, N>)
    requires standing { IfSome found (λ p. p.hops < length walk.now) }
    requires room { array_vec_len out.old + 58 + length walk.now * 4 ≤ N }
    ensures written { out.new.items ≡ out.old.items ++ found_text found walk.now }
    ensures within { array_vec_len out.new ≤ N }
{
    match found {
        Some(plan) => plan_text(plan, &walk[..plan.hops + 1], out),
        None => word(b"NONE\n", out),
    }
}
