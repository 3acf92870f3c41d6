// Numbers, a record and an area from bytes, high byte first: what a test program's case begins with.
#![tactic(auto)]

ghost use Rattle.std.specs.Prelude.{◌≡◌, length, ◌+◌, ◌≤◌, ◌<◌};
ghost use Rattle.record_bytes.specs.Numbers.{word_at, four_at, eight_at, record_at, area_of};

use trial_record::Record;

// As many bytes as an area of a case may have.
pub const MOST_AREA: usize = 4_096;

// Two bytes as a number. A function for each size, as below: one over the size would need it computed from the type.
pub fn word(s: &[u8], at: usize) -> usize
    requires { at + 2 ≤ length s.now }
    ensures value { result ≡ word_at s.now at }
    ensures upper_bound { result < 65536 }
{
    usize::from(u16::from_be_bytes([s[at], s[at + 1]]))
}

// Four bytes.
pub fn four(s: &[u8], at: usize) -> u32
    requires { at + 4 ≤ length s.now }
    ensures { result ≡ four_at s.now at }
{
    u32::from_be_bytes([s[at], s[at + 1], s[at + 2], s[at + 3]])
}

// Eight bytes.
pub fn eight(s: &[u8], at: usize) -> usize
    requires { at + 8 ≤ length s.now }
    ensures { result ≡ eight_at s.now at }
{
    let bytes: &[u8; 8] = s[at..].first_chunk().unwrap();
    usize::from_be_bytes(*bytes)
}

// The record of the first 58 bytes: its fields in their order, start and end in one byte each, the others in eight.
pub fn record_of(s: &[u8]) -> Record
    requires { 58 ≤ length s.now }
    ensures { result ≡ record_at s.now }
{
    Record {
        stage: eight(s, 0),
        start: s[8],
        end: s[9],
        known: eight(s, 10),
        first: eight(s, 18),
        failed: eight(s, 26),
        passed: eight(s, 34),
        litres: eight(s, 42) as u64,
        length: eight(s, 50),
    }
}

// An area of the bytes that are given, and of one value behind them.
pub fn area(given: &[u8], more: u8) -> [u8; MOST_AREA]
    requires { length given.now ≤ MOST_AREA }
    ensures { result ≡ area_of MOST_AREA given.now more }
{
    let mut bytes = [more; MOST_AREA];
    bytes[..given.len()].copy_from_slice(given);
    bytes
}
