// Writes the book on standard input anew: bytes and nothing else, its changeovers in rising order; or the line of its refusal.
#![tactic(auto)]

use arrayvec::ArrayVec;
use std::io;
use std::io::{Read, Write};
use text::LONGEST_INPUT;

fn main(rt: HostRuntime) {
    let mut input = ArrayVec::<u8, LONGEST_INPUT>::new();
    io::copy(&mut rt.stdin().take(LONGEST_INPUT as u64), &mut input).ok();
    rt.stdout()
        .write_all(&rewriting::rewrite(&input))
        .unwrap_or(());
}
