// Prints the board of the case on standard input: marks in two bytes (high byte first), start, day, month, year in two bytes, and a book.
#![tactic(auto)]

use arrayvec::ArrayVec;
use std::io;
use std::io::{Read, Write};
use text::LONGEST_INPUT;

fn main(rt: HostRuntime) {
    let mut input = ArrayVec::<u8, LONGEST_INPUT>::new();
    io::copy(&mut rt.stdin().take(LONGEST_INPUT as u64), &mut input).ok();
    rt.stdout()
        .write_all(&board_text::board(&input))
        .unwrap_or(());
}
