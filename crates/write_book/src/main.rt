// Writes a book from the content on standard input, and prints it.
#![tactic(auto)]

use arrayvec::ArrayVec;
use std::io;
use std::io::Read;

// How many bytes are read at most.
const LONGEST_INPUT: usize = 1_048_576;

fn main(rt: HostRuntime) {
    let mut input = ArrayVec::<u8, LONGEST_INPUT>::new();
    io::copy(&mut rt.stdin().take(LONGEST_INPUT as u64), &mut input).ok();
    write_cases::write_case(&rt, &input);
}
