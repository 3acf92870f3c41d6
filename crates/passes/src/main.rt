// Counts the passes that planning makes over the book on standard input.
#![tactic(auto)]

use arrayvec::ArrayVec;
use std::io;
use std::io::Read;
use text::LONGEST_INPUT;

fn main(rt: HostRuntime) {
    let mut input = ArrayVec::<u8, LONGEST_INPUT>::new();
    io::copy(&mut rt.stdin().take(LONGEST_INPUT as u64), &mut input).ok();
    pass_cases::passes_case(&rt, &input);
}
