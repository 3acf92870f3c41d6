// Checks the line-up on standard input against the runs of its book's binding sheets.
#![tactic(auto)]

use arrayvec::ArrayVec;
use std::io;
use std::io::Read;
use text::LONGEST_INPUT;

fn main(rt: HostRuntime) {
    let mut input = ArrayVec::<u8, LONGEST_INPUT>::new();
    io::copy(&mut rt.stdin().take(LONGEST_INPUT as u64), &mut input).ok();
    kinds::check_case(&rt, &input);
}
