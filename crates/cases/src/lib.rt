// What the test programs share: the frames of a stream, printing, and a comparison.
#![tactic(auto)]

ghost use Rattle.std.specs.Prelude.{IfSome, take};
ghost use Rattle.cases.specs.Each.{Taken, Served};
ghost use Rattle.cases.specs.Next.{FitsIn, IsFrame};
ghost use Rattle.cases.specs.Same.{Tells};

mod print;

use book::Refusal;
pub use print::{Walk, changes, planned};
use std::io::Read;
use trial_record::Record;

// Reads the next frame of a stream into the front of the buffer, and answers how long it is: its length in four bytes (high byte first), and
// that many bytes. A frame that is cut off, or longer than the buffer, ends the stream.
pub fn next_case<R: Read>(input: &mut R, buffer: &mut [u8]) -> Option<usize>
    ensures within { FitsIn result buffer.new }
    ensures taken { IfSome result (λ n. Taken (take n buffer.new) (R.remaining input.old) (R.remaining input.new)) }
    ensures framed { IfSome result (λ n. IsFrame n (R.remaining input.old) buffer.new) }
{
    let mut head = [0; 4];
    input.read_exact(&mut head).ok()?;
    let size = u32::from_be_bytes(head) as usize;
    if buffer.len() < size {
        return None;
    }
    input.read_exact(&mut buffer[..size]).ok()?;
    Some(size)
}

// Reads each case of a stream of frames into the buffer, and hands it on. As many as 65,536: a stream may have no end.
pub fn each_case<R: Read, F: FnMut(&[u8])>(input: &mut R, buffer: &mut [u8], mut answer: F)
    requires { F.IsAlwaysCallable answer }
    ensures { Served F.FnMut answer (R.remaining input.old) }
{
    for _ in 0..65536usize {
        let Some(size) = next_case(input, buffer) else {
            break;
        };
        answer(&buffer[..size]);
    }
}

// Whether two answers are the same in all that they say.
pub fn same_answer(a: Result<Record, Refusal>, b: Result<Record, Refusal>) -> bool
    ensures { Tells result a b }
{
    a == b
}
