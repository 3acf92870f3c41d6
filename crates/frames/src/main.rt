// Answers each case of a stream of frames.
#![tactic(auto)]

use any_cases::{Call, any_case};
use cases::each_case;
use text::LONGEST_INPUT;

// A kind, and as many bytes as `plan` reads.
const LONGEST_CASE: usize = 1 + LONGEST_INPUT;

// The kinds of cases.
#[derive(Clone, Copy)]
enum Kind {
    Read,
    Check,
    Plan,
    Replay,
    Any(Call),
    Board,
    Table,
    Passes,
    Rewrite,
    Write,
}

// A first byte that says no kind.
#[derive(Clone, Copy)]
struct UnknownKind;

impl TryFrom<u8> for Kind {
    type Error = UnknownKind;

    fn try_from(tag: u8) -> Result<Kind, UnknownKind> {
        match tag {
            0 => Ok(Kind::Read),
            1 => Ok(Kind::Check),
            2 => Ok(Kind::Plan),
            3 => Ok(Kind::Replay),
            4 => Ok(Kind::Any(Call::Bind)),
            5 => Ok(Kind::Any(Call::Check)),
            6 => Ok(Kind::Any(Call::Plan)),
            7 => Ok(Kind::Any(Call::Begin)),
            8 => Ok(Kind::Any(Call::Passed)),
            9 => Ok(Kind::Any(Call::Failed)),
            10 => Ok(Kind::Board),
            11 => Ok(Kind::Table),
            13 => Ok(Kind::Passes),
            14 => Ok(Kind::Rewrite),
            15 => Ok(Kind::Write),
            // 12 says none: stored frames hold it as a byte that says no kind.
            _ => Err(UnknownKind),
        }
    }
}

fn main(rt: HostRuntime) {
    let mut buffer = [0; LONGEST_CASE];
    each_case(
        &mut rt.stdin(),
        &mut buffer,
        |frame| framed_case(&rt, frame),
    );
}

// The first byte of a frame says which kind of case the rest is; each kind is answered by a function of its own, so a `match`.
fn framed_case(rt: &impl Print, frame: &[u8]) {
    let Some((tag, input)) = frame.split_first() else {
        println!(rt; "NO KIND").unwrap_or(());
        return;
    };
    match Kind::try_from(*tag) {
        Ok(Kind::Read) => kinds::read_case(rt, input),
        Ok(Kind::Check) => kinds::check_case(rt, input),
        Ok(Kind::Plan) => kinds::plan_case(rt, input),
        Ok(Kind::Replay) => kinds::replay_case(rt, input),
        Ok(Kind::Any(call)) => any_case(rt, call, input),
        Ok(Kind::Board) => table_cases::board_case(rt, input),
        Ok(Kind::Table) => table_cases::table_case(rt, input),
        Ok(Kind::Passes) => pass_cases::passes_case(rt, input),
        Ok(Kind::Rewrite) => write_cases::rewrite_case(rt, input),
        Ok(Kind::Write) => write_cases::write_case(rt, input),
        Err(UnknownKind) => println!(rt; "UNKNOWN KIND").unwrap_or(()),
    }
}
