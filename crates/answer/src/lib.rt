// What the program `plan` prints, as a function from its input's bytes to its output's.
#![tactic(auto)]

ghost use Rattle.std.specs.Prelude.{◌≡◌, [], MatchResult};
ghost use Rattle.answer.specs.Answer.{Printed, Answered};
ghost use Rattle.text.specs.Text.{refusal_text};

use book::Refusal;
use limits::{AREA, LONGEST};
use rules::Batch;
use text::{Text, found_text, refusal_text};
use walks::PathArea;

// The text for an input: marks in two bytes, start, end, day, month, year in two bytes, and a book.
pub fn answer(input: &[u8]) -> Text
    ensures { Printed input.now result.items }
{
    let mut out = Text::new();
    if let Err(refusal) = answer_plan(input, &mut out) {
        refusal_text(refusal, &mut out);
    }
    out
}

// Plans from the input in areas of its own, and writes what is found; or hands the refusal up.
fn answer_plan(input: &[u8], out: &mut Text) -> Result<(), Refusal>
    requires blank { out.old.items ≡ [] }
    ensures written { MatchResult result (λ _. Printed input.now out.new.items) (λ r. (out.new.items ≡ []) × Answered input.now (refusal_text r)) }
{
    let [m1, m0, start, end, day, month, y1, y0, bytes @ ..] = input else {
        return Err(Refusal::Truncated(0));
    };
    let book = book::load(bytes)?;
    if book.counts.vertices <= usize::from(*start) {
        return Err(Refusal::Endpoint);
    }
    if book.counts.vertices <= usize::from(*end) {
        return Err(Refusal::Endpoint);
    }
    let batch = Batch::from_bytes([*m1, *m0, *day, *month, *y1, *y0]);
    if !batch.date.is_valid() {
        return Err(Refusal::Date);
    }
    let mut known = [0; AREA];
    let count = rules::gather(&book, batch, &mut known);
    let paths = PathArea {
        bytes: &known,
        count,
    };
    let mut walk = [0; LONGEST];
    let found = planner::find(book.arcs(), paths, *start, *end, &mut walk);
    found_text(found, &walk, out);
    Ok(())
}
