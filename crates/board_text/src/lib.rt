// What the program `board` prints, as a function from its input's bytes to its output's.
#![tactic(auto)]

ghost use Rattle.std.specs.Prelude.{◌≡◌, [], ◌++◌, ◌+◌, ◌*◌, ◌≤◌, length, MatchResult};
ghost use Rattle.arrayvec.specs.ArrayVec.{array_vec_len};
ghost use Rattle.board_text.specs.Board.{Printed, board_text};
ghost use Rattle.board_text.specs.Lines.{entry_line, table_lines};
ghost use Rattle.text.specs.Text.{refusal_text, longest_text};

use book::Refusal;
use ends::NO_END;
use limits::{AREA, MOST_VERTICES};
use routes::Plan;
use rules::Batch;
use text::{Text, cost_text, decimal, refusal_text, word};
use walks::PathArea;

// The numbers of the longest table of ends: two for each vertex.
const NUMBERS: usize = 2 * MOST_VERTICES;

// The text for an input: marks in two bytes, start, day, month, year in two bytes, and a book.
pub fn board(input: &[u8]) -> Text
    ensures { Printed input.now result.items }
{
    let mut out = Text::new();
    if let Err(refusal) = board_lines(input, &mut out) {
        refusal_text(refusal, &mut out);
    }
    out
}

// Fills the table of ends for the input in areas of its own, and writes its lines; or hands the refusal up.
fn board_lines(input: &[u8], out: &mut Text) -> Result<(), Refusal>
    requires blank { out.old.items ≡ [] }
    ensures written { MatchResult result (λ _. Printed input.now out.new.items) (λ r. (out.new.items ≡ []) × (board_text input.now ≡ refusal_text r)) }
{
    let [m1, m0, start, day, month, y1, y0, bytes @ ..] = input else {
        return Err(Refusal::Truncated(0));
    };
    let book = book::load(bytes)?;
    if book.counts.vertices <= usize::from(*start) {
        return Err(Refusal::Endpoint);
    }
    let batch = Batch::from_bytes([*m1, *m0, *day, *month, *y1, *y0]);
    if !batch.date.is_valid() {
        return Err(Refusal::Date);
    }
    let mut known = [0; AREA];
    let count = rules::gather(&book, batch, &mut known);
    let paths = PathArea {
        bytes: &known,
        count,
    };
    let mut table = [0; NUMBERS];
    reach::fill(book.arcs(), paths, *start, &mut table);
    lines(&table, book.counts.vertices, out);
    Ok(())
}

// The line of a vertex, from its entry in the table of ends: NO_END there means none, as the table's outward form is set.
fn line(v: usize, weight: u32, hops: u32, out: &mut Text)
    requires room { array_vec_len out.old + 78 ≤ longest_text }
    ensures written { out.new.items ≡ out.old.items ++ entry_line v weight hops }
    ensures short { array_vec_len out.new ≤ array_vec_len out.old + 78 }
{
    decimal(v as u64, out);
    word(b" ", out);
    if weight == NO_END {
        word(b"NONE\n", out);
    } else {
        let plan = Plan {
            weight: u64::from(weight),
            hops: hops as usize,
        };
        cost_text(plan, out);
    }
}

// The lines of all vertices, from the table of ends.
fn lines(table: &[u32], vertices: usize, out: &mut Text)
    requires in_table { 2 * vertices ≤ length table.now }
    requires room { array_vec_len out.old + vertices * 78 ≤ longest_text }
    ensures written { out.new.items ≡ out.old.items ++ table_lines table.now vertices }
    ensures short { array_vec_len out.new ≤ array_vec_len out.old + vertices * 78 }
{
    for v in 0..vertices {
        line(v, table[2 * v], table[2 * v + 1], out);
    }
}
