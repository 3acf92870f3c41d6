// The case of a book whose passes are counted: for each end the passes to it, beside the most changeovers of a plan; or the refusal.
#![tactic(auto)]

ghost use Rattle.std.specs.Prelude.{◌≡◌};
ghost use Rattle.walks.specs.Graph.{Graph};
ghost use Rattle.walks.specs.Weights.{Weights};
ghost use Rattle.book.specs.Reading.{reading};
ghost use Rattle.pass_cases.specs.Counts.{CountedAll, CountedAs};

use book::Refusal;
use limits::MOST_VERTICES;
use pass_counts::{is_over, most_changes, passes_to};
use walks::ArcTable;

// How many passes are made to each vertex of a book, and the most hops of a plan.
#[derive(Clone, Copy)]
struct PassCounts {
    vertices: usize,
    passes: [usize; MOST_VERTICES],
    most: u32,
}

pub fn passes_case(rt: &impl Print, input: &[u8]) {
    match count(input) {
        Ok(counts) => lines(rt, &counts),
        Err(refusal) => println!(rt; "{refusal}").unwrap_or(()),
    }
}

// A line for each end, in rising order.
fn lines(rt: &impl Print, counts: &PassCounts) {
    let most = counts.most;
    for (end, passes) in counts.passes.iter().take(counts.vertices).enumerate() {
        let over = if is_over(*passes, most) { " OVER" } else { "" };
        println!(rt; "END {end} PASSES {passes} MOST {most}{over}").unwrap_or(());
    }
}

// The counts of a book, or its refusal.
fn count(bytes: &[u8]) -> Result<PassCounts, Refusal>
    ensures { CountedAs bytes.now (reading bytes.now) result }
{
    let book = book::load(bytes)?;
    let vertices = book.counts.vertices;
    Ok(PassCounts {
        vertices,
        passes: passes_to_each(book.arcs()),
        most: most_changes(bytes, vertices),
    })
}

// The passes to each vertex of a graph.
fn passes_to_each(arcs: ArcTable) -> [usize; MOST_VERTICES]
    requires weighed { (g : Graph) × (g.count ≡ arcs.vertices) × Weights g arcs.weights.now }
    ensures { (g : Graph) → g.count ≡ arcs.entry.vertices → Weights g arcs.entry.weights.now → CountedAll g result }
{
    let mut passes = [0; MOST_VERTICES];
    for end in 0..arcs.vertices {
        passes[end] = passes_to(arcs, end as u8);
    }
    passes
}
