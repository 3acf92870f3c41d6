// Cases of the table of ends: the text of a board; and single calls with a runs area and a table of any length and content, which print the
// answer and every number that the call changed.
//
// The case of a board is the input of the program `board`. The case of a call is a head of 22 bytes, what is given of the runs area
// and of the table, and the book. The head: start; the count of known paths in eight bytes; how many bytes of the area are given
// and how many follow in two each, and the byte that they are; how many numbers of the table are given and how many follow in two
// each, and the number that they are in four.
#![tactic(auto)]

ghost use Rattle.std.specs.Prelude.{◌+◌, ◌*◌, ◌≤◌, ◌≡◌, length};
ghost use Rattle.book.specs.Reading.{reading};
ghost use Rattle.reach.specs.Reaching.{table_after};
ghost use Rattle.table_cases.specs.Given.{given};

use book::Refusal;
use cases::changes;
use record_bytes::{MOST_AREA, area, eight, four, word};

const HEAD: usize = 22;

// As many numbers as the table may have.
const MOST_TABLE: usize = 256;

pub fn board_case(rt: &impl Print, input: &[u8]) {
    rt.write_all(&board_text::board(input)).unwrap_or(());
}

// The area and the table are what is given, and as many more of one value as the head says.
pub fn table_case(rt: &impl Print, input: &[u8]) {
    let size = input.len();
    if size < HEAD {
        println!(rt; "{}", Refusal::Truncated(0)).unwrap_or(());
        return;
    }
    let paths_given = word(input, 9);
    let paths_size = paths_given + word(input, 11);
    let table_given = word(input, 14);
    let table_size = table_given + word(input, 16);
    let table_from = HEAD + paths_given;
    let book_from = table_from + table_given * 4;
    if size < book_from || MOST_AREA < paths_size || MOST_TABLE < table_size {
        println!(rt; "{}", Refusal::Truncated(0)).unwrap_or(());
        return;
    }
    let paths = area(&input[HEAD..table_from], input[13]);
    let more = four(input, 18);
    let mut table = [more; MOST_TABLE];
    numbers(input, table_from, &mut table, table_given);
    let before = table;
    make(
        rt,
        &input[book_from..],
        &paths[..paths_size],
        eight(input, 1),
        input[0],
        &mut table[..table_size],
    );
    changes(rt, "TABLE", &before, &table);
}

// The first n numbers of the table, four bytes each; the table is an array of a fixed size.
fn numbers(s: &[u8], from: usize, table: &mut [u32], n: usize)
    requires in_bytes { from + n * 4 ≤ length s.now }
    requires in_table { n ≤ length table.old }
    ensures { table.new ≡ given s.now from n table.old }
{
    for i in 0..n {
        table[i] = four(s, from + i * 4);
    }
}

// Makes the call, and prints its answer; it takes what the operation takes.
fn make(rt: &impl Print, bytes: &[u8], paths: &[u8], count: usize, start: u8, table: &mut [u32])
    ensures { table.new ≡ table_after (reading bytes.now) paths.now count start table.old }
{
    match reach::reach(bytes, paths, count, start, table) {
        Ok(vertices) => println!(rt; "FILLED {vertices}").unwrap_or(()),
        Err(refusal) => println!(rt; "{refusal}").unwrap_or(()),
    }
}
