// The fields of a book, each added to what stands in a buffer that has the room.
ghost use Rattle.std.specs.Prelude.{◌≡◌, ◌++◌, ◌+◌, ◌≤◌, ◌<◌, length};
ghost use mathlib.Core.List.{flat_map};
ghost use Rattle.arrayvec.specs.ArrayVec.{array_vec_len};
ghost use Rattle.limits.specs.Limits.{most_vertices};
ghost use Rattle.book.specs.Book.{Book};
ghost use Rattle.book_bytes.specs.Bytes.{field_of, arc_field, needs_field, path_field, set_fields, longest_book};
ghost use Rattle.writing.specs.Rising.{rising};
ghost use Rattle.writing.specs.Kept.{Kept, set_at, first_path, PathsFrom};

use crate::Bytes;
use book::{Loaded, Needs};
use dates::Window;
use limits::{ENTRY, MOST_VERTICES, NO_ARC};

// A field: its tag, the length of its body in two bytes (high byte first), and the body.
pub fn field(tag: u8, body: &[u8], out: &mut Bytes)
    requires short { length body.now < 65536 }
    requires room { array_vec_len out.old + 3 + length body.now ≤ longest_book }
    ensures { out.new.items ≡ out.old.items ++ field_of tag body.now }
{
    let [high, low] = (body.len() as u16).to_be_bytes();
    out.push(tag);
    out.push(high);
    out.push(low);
    out.try_extend_from_slice(body).unwrap();
}

fn arc(tail: usize, head: usize, weight: u32, out: &mut Bytes)
    requires tail_fits { tail < most_vertices }
    requires head_fits { head < most_vertices }
    requires room { array_vec_len out.old + 9 ≤ longest_book }
    ensures { out.new.items ≡ out.old.items ++ arc_field (record { tail = tail; head = head; weight = weight }) }
{
    let [w3, w2, w1, w0] = weight.to_be_bytes();
    field(2, &[tail as u8, head as u8, w3, w2, w1, w0], out);
}

// The arcs, in the order of the table of pairs: it is that of tail, then head.
pub fn arcs(book: &Loaded, out: &mut Bytes)
    requires room { (b : Book) × Kept b book.now × (array_vec_len out.old + length (flat_map arc_field (rising b.arcs)) ≤ longest_book) }
    ensures { (b : Book) → Kept b book.now → out.new.items ≡ out.old.items ++ flat_map arc_field (rising b.arcs) }
{
    for (pair, weight) in book.weights.iter().enumerate() {
        if *weight != NO_ARC {
            arc(pair / MOST_VERTICES, pair % MOST_VERTICES, *weight, out);
        }
    }
}

// What a rule set needs: the short form where it has no window.
fn needs(needs: Needs, out: &mut Bytes)
    requires room { array_vec_len out.old + length (needs_field needs) ≤ longest_book }
    ensures { out.new.items ≡ out.old.items ++ needs_field needs }
{
    let [high, low] = needs.flags.to_be_bytes();
    match needs.window {
        None => field(3, &[high, low], out),
        Some(Window { first, last }) => field(
            3,
            &[high, low, first.day, first.month, last.day, last.month],
            out,
        ),
    }
}

// The paths of the rule set with index k, of which the first is `from`; the answer is the index after the last.
fn paths(book: &Loaded, k: usize, from: usize, out: &mut Bytes) -> usize
    requires room { (b : Book) × PathsFrom b book.now k from × (array_vec_len out.old + length (flat_map path_field (set_at b k).paths) ≤ longest_book) }
    ensures { (b : Book) → PathsFrom b book.now k from → (result ≡ first_path b (k + 1)) × (out.new.items ≡ out.old.items ++ flat_map path_field (set_at b k).paths) }
{
    let mut j = from;
    while j < book.counts.paths && usize::from(book.owners[j]) == k {
        let entry = &book.entries[j * ENTRY..(j + 1) * ENTRY];
        field(4, &entry[1..1 + usize::from(entry[0])], out);
        j += 1;
    }
    j
}

// The rule sets, each followed by its paths.
pub fn sets(book: &Loaded, out: &mut Bytes)
    requires room { (b : Book) × Kept b book.now × (array_vec_len out.old + length (flat_map set_fields b.sets) ≤ longest_book) }
    ensures { (b : Book) → Kept b book.now → out.new.items ≡ out.old.items ++ flat_map set_fields b.sets }
{
    let mut j = 0;
    for k in 0..book.counts.sets {
        needs(book.needs[k], out);
        j = paths(book, k, j, out);
    }
}
