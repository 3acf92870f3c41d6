// The forbidden paths of the rule sets that apply.
ghost use Rattle.std.specs.Prelude.{◌≡◌, length, replicate};
ghost use Rattle.book.specs.Book.{Book};
ghost use Rattle.book.specs.Tables.{IsSets};
ghost use Rattle.rules.specs.Binding.{covers, meets, known};
ghost use Rattle.rules.specs.Area.{written};
ghost use Rattle.limits.specs.Limits.{area_size};

use crate::Batch;
use crate::area::{entry, found};
use book::{Loaded, Needs};
use limits::ENTRY;

// Whether each of the needed flags is held.
fn covers(needed: u16, held: u16) -> bool
    ensures { result ≡ covers 16 needed held }
{
    needed & held == needed
}

impl Batch {
    // Whether it has what a rule set needs.
    fn meets(self, needs: Needs) -> bool
        ensures { result ≡ meets self needs }
    {
        covers(needs.flags, self.flags) && needs.window.is_none_or(|w| w.holds(self.date))
    }
}

// Enters the distinct paths of the rule sets that apply into a blank area, and answers how many they are.
pub fn gather(book: &Loaded, batch: Batch, area: &mut [u8]) -> usize
    requires sets { (b : Book) × IsSets b book.now.counts.paths book.now.needs book.now.owners book.now.entries }
    requires blank { area.old ≡ replicate area_size 0 }
    ensures { (b : Book) → IsSets b book.now.counts.paths book.now.needs book.now.owners book.now.entries → (result ≡ length (known batch b.sets)) × (area.new ≡ written (known batch b.sets)) }
{
    let mut n = 0;
    for j in 0..book.counts.paths {
        let needs = book.needs[usize::from(book.owners[j])];
        let path = entry(&book.entries, j);
        if batch.meets(needs) && !found(path, area, n) {
            area[n * ENTRY..(n + 1) * ENTRY].copy_from_slice(path);
            n += 1;
        }
    }
    n
}
