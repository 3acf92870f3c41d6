// The runs area: its entries, and whether it is valid.
ghost use Rattle.std.specs.Prelude.{◌≡◌, ◌+◌, ◌*◌, ◌≤◌, length, take, drop};
ghost use Rattle.rules.specs.Binding.{member};
ghost use Rattle.rules.specs.Area.{blocks};
ghost use Rattle.limits.specs.Limits.{entry_size, area_size};
ghost use Rattle.rules.specs.Area.{is_entry as Area-is_entry, valid as Area-valid};

use book::is_path;
use limits::{AREA, ENTRY, LONGEST_PATH, MOST_PATHS};
use walks::PathArea;

// The entry with an index.
pub fn entry(area: &[u8], k: usize) -> &[u8]
    requires { (k + 1) * entry_size ≤ length area.now }
    ensures bytes { result.now ≡ take entry_size (drop (k * entry_size) area.now) }
    ensures whole { length result.now ≡ entry_size }
{
    &area[k * ENTRY..(k + 1) * ENTRY]
}

// Whether an entry is among the first n of `table`, an area that is being filled.
pub fn found(entry: &[u8], table: &[u8], n: usize) -> bool
    requires { n * entry_size ≤ length table.now }
    ensures { result ≡ member entry.now (blocks n table.now) }
{
    table[..n * ENTRY].chunks_exact(ENTRY).any(|e| entry == e)
}

// Whether an entry is one that the book's rules take.
fn is_entry(entry: &[u8], vertices: usize) -> bool
    requires { length entry.now ≡ entry_size }
    ensures { result ≡ Area-is_entry vertices entry.now }
{
    let n = usize::from(entry[0]);
    n <= LONGEST_PATH && is_path(&entry[1..1 + n], vertices)
}

// The paths are entered into a blank area one after the other, which at the end is to be the area itself.
pub fn valid(paths: PathArea, vertices: usize) -> bool
    requires { area_size ≤ length paths.bytes.now }
    ensures { result ≡ Area-valid vertices paths.entry.bytes.now paths.entry.count }
{
    if MOST_PATHS < paths.count {
        return false;
    }
    let mut clean = [0; AREA];
    for k in 0..paths.count {
        let given = entry(paths.bytes, k);
        if !is_entry(given, vertices) {
            return false;
        }
        let at = k * ENTRY;
        let n = 1 + usize::from(given[0]);
        clean[at..at + n].copy_from_slice(&given[..n]);
        if found(entry(&clean, k), &clean, k) {
            return false;
        }
    }
    paths.bytes[..AREA] == clean[..]
}
