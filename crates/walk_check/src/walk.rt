// The check of a walk.
ghost use Rattle.std.specs.Prelude.{◌≡◌, ◌*◌, ◌≤◌, length, get_or};
ghost use Rattle.book.specs.Book.{Book, All, graph};
ghost use Rattle.book.specs.Tables.{IsGraph};
ghost use Rattle.limits.specs.Limits.{entry_size, longest_path};
ghost use Rattle.rules.specs.Area.{blocks, spelled};
ghost use Rattle.walk_check.specs.Checking.{occurrence, checkable};

use crate::Occurrence;
use limits::{LONGEST, LONGEST_PATH, MOST_VERTICES, NO_ARC};
use walks::{ArcTable, PathArea};

// Whether what is to be checked is a walk, and not too long.
pub fn is_walk(arcs: ArcTable, walk: &[u8]) -> bool
    requires graph { (b : Book) × IsGraph b arcs.vertices arcs.weights.now }
    ensures { (b : Book) → IsGraph b arcs.entry.vertices arcs.entry.weights.now → result ≡ checkable (graph b) walk.now }
{
    if LONGEST < walk.len() {
        return false;
    }
    if walk.is_empty() {
        return false;
    }
    if arcs.vertices <= usize::from(walk[0]) {
        return false;
    }
    for pair in walk.windows(2) {
        let u = usize::from(pair[0]);
        let v = usize::from(pair[1]);
        if arcs.vertices <= v || arcs.weights[u * MOST_VERTICES + v] == NO_ARC {
            return false;
        }
    }
    true
}

// The path that ends earliest and, of those with that end, the shortest: ends, lengths, paths and their vertices in turn.
pub fn first_occurrence(paths: PathArea, walk: &[u8]) -> Option<Occurrence>
    requires within { paths.count * entry_size ≤ length paths.bytes.now }
    requires short { All (λ e. get_or e 0 0 ≤ longest_path) (blocks paths.count paths.bytes.now) }
    ensures { result ≡ occurrence (spelled paths.entry.count paths.entry.bytes.now) walk.now }
{
    // A rule of the project: loops over ends, paths and their vertices, left by a label at the first path that fits.
    let mut first = None;
    'ends: for end in 1..=walk.len() {
        for length in 2..=LONGEST_PATH.min(end) {
            let place = end - length;
            'paths: for k in 0..paths.count {
                let entry = rules::entry(paths.bytes, k);
                if usize::from(entry[0]) != length {
                    continue 'paths;
                }
                for i in 0..length {
                    if entry[1 + i] != walk[place + i] {
                        continue 'paths;
                    }
                }
                first = Some(Occurrence { place, length });
                break 'ends;
            }
        }
    }
    first
}
