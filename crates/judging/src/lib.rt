// What a report is refused for in a book that has been read.
#![tactic(auto)]

ghost use Rattle.std.specs.Prelude.{◌≡◌, true, ◌&&◌, ◌≤◌, [], eqb, length};
ghost use Rattle.walks.specs.Graph.{from_arcs};
ghost use Rattle.walks.specs.Walk.{is_walk, weight_of};
ghost use Rattle.walks.specs.Feasible.{is_feasible};
ghost use Rattle.walks.specs.Avoid.{occurs as Avoid-occurs};
ghost use Rattle.book.specs.Book.{Book, graph};
ghost use Rattle.book.specs.Refusal.{all_hold, refusal_by};
ghost use Rattle.book.specs.Tables.{IsGraph};
ghost use Rattle.rules.specs.Area.{spelled, valid};
ghost use Rattle.limits.specs.Limits.{area_size, longest};
ghost use Rattle.trial_rules.specs.Trials.{failed, said_tests, number_tests, is_record};
ghost use Rattle.judging.specs.Judging.{state_of, judge_tests, judged_as};

use book::Refusal;
use limits::{AREA, LONGEST, MOST_PATHS, MOST_VERTICES};
use trial_record::Record;
use walks::{ArcTable, PathArea};

// The weight of a walk.
fn weigh(arcs: ArcTable, walk: &[u8]) -> u64
    requires graph { (b : Book) × IsGraph b arcs.vertices arcs.weights.now × (is_walk (graph b) walk.now ≡ true) }
    requires short { length walk.now ≤ longest }
    ensures { (b : Book) → IsGraph b arcs.entry.vertices arcs.entry.weights.now → is_walk (graph b) walk.now ≡ true → result ≡ weight_of (graph b) walk.now }
{
    let mut sum = 0;
    for pair in walk.windows(2) {
        let (u, v) = (usize::from(pair[0]), usize::from(pair[1]));
        sum += u64::from(arcs.weights[u * MOST_VERTICES + v]);
    }
    sum
}

// Whether a walk from the record's start to its end, clear of the forbidden paths, stands, and weighs what the record says.
fn stands(arcs: ArcTable, rec: Record, paths: PathArea, walk: &[u8]) -> bool
    requires graph { (b : Book) × IsGraph b arcs.vertices arcs.weights.now }
    requires short { length walk.now ≤ longest }
    requires area { (area_size ≤ length paths.bytes.now) × (valid arcs.vertices paths.bytes.now paths.count ≡ true) }
    ensures { (b : Book) → IsGraph b arcs.entry.vertices arcs.entry.weights.now → result ≡ is_feasible (graph b) (spelled paths.entry.count paths.entry.bytes.now) rec.start rec.end walk.now && eqb rec.litres (weight_of (graph b) walk.now) }
{
    walk_check::is_walk(arcs, walk)
        && walk[0] == rec.start
        && walk[walk.len() - 1] == rec.end
        && walk_check::first_occurrence(paths, walk).is_none()
        && weigh(arcs, walk) == rec.litres
}

// 9 on a record's numbers. Of the graph and the state the tests of these read the count and the record alone.
fn numbers_fit(rec: Record, vertices: usize) -> bool
    ensures tested { result ≡ all_hold (number_tests (from_arcs vertices []) (state_of rec [] [])) }
    ensures short { result ≡ true → rec.length ≤ longest }
{
    rec.stage <= 2
        && usize::from(rec.start) < vertices
        && usize::from(rec.end) < vertices
        && rec.first <= rec.known
        && rec.known - rec.first == rec.failed
        && rec.passed == usize::from(rec.stage == 1)
        && rec.length <= LONGEST
}

// 9 on a record, where the forbidden paths are valid.
fn is_record(arcs: ArcTable, rec: Record, paths: &[u8], walk: &[u8]) -> bool
    requires graph { (b : Book) × IsGraph b arcs.vertices arcs.weights.now }
    requires long { longest ≤ length walk.now }
    requires area { (area_size ≤ length paths.now) × (valid arcs.vertices paths.now rec.known ≡ true) }
    ensures { (b : Book) → IsGraph b arcs.entry.vertices arcs.entry.weights.now → result ≡ is_record (graph b) (state_of rec paths.now walk.now) }
{
    if !numbers_fit(rec, arcs.vertices) {
        return false;
    }
    if rec.stage == 2 {
        return rec.length == 0 && rec.litres == 0;
    }
    let paths = PathArea {
        bytes: paths,
        count: rec.known,
    };
    stands(arcs, rec, paths, &walk[..rec.length])
}

// 8, 9 and 11: what every report is refused for.
pub fn judge(arcs: ArcTable, rec: Record, paths: &[u8], walk: &[u8]) -> Result<(), Refusal>
    requires graph { (b : Book) × IsGraph b arcs.vertices arcs.weights.now }
    ensures { (b : Book) → IsGraph b arcs.entry.vertices arcs.entry.weights.now → result ≡ judged_as (refusal_by (judge_tests rec paths.now walk.now b)) }
{
    if paths.len() < AREA {
        return Err(Refusal::Area);
    }
    if walk.len() < LONGEST {
        return Err(Refusal::Area);
    }
    let known = PathArea {
        bytes: paths,
        count: rec.known,
    };
    if !rules::valid(known, arcs.vertices) {
        return Err(Refusal::Invalid);
    }
    if !is_record(arcs, rec, paths, walk) {
        return Err(Refusal::Invalid);
    }
    if rec.stage != 0 {
        return Err(Refusal::Ended);
    }
    Ok(())
}

// Whether a path stands in a walk.
fn occurs(path: &[u8], walk: &[u8]) -> bool
    ensures { result ≡ Avoid-occurs path.now walk.now }
{
    path.is_empty() || walk.windows(path.len()).any(|part| path == part)
}

// 16, 17, 12 and 13: what a report is refused for by the path that it names. Of the state the tests of these read the record and the walk's area alone.
pub fn judge_named(arcs: ArcTable, rec: Record, walk: &[u8], named: &[u8]) -> Result<(), Refusal>
    requires graph { (b : Book) × IsGraph b arcs.vertices arcs.weights.now }
    requires within { rec.length ≤ length walk.now }
    ensures { (b : Book) → IsGraph b arcs.entry.vertices arcs.entry.weights.now → result ≡ judged_as (refusal_by (said_tests (graph b) (state_of rec [] walk.now) (failed named.now))) }
{
    if !book::is_path_length(named.len()) {
        return Err(Refusal::PathLength);
    }
    if !book::are_vertices(named, arcs.vertices) {
        return Err(Refusal::NoVertex);
    }
    if !occurs(named, &walk[..rec.length]) {
        return Err(Refusal::NotStanding);
    }
    if MOST_PATHS <= rec.known {
        return Err(Refusal::Full);
    }
    Ok(())
}
