// Plans from each list of a stream of frames. A frame has the count of vertices in two bytes (high byte first, as all numbers here), start,
// end, the count of known runs in two, the lengths of the line-up area and of the runs area in two each, the runs area, and then the
// list: six bytes an item, of which the last four are the weight. What is left after the last whole item is no item.
#![tactic(auto)]

ghost use Rattle.std.specs.Prelude.{◌+◌, ◌*◌, ◌≤◌, ◌<◌, ◌≡◌, length, take};
ghost use Rattle.planner.specs.Planning.{PlanningOf};
ghost use Rattle.listed.specs.Listing.{listing};
ghost use Rattle.plan_list.specs.Items.{item_of, first_items, items_of, most_items, items_in};

use book::Refusal;
use cases::{each_case, planned};
use listed::Arc;
use record_bytes::{four, word};
use routes::Plan;
use text::LONGEST_INPUT;

// How many items of a list are looked at: more than there are pairs, so that a longer list has a bad one among them.
const MOST_ITEMS: usize = 4100;

// The bytes of an item.
const ITEM: usize = 6;

// The bytes of a frame before its runs area.
const HEAD: usize = 10;

// The longest area for the walk.
const SPACE: usize = 65_536;

// A frame taken apart, but for the length of the walk's area.
#[derive(Clone, Copy)]
struct Case<'a> {
    vertices: usize,
    list: &'a [u8],
    paths: &'a [u8],
    count: usize,
    start: u8,
    end: u8,
}

// The item at the front of some bytes.
fn item(bytes: &[u8]) -> Arc
    requires { 6 ≤ length bytes.now }
    ensures { result ≡ item_of bytes.now }
{
    Arc {
        tail: usize::from(bytes[0]),
        head: usize::from(bytes[1]),
        weight: u32::from_be_bytes([bytes[2], bytes[3], bytes[4], bytes[5]]) as usize,
    }
}

// How many items of a list of that many bytes are looked at.
fn items_in(size: usize) -> usize
    ensures { result ≡ items_in size }
{
    let whole = size / ITEM;
    whole.min(MOST_ITEMS)
}

// The first n items of a list, in an array of a fixed size, and no matter what after them.
fn items(bytes: &[u8], n: usize) -> [Arc; MOST_ITEMS]
    requires few { n ≤ most_items }
    requires whole { n * 6 ≤ length bytes.now }
    ensures { take n result ≡ first_items n bytes.now }
{
    let none = Arc {
        tail: 0,
        head: 0,
        weight: 0,
    };
    let mut arcs = [none; MOST_ITEMS];
    for i in 0..n {
        arcs[i] = item(&bytes[i * ITEM..]);
    }
    arcs
}

// Plans from a list in bytes.
fn plan_items(case: Case, walk: &mut [u8]) -> Result<Option<Plan>, Refusal>
    ensures { PlanningOf (listing case.entry.vertices (items_of case.entry.list.now)) case.entry.paths.now case.entry.count case.entry.start case.entry.end walk.old result walk.new }
{
    let n = items_in(case.list.len());
    let arcs = items(case.list, n);
    listed::plan_arcs(
        case.vertices,
        &arcs[..n],
        case.paths,
        case.count,
        case.start,
        case.end,
        walk,
    )
}

// Takes a frame apart, plans into the front of an area, of the length that the frame says, and prints the answer. A frame that is shorter
// than its lengths say is refusal 1 at 0.
fn list_case(rt: &impl Print, frame: &[u8]) {
    if frame.len() < HEAD {
        println!(rt; "{}", Refusal::Truncated(0)).unwrap_or(());
        return;
    }
    let room = word(frame, 6);
    let Some((paths, list)) = frame[HEAD..].split_at_checked(word(frame, 8)) else {
        println!(rt; "{}", Refusal::Truncated(0)).unwrap_or(());
        return;
    };
    let case = Case {
        vertices: word(frame, 0),
        list,
        paths,
        count: word(frame, 4),
        start: frame[2],
        end: frame[3],
    };
    let mut space = [0; SPACE];
    let walk = &mut space[..room];
    let answer = plan_items(case, walk);
    planned(rt, answer, walk);
}

fn main(rt: HostRuntime) {
    let mut buffer = [0; LONGEST_INPUT];
    each_case(&mut rt.stdin(), &mut buffer, |frame| list_case(&rt, frame));
}
