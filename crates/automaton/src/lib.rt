// The automaton of a set of forbidden paths (Aho and Corasick), as tables.
#![tactic(auto)]

ghost use Rattle.std.specs.Prelude.{List, ◌≡◌, ℕ, ◌+◌, ◌*◌, ◌<◌, ◌≤◌, length};
ghost use Rattle.limits.specs.Limits.{most_vertices, most_paths, entry_size};
ghost use Rattle.states.specs.Count.{states_of};
ghost use Rattle.automaton.specs.Area.{Spells, Bounded, Given};
ghost use Rattle.automaton.specs.Built.{Built};
ghost use Rattle.automaton.specs.Progress.{Room, Progress, Reached, Waiting};
ghost use Rattle.automaton.specs.Rows.{Filled, Singles, Sized, Starts};
ghost use Rattle.automaton.specs.Lent.{Kept};

use limits::{ENTRY, LONGEST_PATH, MOST_PATHS, MOST_VERTICES};
use walks::PathArea;

// A path's proper prefixes of two vertices or more: at most six.
pub const PREFIXES: usize = 6;

// How many states there are at most: the single vertices, and the prefixes of each path. The steps from them: one for each vertex.
pub const STATES: usize = MOST_VERTICES + MOST_PATHS * PREFIXES;

pub const STEPS: usize = STATES * MOST_VERTICES;

// The automaton's tables: room for S states and T steps from them. A table each, and not a struct a state: the vertices alone are read for all
// states, and a row of steps is copied within its table.
#[derive(Drop)]
pub struct Automaton<const S: usize, const T: usize> {
    // The step of state q over vertex v at q * 64 + v.
    pub steps: [u16; T],
    // The blocked vertices of each state, as the bits of a word.
    pub blocked: [u64; S],
    // The vertex at which each state stands.
    pub latest: [u8; S],
    // The failure link of each state of two vertices or more.
    pub fail: [u16; S],
}

// The steps of a single vertex, before any longer state is there.
fn single_row(steps: &mut [u16], from: usize, vertices: usize)
    requires few_vertices { vertices ≤ most_vertices }
    requires room { from + vertices ≤ length steps.old }
    ensures { Filled steps.old steps.new from vertices }
{
    for v in 0..vertices {
        steps[from + v] = v as u16;
    }
}

// Each path stands at its first vertex.
fn starts(paths: PathArea, current: &mut [u16; MOST_PATHS])
    requires within { paths.count * entry_size ≤ length paths.bytes.now }
    requires few_paths { paths.count ≤ most_paths }
    ensures { Starts paths.entry.bytes.now paths.entry.count current.new }
{
    for i in 0..paths.count {
        current[i] = paths.bytes[i * ENTRY + 1] as u16;
    }
}

// The tables that `build` is lent. Each method says that it leaves the same tables there, each as long
// as before (`Kept`): of references that a struct holds, a proof knows neither by itself.
#[derive(Drop)]
struct Tables<'a> {
    steps: &'a mut [u16],
    blocked: &'a mut [u64],
    latest: &'a mut [u8],
    fail: &'a mut [u16],
}

impl Tables<'_> {
    // The single vertices: each steps to each vertex, and none is blocked.
    fn singles(&mut self, vertices: usize)
        requires few_vertices { vertices ≤ most_vertices }
        requires steps_fit { vertices * most_vertices ≤ length self.old.steps.now }
        requires blocked_fit { vertices ≤ length self.old.blocked.now }
        requires latest_fit { vertices ≤ length self.old.latest.now }
        ensures singles { Singles vertices vertices self.new.steps.now self.new.blocked.now self.new.latest.now }
        ensures kept { Kept self.old self.new }
    {
        for q in 0..vertices {
            single_row(self.steps, q * MOST_VERTICES, vertices);
            self.blocked[q] = 0;
            self.latest[q] = q as u8;
        }
    }

    // The states from `first` on start with the rows and the blocked vertices of their failure links.
    fn rows(&mut self, vertices: usize, first: usize, states: usize)
        requires { Waiting vertices first states self.old.steps.now self.old.blocked.now self.old.fail.now }
        ensures filled { (F : List (List ℕ)) (l i : ℕ) (latest current : List ℕ) → length F ≤ i → Progress F vertices l i first first states self.old.steps.now self.old.blocked.now latest self.old.fail.now current → Progress F vertices l i first states states self.new.steps.now self.new.blocked.now latest self.new.fail.now current }
        ensures same_latest { self.new.latest.now ≡ self.old.latest.now }
        ensures same_fail { self.new.fail.now ≡ self.old.fail.now }
        ensures kept { Kept self.old self.new }
    {
        for q in first..states {
            let f = self.fail[q] as usize;
            let from = f * MOST_VERTICES;
            self.steps
                .copy_within(from..from + vertices, q * MOST_VERTICES);
            self.blocked[q] = self.blocked[f];
        }
    }

    // The next vertex of path i, which stands at a state of `level` vertices: nothing where the path has ended before; blocked where it ends
    // there; else the path goes on to the child, which may be new. What it takes is the state of the two loops around it.
    fn extend(
        &mut self,
        paths: PathArea,
        i: usize,
        level: usize,
        first: usize,
        states: usize,
        current: &mut [u16; MOST_PATHS],
    ) -> usize
        requires within { i < paths.count }
        requires reached { Reached paths.bytes.now paths.count level i first first states self.old.steps.now self.old.blocked.now self.old.latest.now self.old.fail.now current.old }
        ensures taken { (F : List (List ℕ)) (n : ℕ) → Spells paths.entry.bytes.now paths.entry.count F → Progress F n level i first first states self.old.steps.now self.old.blocked.now self.old.latest.now self.old.fail.now current.old → Progress F n level (i + 1) first first result self.new.steps.now self.new.blocked.now self.new.latest.now self.new.fail.now current.new }
        ensures kept { Kept self.old self.new }
    {
        let size = paths.bytes[i * ENTRY] as usize;
        if size <= level {
            return states;
        }
        let q = current[i] as usize;
        let v = paths.bytes[i * ENTRY + 1 + level] as usize;
        if size == level + 1 {
            self.blocked[q] |= 1u64 << v;
            return states;
        }
        let cell = q * MOST_VERTICES + v;
        let old = self.steps[cell];
        if first <= old as usize {
            current[i] = old;
            return states;
        }
        let new = states as u16;
        self.fail[states] = old;
        self.latest[states] = v as u8;
        self.steps[cell] = new;
        current[i] = new;
        states + 1
    }

    // One level: the states of one vertex more than `level`.
    fn children(
        &mut self,
        paths: PathArea,
        level: usize,
        first: usize,
        current: &mut [u16; MOST_PATHS],
    ) -> usize
        requires { Reached paths.bytes.now paths.count level 0 first first first self.old.steps.now self.old.blocked.now self.old.latest.now self.old.fail.now current.old }
        ensures taken { (F : List (List ℕ)) (n : ℕ) → Spells paths.entry.bytes.now paths.entry.count F → Progress F n level 0 first first first self.old.steps.now self.old.blocked.now self.old.latest.now self.old.fail.now current.old → Progress F n level paths.entry.count first first result self.new.steps.now self.new.blocked.now self.new.latest.now self.new.fail.now current.new }
        ensures kept { Kept self.old self.new }
    {
        let mut states = first;
        for i in 0..paths.count {
            states = self.extend(paths, i, level, first, states, current);
        }
        states
    }
}

// Builds the automaton of the paths that the area spells, in the front of lent tables of any lengths:
// the steps of its states, their blocked vertices, and the vertex at which each stands. `fail` is for
// their failure links. Answers how many states there are.
pub fn build(
    paths: PathArea,
    vertices: usize,
    steps: &mut [u16],
    blocked: &mut [u64],
    latest: &mut [u8],
    fail: &mut [u16],
) -> usize
    requires given { Given paths.bytes.now paths.count vertices }
    requires room { Room (states_of vertices paths.count) steps.old blocked.old latest.old fail.old }
    ensures { (F : List (List ℕ)) → Spells paths.entry.bytes.now paths.entry.count F → Bounded vertices F → Built F vertices result steps.new blocked.new latest.new }
{
    let mut current = [0u16; MOST_PATHS];
    let mut tables = Tables {
        steps,
        blocked,
        latest,
        fail,
    };
    tables.singles(vertices);
    starts(paths, &mut current);
    let mut first = vertices;
    for level in 1..LONGEST_PATH {
        let states = tables.children(paths, level, first, &mut current);
        tables.rows(vertices, first, states);
        first = states;
    }
    first
}

impl<const S: usize, const T: usize> Automaton<S, T> {
    // Builds the automaton of the paths that the area spells, in the front of its own tables. Answers
    // how many states there are. It says that the tables keep their sizes (`Sized`): of an array that
    // a call was lent, a proof no longer knows it.
    pub fn build(&mut self, paths: PathArea, vertices: usize) -> usize
        requires given { Given paths.bytes.now paths.count vertices }
        requires states_fit { states_of vertices paths.count ≤ S }
        requires steps_fit { states_of vertices paths.count * most_vertices ≤ T }
        ensures built { (F : List (List ℕ)) → Spells paths.entry.bytes.now paths.entry.count F → Bounded vertices F → Built F vertices result self.new.steps self.new.blocked self.new.latest }
        ensures sized { Sized S T self.new.steps self.new.blocked self.new.latest self.new.fail }
    {
        build(
            paths,
            vertices,
            &mut self.steps,
            &mut self.blocked,
            &mut self.latest,
            &mut self.fail,
        )
    }
}
