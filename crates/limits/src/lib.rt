// The limits that the rules set, and the sizes that follow from them. specs/Limits.antt names the same numbers for the definitions.
#![tactic(auto)]

// A book: its vertices, the ordered pairs of these, the weight of an arc, its rule sets and their forbidden paths.
pub const MOST_VERTICES: usize = 64;

pub const PAIRS: usize = 4096;

pub const HEAVIEST: usize = 1_000_000;

pub const MOST_SETS: usize = 16;

pub const MOST_PATHS: usize = 256;

// The vertices of a forbidden path.
pub const LONGEST_PATH: usize = 8;

// The runs area: an entry for each path, of its length and room for its vertices.
pub const ENTRY: usize = 9;

pub const AREA: usize = 2304;

// The vertices of the longest walk, and the bytes of its area.
pub const LONGEST: usize = 1600;

// A pair of vertices that is no arc, in a table of weights: a number, since a table of Options would take twice the memory.
pub const NO_ARC: u32 = 0xffff_ffff;
