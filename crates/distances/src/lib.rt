// Least distances in a finite graph, worked out in passes: theory alone, and two numbers that the code of the crates above reads.
// specs/ says what distances and passes are.
#![tactic(auto)]

// A cost as one number is the weight times HOPS and the number of edges, which is below it.
pub const HOPS: u32 = 2048;

// The entry of a state from which no path to a target is known: above all others, so that the lesser of two entries is one comparison.
pub const INF: u64 = 4398046511104;
