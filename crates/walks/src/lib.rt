// Graphs, walks and forbidden paths: theory, and the two values that the layers above hand on.
#![tactic(auto)]

use limits::PAIRS;

// A graph as a table: the arc from u to v weighs weights[u * 64 + v], which is NO_ARC where there is none. That it is the table of a graph or of a
// book stands in clauses and in no ghost field: what is ensured has to name that graph or book, and a table is lent while it is filled.
#[derive(Clone, Copy)]
pub struct ArcTable<'a> {
    pub vertices: usize,
    pub weights: &'a [u32; PAIRS],
}

// Forbidden paths as bytes: the first `count` entries of an area (01: the runs area). That they are valid stands in clauses, since it depends on the
// count of vertices; and the two values are apart, since most functions below planning take one of them.
#[derive(Clone, Copy)]
pub struct PathArea<'a> {
    pub bytes: &'a [u8],
    pub count: usize,
}
