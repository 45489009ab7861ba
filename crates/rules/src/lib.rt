// What the definitions and proofs of every crate share: refusals in an order, tests of whole numbers, how often a number stands in a list, and the rules by
// which a branch is proved. And document 01's limits. It has no function.
#![tactic(auto)]

// The most triangles of a mesh, columns and rows of its index, questions of a job and moves of a list.
pub const MOST: usize = 65536;

// The most cells of an index.
pub const MOST_CELLS: usize = 1048576;
