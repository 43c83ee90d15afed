// Weak pairs: which package edges a graph knows, each with its weak index and the node that releases it.
// `table` holds them, at most 1,024, in fixed tables; `pairs` has the calls. Their meaning is a list of pairs in which a
// pair's place is its weak index (specs/Pairs of the crate `theory`).
#![tactic(auto)]

pub mod pairs;
pub mod table;
