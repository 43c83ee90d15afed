// A graph laid over a caller's table of words. `raw` writes the table, `draft` has the draft that takes pairs and edges,
// `finished` the graph that finishing makes of it. What a table means stands in specs/Table of the crate `tables`, what
// each call of a draft does in specs/Drafting.
#![tactic(auto)]

pub mod draft;
pub mod finished;
pub mod raw;
