// Graphs by their meaning. `graph` has the two traits that every graph implements and all generic code is proved against;
// `edges` has a list of edges as an iterator, `views` a graph turned round and a graph cut down to a set of nodes, `lent`
// graphs that are lent. The meaning itself, Sound and Tied, stands in the specs of the crate `theory`.
#![tactic(auto)]

pub mod edge;
pub mod edges;
pub mod graph;
pub mod lent;
pub mod views;
