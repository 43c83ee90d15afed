// Clients of the filters: the calls that a walk over the four-node graph makes, proved to be answered as the walk expects from
// the contracts alone, and a test that makes them over the graph itself.
#![tactic(auto)]

pub(crate) mod edges;
pub mod four_nodes;
#[cfg(test)]
mod tests;
pub mod visit;
