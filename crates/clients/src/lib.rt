// Clients of the graph layer: a graph laid, finished and read through its views, proved to give a concrete answer from
// the contracts alone, and tests at the limits. What these functions promise shows that the contracts below suffice.
#![tactic(auto)]

pub mod first_two;
pub mod four_nodes;
#[cfg(test)]
mod tests;
