// What every layer above speaks of: index types, directions, the kinds of graph, edge records and their links, refusals.
// Each enum that stands for numbers has one definition of them in specs/ (Refusals, Records, Links), which contracts cite.
#![tactic(auto)]

pub mod direction;
pub mod limits;
pub mod links;
pub mod records;
pub mod refusal;
pub mod spec;
