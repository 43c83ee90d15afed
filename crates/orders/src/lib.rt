// What an order file asks for, done and worded. `laying` adds the edges of records to a draft, `page` words answers and
// `listing` the edges at a node, and `lines` goes through a text line by line. Reading a line is the work of the crate
// `records`.
#![tactic(auto)]

pub mod laying;
pub mod lines;
mod listing;
pub mod naming;
pub mod page;
#[cfg(test)]
mod tests;
