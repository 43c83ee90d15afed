// Clients of index sets: sets made, combined and listed, proved to give a concrete answer from the contracts alone, and
// tests at the edges of words and graphs.
#![tactic(auto)]

pub mod in_one_of_two;
#[cfg(test)]
mod tests;
