// Verdicts: what decides which links a resolve may follow. `verdict` has the trait, `verdicts` the two that come with it:
// by a mask of kinds, and by a table of bytes.
#![tactic(auto)]

pub mod verdict;
pub mod verdicts;
