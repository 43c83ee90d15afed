// The mathematics under the lists, over plain numbers, lists and sets: edges and graphs, chains of links, weak pairs,
// rules and least sets, the walk with held edges, components, roots, order and links, and the worked cases.
// No code of use runs here: specs/ has the definitions that the contracts of the crates above cite, each function below
// asks for the proof of one law, and proofs/ has the proofs. It stands below all code, so that no change above pays for
// these proofs again.
#![tactic(auto)]

pub mod cases;
pub mod components;
pub mod least;
pub mod listings;
