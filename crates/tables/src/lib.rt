// A graph in a table of words: the mathematics. No code runs here: specs/Table says what a table means and keeps to, and
// proofs/ has the lemmas that the crate `draft` and the laws of its finished graph rest on.
#![tactic(auto)]
