// Sets of numbers as rows of 64-bit words: the mathematics. No code runs here: specs/Bits has the definitions that the
// contracts of the crate `sets` cite, and proofs/ the lemmas that its proofs rest on. It stands below that crate, so that
// no change there pays for these proofs again.
#![tactic(auto)]
