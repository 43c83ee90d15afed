// Sets of node indexes of one graph. `ix_set` has the set and what it keeps to; `words` reads and writes it a word at a
// time; `make` makes sets, `insert` and `mix` change them, `ones` and `iterate` list their members. What a set means, which
// indexes are its members, stands in specs/Sets.
#![tactic(auto)]

pub mod insert;
pub mod iterate;
pub mod ix_set;
pub mod make;
pub mod mix;
pub mod node_set;
pub mod ones;
pub mod operation;
pub mod words;
