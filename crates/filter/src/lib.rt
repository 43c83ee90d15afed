// Filters: what a walk asks about each edge, and tells about each node. `buffered` has the trait and its meaning, `simple`
// filters that hold nothing, `reversed` a filter with edges turned round, `lent` and `one_of` filters of the same meaning.
#![tactic(auto)]

pub mod buffered;
pub mod lent;
pub mod one_of;
pub mod reversed;
pub mod simple;
