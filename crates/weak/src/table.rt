// The table of the weak pairs, and what it keeps to: chains of the pairs whose package edges share a bucket.
// Contracts see a table as the list of its pairs, in which a pair's place is its weak index.
use arrayvec::ArrayVec;
use std::marker::Model;

// The package edge of a pair, and the weak index of the pair before it in its bucket. Weak indexes lie below 1,024, so
// two bytes hold one.
#[derive(Clone, Copy, Default)]
pub(crate) struct Entry {
    pub(crate) package_edge: u32,
    pub(crate) next: Option<u16>,
}

// The pairs registered so far, in fixed memory. A package edge p is looked up along the chain of the bucket p % 1024:
// `heads` has for each bucket the weak index of its latest pair, and an entry that of the pair before it.
// The release nodes stand apart from the entries, since `releases` lends them as a slice.
#[derive(Drop)]
pub struct WeakDependencies {
    pub(crate) entries: ArrayVec<Entry, 1024>,
    pub(crate) release_nodes: ArrayVec<u32, 1024>,
    pub(crate) heads: [Option<u16>; 1024],
}

impl Model for WeakDependencies {
    ghost use Rattle.std.specs.Prelude.{List};
    ghost use Rattle.theory.specs.Pairs.{Pair};

    ghost Value = { List Pair };

    ghost use Rattle.weak.specs.Hashed.{pairs_in, Hashed};

    ghost view = { λ w. pairs_in w.entries.items w.release_nodes.items };

    ghost invariant = { λ w. Hashed w.entries.items w.release_nodes.items w.heads };
}
