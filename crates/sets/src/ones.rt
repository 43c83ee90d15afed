// A cursor along the members of a set, and what it keeps to at all times.
ghost use Rattle.std.specs.Prelude.{◌≡◌, ℕ, ◌≤◌, false};
ghost use Rattle.bits.specs.Bits.{how_many, pending};
ghost use Rattle.sets.specs.Sets.{member};

use crate::ix_set::IxSet;

// It stands at the word `row` of the set; `bits` are the members of that word which it has still to give, and `remaining`
// is how many it has still to give in all.
#[derive(Drop)]
pub struct IxOnes<'a, S> {
    pub(crate) set: &'a IxSet<S>,
    pub(crate) row: usize,
    pub(crate) bits: u64,
    pub(crate) remaining: u32,
    ghost at: { row ≤ set.now.nodes },
    ghost within: { (n : ℕ) → set.now.nodes ≤ n → pending (member set.now) row bits n ≡ false },
    ghost counted: { remaining ≡ how_many (pending (member set.now) row bits) set.now.nodes },
}
