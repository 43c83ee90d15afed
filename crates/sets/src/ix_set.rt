// The set itself, and what it keeps to at all times.
ghost use Rattle.std.specs.Prelude.{◌≡◌, ℕ, ◌+◌, ◌/◌, ◌^◌, ◌<◌, ◌≤◌, false, vec_len};
ghost use Rattle.bits.specs.Bits.{has, how_many};

// A set of the nodes of a graph that has `nodes` of them: node n is a member if bit n % 64 of word n / 64 is set. `count`
// is always the number of members, and no bit stands beyond the last node. `spec` says which kind of graph it is.
#[derive(Drop)]
pub struct IxSet<S> {
    pub(crate) words: Vec<u64>,
    pub(crate) nodes: u32,
    pub(crate) count: u32,
    pub(crate) spec: S,
    ghost few: { nodes < 2 ^ 32 },
    ghost long: { vec_len words ≡ (nodes + 63) / 64 },
    ghost within: { (n : ℕ) → nodes ≤ n → has words.items n ≡ false },
    ghost counted: { count ≡ how_many (has words.items) nodes },
}
