// A set read and written a word at a time, and all its words changed. Only these functions, the ones that make a set, its
// cursors and `insert` touch its words.
ghost use Rattle.std.specs.Prelude.{◌≡◌, ℕ, ◌+◌, ◌/◌, ◌%◌, ◌<◌, Bool, not, ◌&&◌, if◌then◌else◌, ◌==◌, nat_eq, nat_lt, position};
ghost use Rattle.bits.specs.Bits.{bit};
ghost use Rattle.sets.specs.Sets.{member, node_count, IsSetOf, BecomesSetOf, IsWordOf};
ghost use Rattle.sets.specs.Stepping.{TurnsWords};

use crate::ix_set::IxSet;

// The word whose lowest `k` bits are set.
fn low_bits(k: usize) -> u64
    ensures { (j : ℕ) → j < 64 → bit result j ≡ nat_lt j k }
{
    if k >= 64 { u64::MAX } else { (1 << k) - 1 }
}

// The place of the first word that is not 0.
pub(crate) fn first_nonzero(words: &[u64]) -> Option<usize>
    ensures { result ≡ position (λ word. not (word == 0)) words.now }
{
    words.iter().position(|word| *word != 0)
}

impl<S> IxSet<S> {
    // How many words the set has.
    pub fn word_count(&self) -> usize
        ensures { result ≡ (node_count self.now + 63) / 64 }
    {
        self.words.len() // the last may have fewer than 64 nodes
    }

    // The members 64 * i to 64 * i + 63 as a word, the lowest in bit 0; 0 past the last word.
    pub fn word(&self, i: usize) -> u64
        ensures { IsWordOf (member self.now) i result }
    {
        self.words.get(i).copied().unwrap_or(0)
    }

    // Makes just those of the nodes 64 * i to 64 * i + 63 members whose bits are set in w. Bits beyond the last node are
    // not looked at.
    pub fn put_word(&mut self, i: usize, w: u64)
        ensures { let members = λ (n : ℕ). if nat_eq (n / 64) i then bit w (n % 64) && nat_lt n (node_count self.old) else member self.old n in
            IsSetOf members (node_count self.old) self.new }
    {
        if i >= self.words.len() {
            return;
        }
        let old = self.words[i];
        let new = w & low_bits(self.nodes as usize - i * 64);
        self.words[i] = new;
        self.count = self.count - old.count_ones() + new.count_ones();
    }

    // Each word becomes what `f` makes of its place and itself, cut to the nodes. Where f makes, of the words of the members,
    // those of the numbers that pass some test, the nodes that pass it are then the members.
    pub(crate) fn change_words<F: Fn(usize, u64) -> u64>(&mut self, f: F)
        requires { F.IsAlwaysCallable f }
        ensures { (p : ℕ → Bool) → TurnsWords (F.post f) (member self.old) p → BecomesSetOf p self.old self.new }
    {
        let nodes = self.nodes as usize;
        let mut count = 0;
        for (i, word) in self.words.iter_mut().enumerate() {
            *word = f(i, *word) & low_bits(nodes - i * 64);
            count += word.count_ones();
        }
        self.count = count;
    }
}
