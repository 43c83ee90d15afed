// A set asked about a node, and changed by one node or all.
ghost use Rattle.std.specs.Prelude.{◌≡◌, ℕ, true, false, not, ◌&&◌, ◌||◌, length, ◌==◌, nat_lt};
ghost use Rattle.sets.specs.Sets.{member, members as members_of, node_count, IsSetOf, BecomesSetOf};

use crate::ix_set::IxSet;
use index::spec::{GraphSpec, IndexType};

impl<S: GraphSpec> IxSet<S> {
    // How many nodes the graph has: members lie below.
    pub fn node_count(&self) -> u32
        ensures { result ≡ node_count self.now }
    {
        self.nodes // not the number of members
    }

    // How many members there are.
    pub fn len(&self) -> u32
        ensures { result ≡ length (members_of self.now) }
    {
        self.count // renewed with every change of a word
    }

    pub fn is_empty(&self) -> bool
        ensures { result ≡ (length (members_of self.now) == 0) }
    {
        self.count == 0
    }

    // Whether the node is a member; an index beyond the graph is none.
    pub fn contains(&self, ix: S::Ix) -> bool
        ensures { result ≡ member self.now (S.Ix.IndexType.number ix) }
    {
        let n = ix.index();
        self.word(n as usize / 64) >> (n % 64) & 1 == 1
    }

    // Makes a node a member, and says whether it is one that was none before. An index beyond the graph changes nothing.
    pub fn insert(&mut self, ix: S::Ix) -> bool
        ensures new { let number = S.Ix.IndexType.number ix in
            result ≡ (nat_lt number (node_count self.old) && not (member self.old number)) }
        ensures set { let number = S.Ix.IndexType.number ix in
            let members = λ (n : ℕ). member self.old n || (n == number && nat_lt number (node_count self.old)) in
            IsSetOf members (node_count self.old) self.new }
    {
        let n = ix.index();
        if n >= self.nodes || self.contains(ix) {
            return false;
        }
        self.words[n as usize / 64] |= 1 << (n % 64);
        self.count += 1;
        true
    }

    // No member.
    pub fn clear(&mut self)
        ensures { BecomesSetOf (λ _. false) self.old self.new }
    {
        self.change_words(|_, _| 0);
    }

    // Every node.
    pub fn fill(&mut self)
        ensures { BecomesSetOf (λ _. true) self.old self.new }
    {
        self.change_words(|_, _| u64::MAX);
    }
}
