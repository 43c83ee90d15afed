// The members of a set, ascending. A word that has no member is passed over whole, and the next member of a word is found
// by its trailing zeros.
ghost use Rattle.std.specs.Prelude.{◌≡◌, [], length, MatchOption};
ghost use Rattle.std.specs.Iterator.{YieldsFirstBy, item_count};
ghost use Rattle.bits.specs.Bits.{Lists};
ghost use Rattle.sets.specs.Sets.{member, members as members_of};
ghost use Rattle.sets.specs.Ones.{rest, IsAhead};

use crate::ix_set::IxSet;
use crate::ones::IxOnes;
use crate::words::first_nonzero;
use index::spec::{GraphSpec, IndexType};

impl<S: GraphSpec> IxSet<S> {
    // A cursor that gives every member, ascending, each once.
    pub fn ones(&self) -> IxOnes<'_, S>
        ensures list { rest result ≡ members_of self.now }
        ensures exact { Lists (member self.now) (rest result) }
    {
        IxOnes {
            set: self,
            row: 0,
            bits: self.word(0),
            remaining: self.count,
        }
    }
}

impl<'a, S: GraphSpec> IxOnes<'a, S> {
    // How many members it has still to give.
    pub fn len(&self) -> u32
        ensures { result ≡ length (rest self.now) }
    {
        self.remaining // one less with every member given
    }

    // The word of the next member, and which members of that word are still to give.
    fn ahead(&self) -> Option<(usize, u64)>
        ensures { MatchOption result (rest self.now ≡ []) (λ word. IsAhead self.now word.0 word.1) }
    {
        if self.bits != 0 {
            return Some((self.row, self.bits));
        }
        let next = self.row + 1;
        let words = self.set.words.get(next..)?;
        let empty = first_nonzero(words)?;
        Some((next + empty, words[empty]))
    }
}

impl<'a, S: GraphSpec> Iterator for IxOnes<'a, S> {
    type Item = S::Ix;

    ghost next_gives = { YieldsFirstBy S.Ix.IndexType.number rest };

    ghost remaining = { item_count rest };

    fn next(&mut self) -> Option<S::Ix> {
        let (row, bits) = self.ahead()?;
        let k = bits.trailing_zeros();
        self.row = row;
        self.bits = bits ^ 1 << k;
        self.remaining -= 1;
        Some(S::Ix::new(row as u32 * 64 + k))
    }
}
