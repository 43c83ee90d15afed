// Two sets made one, word by word, and two sets compared. A set that is changed stays one of its own graph: members of the
// other beyond that graph are left out.
ghost use Rattle.std.specs.Prelude.{◌≡◌, ◌↔◌, ◌&&◌, ◌||◌, IfOk, IsTrue};
ghost use Rattle.sets.specs.Sets.{member, SameMembers};
ghost use Rattle.sets.specs.Stepping.{PutsIn};
ghost use Rattle.sets.specs.Combining.{Combines, and_not, xor};

use crate::ix_set::IxSet;
use crate::operation::SetOperation;
use index::spec::GraphSpec;
use std::alloc::AllocError;

impl<S: GraphSpec> IxSet<S> {
    pub fn union_with(&mut self, other: &IxSet<S>)
        ensures { Combines ◌||◌ self.old other.now self.new }
    {
        self.change_words(
            |i, word| -> u64
                ensures { PutsIn ◌||◌ (member other.entry.now) i word result }
            { SetOperation::Union.on_words(word, other.word(i)) },
        );
    }

    pub fn intersect_with(&mut self, other: &IxSet<S>)
        ensures { Combines ◌&&◌ self.old other.now self.new }
    {
        self.change_words(
            |i, word| -> u64
                ensures { PutsIn ◌&&◌ (member other.entry.now) i word result }
            { SetOperation::Intersection.on_words(word, other.word(i)) },
        );
    }

    pub fn symmetric_difference_with(&mut self, other: &IxSet<S>)
        ensures { Combines xor self.old other.now self.new }
    {
        self.change_words(
            |i, word| -> u64
                ensures { PutsIn xor (member other.entry.now) i word result }
            { SetOperation::SymmetricDifference.on_words(word, other.word(i)) },
        );
    }

    // The members that the other set lacks, as a set of their own.
    pub fn difference(&self, other: &IxSet<S>) -> Result<IxSet<S>, AllocError>
        ensures { IfOk result (Combines and_not self.now other.now) }
    {
        let mut rest = self.clone()?;
        rest.change_words(
            |i, word| -> u64
                ensures { PutsIn and_not (member other.entry.now) i word result }
            { SetOperation::Difference.on_words(word, other.word(i)) },
        );
        Ok(rest)
    }

    // Whether the two have the same members, whatever their graphs. A derived `==` would ask for the same graphs too.
    pub fn equals(&self, other: &IxSet<S>) -> bool
        ensures { IsTrue result ↔ SameMembers self.now other.now }
    {
        let words = self.word_count().max(other.word_count());
        self.count == other.count && (0..words).all(|i| self.word(i) == other.word(i))
    }
}
