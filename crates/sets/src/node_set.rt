// An index set is a set of nodes that a graph can be cut down to.
ghost use Rattle.std.specs.Prelude.{◌≡◌};
ghost use Rattle.sets.specs.Sets.{member};

use crate::ix_set::IxSet;
use graph::views::NodeSet;
use index::spec::GraphSpec;

impl<S: GraphSpec> NodeSet for IxSet<S> {
    type Ix = S::Ix;

    ghost has = { member };

    fn contains(&self, n: S::Ix) -> bool {
        IxSet::contains(self, n)
    }
}
