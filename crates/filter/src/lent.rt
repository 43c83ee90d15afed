// A filter that is lent is a filter of the same meaning.

use crate::buffered::{BufferedEdgeFilter, Held};
use graph::edge::EdgeRef;
use index::spec::IndexType;

impl<F: BufferedEdgeFilter> BufferedEdgeFilter for &mut F {
    type Ix = F::Ix;

    type Weight = F::Weight;

    ghost rule = { λ s. F.BufferedEdgeFilter.rule s.now };

    ghost told = { λ s. F.BufferedEdgeFilter.told s.now };

    ghost held = { λ s. F.BufferedEdgeFilter.held s.now };

    ghost used = { λ s. F.BufferedEdgeFilter.used s.now };

    ghost fit = { λ s. F.BufferedEdgeFilter.fit s.now };

    ghost fair = { λ s. F.BufferedEdgeFilter.fair s.now };

    fn begin(&mut self) {
        (**self).begin();
    }

    fn filter(
        &mut self,
        edge: &EdgeRef<F::Ix, F::Weight>,
        hold: &mut [Held<EdgeRef<F::Ix, F::Weight>>],
    ) -> bool {
        (**self).filter(edge, hold)
    }

    fn discover(
        &mut self,
        node: F::Ix,
        hold: &mut [Held<EdgeRef<F::Ix, F::Weight>>],
        hand: &mut [EdgeRef<F::Ix, F::Weight>],
    ) -> usize {
        (**self).discover(node, hold, hand)
    }
}
