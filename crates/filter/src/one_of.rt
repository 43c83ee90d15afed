// One of two filters, so that code with one type of filter can take turns with both.
ghost use Rattle.either.specs.declared.Either.TheVariants.{Left as LeftOf, Right as RightOf};

use crate::buffered::{BufferedEdgeFilter, Held};
use either::{Either, for_both};
use graph::edge::EdgeRef;
use index::spec::IndexType;

impl<
    A: BufferedEdgeFilter,
    B: BufferedEdgeFilter<Ix = A::Ix, Weight = A::Weight>,
> BufferedEdgeFilter for Either<A, B> {
    type Ix = A::Ix;

    type Weight = A::Weight;

    ghost rule = { λ s. elim s [ LeftOf a ↦ A.BufferedEdgeFilter.rule a | RightOf b ↦ B.BufferedEdgeFilter.rule b ] };

    ghost told = { λ s. elim s [ LeftOf a ↦ A.BufferedEdgeFilter.told a | RightOf b ↦ B.BufferedEdgeFilter.told b ] };

    ghost held = { λ s. elim s [ LeftOf a ↦ A.BufferedEdgeFilter.held a | RightOf b ↦ B.BufferedEdgeFilter.held b ] };

    ghost used = { λ s. elim s [ LeftOf a ↦ A.BufferedEdgeFilter.used a | RightOf b ↦ B.BufferedEdgeFilter.used b ] };

    ghost fit = { λ s. elim s [ LeftOf a ↦ A.BufferedEdgeFilter.fit a | RightOf b ↦ B.BufferedEdgeFilter.fit b ] };

    ghost fair = { elim [ LeftOf a ↦ A.BufferedEdgeFilter.fair a | RightOf b ↦ B.BufferedEdgeFilter.fair b ] };

    fn begin(&mut self) {
        for_both!(self, f => f.begin())
    }

    fn filter(
        &mut self,
        edge: &EdgeRef<A::Ix, A::Weight>,
        hold: &mut [Held<EdgeRef<A::Ix, A::Weight>>],
    ) -> bool {
        for_both!(self, f => f.filter(edge, hold))
    }

    fn discover(
        &mut self,
        node: A::Ix,
        hold: &mut [Held<EdgeRef<A::Ix, A::Weight>>],
        hand: &mut [EdgeRef<A::Ix, A::Weight>],
    ) -> usize {
        for_both!(self, f => f.discover(node, hold, hand))
    }
}
