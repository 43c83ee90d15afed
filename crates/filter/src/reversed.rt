// A filter with every edge turned round, for walks over a reversed graph.
ghost use Rattle.std.specs.Prelude.{◌≡◌, map};
ghost use Rattle.theory.specs.Edges.{turn as swapped};
ghost use Rattle.graph.specs.Meaning.{turned_ref};
ghost use Rattle.filter.specs.Filters.{turned_rule};
ghost use Rattle.filter.specs.Turning.{turned_fair};

use crate::buffered::{BufferedEdgeFilter, Held};
use graph::edge::{EdgeRef, turned};
use index::spec::IndexType;

// What the filter inside says of an edge, this one says of that edge with its ends swapped. Held edges lie in the table as
// the filter inside knows them.
#[derive(Drop)]
pub struct ReversedBufferedFilter<F>(pub F);

// Turns each edge round.
fn turn<I: Copy, W: Copy>(edges: &mut [EdgeRef<I, W>])
    ensures { edges.new ≡ map turned_ref edges.old }
{
    for edge in edges.iter_mut() {
        *edge = turned(*edge);
    }
}

impl<F: BufferedEdgeFilter> BufferedEdgeFilter for ReversedBufferedFilter<F> {
    type Ix = F::Ix;

    type Weight = F::Weight;

    ghost rule = { λ s. turned_rule (F.BufferedEdgeFilter.rule s.0) };

    ghost told = { λ s. F.BufferedEdgeFilter.told s.0 };

    ghost held = { λ s hold. map swapped (F.BufferedEdgeFilter.held s.0 hold) };

    ghost used = { λ s. F.BufferedEdgeFilter.used s.0 };

    ghost fit = { λ s. F.BufferedEdgeFilter.fit s.0 };

    ghost fair = { λ s. turned_fair (F.BufferedEdgeFilter.rule s.0) (F.BufferedEdgeFilter.fair s.0) };

    fn begin(&mut self) {
        self.0.begin();
    }

    fn filter(
        &mut self,
        edge: &EdgeRef<F::Ix, F::Weight>,
        hold: &mut [Held<EdgeRef<F::Ix, F::Weight>>],
    ) -> bool {
        self.0.filter(&turned(*edge), hold)
    }

    fn discover(
        &mut self,
        node: F::Ix,
        hold: &mut [Held<EdgeRef<F::Ix, F::Weight>>],
        hand: &mut [EdgeRef<F::Ix, F::Weight>],
    ) -> usize {
        let count = self.0.discover(node, hold, hand);
        turn(&mut hand[..count]);
        count
    }
}
