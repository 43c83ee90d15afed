// A filter that holds nothing: it asks a test about each edge. Two tests: a verdict on package edges, and one that every edge
// passes, which is a filter too.
ghost use Rattle.std.specs.Prelude.{◌≡◌, Bool, true, false, [], None as Nothing};
ghost use Rattle.theory.specs.Edges.{Edge};
ghost use Rattle.theory.specs.Rules.{every};
ghost use Rattle.theory.proofs.Asking.{in_turn_fair};
ghost use Rattle.graph.specs.Meaning.{meant};
ghost use Rattle.filter.specs.Filters.{by_link, by_test};

use crate::buffered::{BufferedEdgeFilter, Held};
use graph::edge::EdgeRef;
use index::links::package_edge_to_link;
use index::records::PackageLink;
use index::spec::{IndexType, PackageIx};
use std::marker::PhantomData;
use verdict::verdict::Verdict;

// Its meaning is a set of edges, and its answer says whether an edge is in the set.
pub trait EdgeTest {
    type Ix: IndexType;

    type Weight: Copy;

    ghost passes: { Self → Edge Self.Weight → Bool };

    fn pass(&mut self, edge: &EdgeRef<Self::Ix, Self::Weight>) -> bool
        ensures answer { result ≡ passes self.old (meant Self.Ix.IndexType.number edge.now) }
        ensures same { passes self.new ≡ passes self.old };
}

// A package edge passes if the verdict accepts its link.
impl<V: Verdict> EdgeTest for V {
    type Ix = PackageIx;

    type Weight = PackageLink;

    ghost passes = { λ v. by_link (V.Verdict.accepts v) };

    fn pass(&mut self, edge: &EdgeRef<PackageIx, PackageLink>) -> bool {
        self.accept(package_edge_to_link(edge.number, edge.weight))
    }
}

// Every edge passes, of whatever kind of graph.
#[derive(Drop)]
pub struct EveryEdge<I, W>(pub PhantomData<(I, W)>);

impl<I: IndexType, W: Copy> EdgeTest for EveryEdge<I, W> {
    type Ix = I;

    type Weight = W;

    ghost passes = { λ _ _. true };

    fn pass(&mut self, edge: &EdgeRef<I, W>) -> bool {
        true // whatever the edge
    }
}

// It is a filter by itself too, so that it goes where a filter is wanted without one around it. None waits.
impl<I: IndexType, W: Copy> BufferedEdgeFilter for EveryEdge<I, W> {
    type Ix = I;

    type Weight = W;

    ghost rule = { λ _. every };

    ghost told = { λ _ _. false };

    ghost held = { λ _ _. [] };

    ghost used = { λ _. 0 };

    ghost fit = { λ _ _. Unit {0} };

    ghost fair = { λ _. in_turn_fair (λ _. true) (λ _. Nothing) };

    fn begin(&mut self) {}

    fn filter(&mut self, edge: &EdgeRef<I, W>, hold: &mut [Held<EdgeRef<I, W>>]) -> bool {
        true // of any edge
    }

    fn discover(
        &mut self,
        node: I,
        hold: &mut [Held<EdgeRef<I, W>>],
        hand: &mut [EdgeRef<I, W>],
    ) -> usize {
        0 // and nothing waits
    }
}

// An edge is handed out if it passes the test, and none waits.
#[derive(Drop)]
pub struct SimpleEdgeFilterFn<T>(pub T);

impl<T: EdgeTest> BufferedEdgeFilter for SimpleEdgeFilterFn<T> {
    type Ix = T::Ix;

    type Weight = T::Weight;

    ghost rule = { λ s. by_test (T.EdgeTest.passes s.0) };

    ghost told = { λ _ _. false };

    ghost held = { λ _ _. [] };

    ghost used = { λ _. 0 };

    ghost fit = { λ _ _. Unit {0} };

    ghost fair = { λ s. in_turn_fair (T.EdgeTest.passes s.0) (λ _. Nothing) };

    fn begin(&mut self) {}

    fn filter(
        &mut self,
        edge: &EdgeRef<T::Ix, T::Weight>,
        hold: &mut [Held<EdgeRef<T::Ix, T::Weight>>],
    ) -> bool {
        self.0.pass(edge)
    }

    fn discover(
        &mut self,
        node: T::Ix,
        hold: &mut [Held<EdgeRef<T::Ix, T::Weight>>],
        hand: &mut [EdgeRef<T::Ix, T::Weight>],
    ) -> usize {
        0 // nothing was held
    }
}
