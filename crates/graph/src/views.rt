// Views of a graph: turned round, and cut down to a set of nodes.
ghost use Rattle.std.specs.Prelude.{◌≡◌, ℕ, Bool, ◌&&◌, List, map, filter};
ghost use Rattle.theory.specs.Edges.{turn, within};
ghost use Rattle.theory.proofs.Turning.{turned_sound, turned_tied, filtered_sound, filtered_tied};

use crate::edge::{EdgeRef, turned};
use crate::graph::{BothWays, Graph};
use index::spec::IndexType;

// A set of nodes.
pub trait NodeSet {
    type Ix: IndexType;

    ghost has: { Self → ℕ → Bool };

    fn contains(&self, n: Self::Ix) -> bool
        ensures { result ≡ has self.now (Self.Ix.IndexType.number n) };
}

// A graph with every edge turned round, and the incoming lists in place of the outgoing ones.
#[derive(Clone, Copy, PartialEq, Eq, Debug)]
pub struct Reversed<G>(pub G);

impl<G: BothWays> Graph for Reversed<G> {
    type Ix = G::Ix;

    type Weight = G::Weight;

    type Cursor = G::Cursor;

    ghost node = { λ g. G.Graph.node g.0 };

    ghost bound = { λ g. G.Graph.bound g.0 };

    ghost edges = { λ g. G.Graph.edges g.0 };

    ghost outs = { λ g n. map turn (G.BothWays.ins g.0 n) };

    ghost rest = { λ g c. map turn (G.Graph.rest g.0 c) };

    // The incoming lists are the ones walked.
    ghost sound = { λ g. turned_sound (G.Graph.sound g.0) (G.BothWays.tied g.0) };

    fn node_bound(&self) -> u32 {
        self.0.node_bound()
    }

    fn edge_bound(&self) -> u32 {
        self.0.edge_bound()
    }

    fn has_node(&self, n: G::Ix) -> bool {
        self.0.has_node(n)
    }

    fn outgoing(&self, n: G::Ix) -> G::Cursor {
        self.0.incoming(n)
    }

    fn next(&self, c: &mut G::Cursor) -> Option<EdgeRef<G::Ix, G::Weight>> {
        self.0.next(c).map(turned)
    }
}

impl<G: BothWays> BothWays for Reversed<G> {
    ghost ins = { λ g n. map turn (G.Graph.outs g.0 n) };

    ghost tied = { λ g. turned_tied (G.Graph.sound g.0) (G.BothWays.tied g.0) };

    fn incoming(&self, n: G::Ix) -> G::Cursor {
        self.0.outgoing(n)
    }
}

// The nodes of a graph that are in a set, and the edges between them, in the graph's order.
#[derive(Clone, Copy, PartialEq, Eq, Debug)]
pub struct NodeFiltered<G, S> {
    pub graph: G,
    pub set: S,
}

impl<G: Graph, S: NodeSet<Ix = G::Ix>> Graph for NodeFiltered<G, S> {
    type Ix = G::Ix;

    type Weight = G::Weight;

    type Cursor = G::Cursor;

    ghost node = { λ g n. G.Graph.node g.graph n && S.NodeSet.has g.set n };

    ghost bound = { λ g. G.Graph.bound g.graph };

    ghost edges = { λ g. G.Graph.edges g.graph };

    ghost outs = { λ g n. filter (within (S.NodeSet.has g.set)) (G.Graph.outs g.graph n) };

    ghost rest = { λ g c. filter (within (S.NodeSet.has g.set)) (G.Graph.rest g.graph c) };

    // A part of a graph keeps to what the graph keeps to.
    ghost sound = { λ g. filtered_sound (S.NodeSet.has g.set) (G.Graph.sound g.graph) };

    fn node_bound(&self) -> u32 {
        self.graph.node_bound()
    }

    fn edge_bound(&self) -> u32 {
        self.graph.edge_bound()
    }

    fn has_node(&self, n: G::Ix) -> bool {
        self.graph.has_node(n) && self.set.contains(n)
    }

    fn outgoing(&self, n: G::Ix) -> G::Cursor {
        self.graph.outgoing(n)
    }

    // Both ends are asked at each edge, so that the cursor of the graph below serves, and a node outside has no edge.
    fn next(&self, c: &mut G::Cursor) -> Option<EdgeRef<G::Ix, G::Weight>> {
        // By hand: `find` of `Edges` would copy the cursor in and out again.
        while let Some(edge) = self.graph.next(c) {
            if self.set.contains(edge.source) && self.set.contains(edge.target) {
                return Some(edge);
            }
        }
        None
    }
}

impl<G: BothWays, S: NodeSet<Ix = G::Ix>> BothWays for NodeFiltered<G, S> {
    ghost ins = { λ g n. filter (within (S.NodeSet.has g.set)) (G.BothWays.ins g.graph n) };

    ghost tied = { λ g. filtered_tied (S.NodeSet.has g.set) (G.BothWays.tied g.graph) };

    fn incoming(&self, n: G::Ix) -> G::Cursor {
        self.graph.incoming(n)
    }
}
