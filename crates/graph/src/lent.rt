// A graph and a set that are lent are a graph and a set of the same meaning.
ghost use Rattle.std.specs.Prelude.{◌≡◌};

use crate::edge::EdgeRef;
use crate::graph::{BothWays, Graph};
use crate::views::NodeSet;
use index::spec::IndexType;

impl<G: Graph> Graph for &G {
    type Ix = G::Ix;

    type Weight = G::Weight;

    type Cursor = G::Cursor;

    ghost node = { λ g. G.Graph.node g.now };

    ghost bound = { λ g. G.Graph.bound g.now };

    ghost edges = { λ g. G.Graph.edges g.now };

    ghost outs = { λ g. G.Graph.outs g.now };

    ghost rest = { λ g. G.Graph.rest g.now };

    ghost sound = { λ g. G.Graph.sound g.now };

    fn node_bound(&self) -> u32 {
        (**self).node_bound()
    }

    fn edge_bound(&self) -> u32 {
        (**self).edge_bound()
    }

    fn has_node(&self, n: G::Ix) -> bool {
        (**self).has_node(n)
    }

    fn outgoing(&self, n: G::Ix) -> G::Cursor {
        (**self).outgoing(n)
    }

    fn next(&self, c: &mut G::Cursor) -> Option<EdgeRef<G::Ix, G::Weight>> {
        (**self).next(c)
    }
}

impl<G: BothWays> BothWays for &G {
    ghost ins = { λ g. G.BothWays.ins g.now };

    ghost tied = { λ g. G.BothWays.tied g.now };

    fn incoming(&self, n: G::Ix) -> G::Cursor {
        (**self).incoming(n)
    }
}

impl<S: NodeSet> NodeSet for &S {
    type Ix = S::Ix;

    ghost has = { λ s. S.NodeSet.has s.now };

    fn contains(&self, n: S::Ix) -> bool {
        (**self).contains(n)
    }
}
