// The edges of a list of a graph, as an iterator.
ghost use Rattle.std.specs.Prelude.{◌≡◌, length};
ghost use Rattle.std.specs.Option.{option_map};
ghost use Rattle.std.specs.Iterator.{at_most};
ghost use Rattle.theory.specs.Graphs.{Steps};
ghost use Rattle.graph.specs.Meaning.{meant};

use crate::edge::EdgeRef;
use crate::graph::{BothWays, Graph};
use index::spec::IndexType;

// What a cursor of the graph has still to give.
#[derive(Drop)]
pub struct Edges<'g, G: Graph> {
    pub graph: &'g G,
    pub cursor: G::Cursor,
}

impl<'g, G: Graph> Edges<'g, G> {
    // The edges that leave n; of an index that is no node, none.
    pub fn outgoing(graph: &'g G, n: G::Ix) -> Edges<'g, G>
        ensures graph { result.graph.now ≡ graph.now }
        ensures list { G.Graph.rest graph.now result.cursor ≡ G.Graph.outs graph.now (G.Ix.IndexType.number n) }
    {
        let cursor = graph.outgoing(n);
        Edges { graph, cursor }
    }
}

impl<'g, G: BothWays> Edges<'g, G> {
    // The edges that enter n. Apart from `outgoing`, since a graph that is only walked forward has no incoming lists.
    pub fn incoming(graph: &'g G, n: G::Ix) -> Edges<'g, G>
        ensures graph { result.graph.now ≡ graph.now }
        ensures list { G.Graph.rest graph.now result.cursor ≡ G.BothWays.ins graph.now (G.Ix.IndexType.number n) }
    {
        let cursor = graph.incoming(n);
        Edges { graph, cursor }
    }
}

impl<'g, G: Graph> Iterator for Edges<'g, G> {
    type Item = EdgeRef<G::Ix, G::Weight>;

    ghost next_gives = { λ s r t. (t.graph.now ≡ s.graph.now) × Steps (G.Graph.rest s.graph.now s.cursor) (option_map (meant G.Ix.IndexType.number) r) (G.Graph.rest s.graph.now t.cursor) };

    ghost remaining = { λ s. at_most (length (G.Graph.rest s.graph.now s.cursor)) };

    fn next(&mut self) -> Option<EdgeRef<G::Ix, G::Weight>> {
        self.graph.next(&mut self.cursor)
    }
}
