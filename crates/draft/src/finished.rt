// The finished graph: what a draft becomes. It takes no more edges, and is walked both ways.
ghost use Rattle.std.specs.Prelude.{◌≡◌, ◌≤◌, ℕ, length, filter, nat_lt};
ghost use Rattle.std.specs.Option.{option_map};
ghost use Rattle.std.specs.List.{slice_get};
ghost use Rattle.theory.specs.Edges.{leaves, enters};
ghost use Rattle.theory.specs.Limits.{weak_limit};
ghost use Rattle.weak.specs.Registered.{KnownOnce};
ghost use Rattle.draft.specs.State.{edges_of};
ghost use Rattle.draft.specs.Walked.{rest_of};
ghost use Rattle.tables.specs.Table.{Kept, touching};
ghost use Rattle.tables.proofs.Laying.{kept_prop};
ghost use Rattle.tables.proofs.Reading.{table_sound, table_tied};

use crate::draft::Draft;
use crate::raw::{head_place, linked_edge};
use graph::edge::EdgeRef;
use graph::graph::{BothWays, Graph};
use index::direction::DependencyDirection;
use index::records::{EdgeRecord, WeakIndex};
use index::spec::{GraphSpec, IndexType};
use weak::table::WeakDependencies;

// A graph over a caller's table, which nobody writes any more: a draft that takes no more edges. Its lists have the
// latest edge first. What the table keeps to stands in the value, since the laws of graphs hold of each value.
#[derive(Drop)]
pub struct FinishedGraph<'a, S> {
    draft: Draft<'a, S>,
    ghost kept: { Kept draft.words draft.nodes draft.edges } by { kept_prop },
}

// Where a walk along a list stands: the next edge of a chain of outgoing or of incoming edges, if there is one.
#[derive(Clone, Copy, PartialEq, Eq, Debug)]
pub struct EdgeCursor {
    direction: DependencyDirection,
    next: Option<u32>,
}

impl<'a, S: GraphSpec> Draft<'a, S> {
    // The graph with the draft's nodes, edges and pairs. The draft is used up.
    pub fn finish(self) -> FinishedGraph<'a, S>
        ensures { result.draft ≡ self.entry }
    {
        let _ = &self.nodes; // what the draft keeps to goes on
        FinishedGraph { draft: self }
    }
}

impl<'a, S: GraphSpec> FinishedGraph<'a, S> {
    // The weak pairs of the graph, as its draft registered them.
    pub fn weak(&self) -> &WeakDependencies
        ensures { result.now ≡ self.now.draft.pairs }
    {
        &self.draft.weak
    }

    // How many weak indexes are registered: no package edge has two.
    pub fn weak_count(&self) -> u32
        ensures count { result ≡ length self.now.draft.pairs }
        ensures few { result ≤ weak_limit }
        ensures known_once { KnownOnce self.now.draft.pairs }
    {
        self.weak().len()
    }

    // The node that releases a weak index, if it is registered.
    pub fn release_node(&self, index: WeakIndex) -> Option<S::Ix>
        ensures { option_map S.Ix.IndexType.number result ≡ option_map (λ p. p.release) (slice_get self.now.draft.pairs index.0) }
    {
        let node = self.weak().release_node(index)?;
        Some(S::Ix::new(node))
    }

    // The list of n in a direction, from its first edge; of an index that is no node, the empty list.
    fn chain(&self, direction: DependencyDirection, n: S::Ix) -> EdgeCursor
        ensures { rest_of S.Edge.EdgeRecord.held self.now.draft result ≡ filter (touching direction (S.Ix.IndexType.number n)) (edges_of S.Edge.EdgeRecord.held self.now.draft) }
    {
        let n = n.index();
        let next = if n < self.draft.nodes {
            linked_edge(self.draft.words[head_place(direction, n)])
        } else {
            None
        };
        EdgeCursor { direction, next }
    }
}

impl<'a, S: GraphSpec> Graph for FinishedGraph<'a, S> {
    type Ix = S::Ix;

    type Weight = S::Edge;

    type Cursor = EdgeCursor;

    ghost node = { λ g n. nat_lt n g.draft.nodes };

    ghost bound = { λ g. g.draft.nodes };

    ghost edges = { λ g. g.draft.edges };

    ghost outs = { λ g n. filter (leaves n) (edges_of S.Edge.EdgeRecord.held g.draft) };

    ghost rest = { λ g c. rest_of S.Edge.EdgeRecord.held g.draft c };

    // The edges of a table with chains are those of a graph.
    ghost sound = { λ g. table_sound S.Edge.EdgeRecord.held g.draft.words g.draft.nodes g.draft.edges g.kept };

    fn node_bound(&self) -> u32 {
        self.draft.nodes // every index below is a node
    }

    fn edge_bound(&self) -> u32 {
        self.draft.edges // every number below is an edge's
    }

    fn has_node(&self, n: S::Ix) -> bool {
        n.index() < self.draft.nodes
    }

    fn outgoing(&self, n: S::Ix) -> EdgeCursor {
        self.chain(DependencyDirection::Forward, n)
    }

    fn next(&self, c: &mut EdgeCursor) -> Option<EdgeRef<S::Ix, S::Edge>> {
        let number = c.next?;
        if number >= self.draft.edges {
            return None;
        }
        let at = 2 * self.draft.nodes as usize + 8 * number as usize;
        let words = &self.draft.words[at..at + 8];
        c.next = linked_edge(match c.direction {
            DependencyDirection::Forward => words[2],
            DependencyDirection::Reverse => words[3],
        });
        Some(EdgeRef {
            source: S::Ix::new(words[0]),
            target: S::Ix::new(words[1]),
            number,
            weight: S::Edge::decode([words[4], words[5], words[6], words[7]]), // `try_from` of a slice would need an unwrap
        })
    }
}

impl<'a, S: GraphSpec> BothWays for FinishedGraph<'a, S> {
    ghost ins = { λ g n. filter (enters n) (edges_of S.Edge.EdgeRecord.held g.draft) };

    // Both kinds of list are filters of one list of edges.
    ghost tied = { λ g. table_tied S.Edge.EdgeRecord.held g.draft.words g.draft.nodes g.draft.edges g.kept };

    fn incoming(&self, n: S::Ix) -> EdgeCursor {
        self.chain(DependencyDirection::Reverse, n)
    }
}
