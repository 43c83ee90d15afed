// What a walk is handed as it begins at a node: the calls of its first visit, over any graph and any filter. That they need
// no more room than an entry for each edge of the graph follows from the contracts.
ghost use Rattle.std.specs.Prelude.{◌≡◌, false, length, if◌then◌else◌, Some as SomeOf, None as NoneOf, filter as kept_by, nat_le};
ghost use Rattle.theory.specs.Rules.{hands};
ghost use Rattle.theory.specs.Walk.{mark};

use filter::buffered::{BufferedEdgeFilter, Held};
use graph::edge::EdgeRef;
use graph::edges::Edges;
use graph::graph::Graph;
use index::spec::IndexType;

// How many edges of a node are handed out at once where the node is the first one told; none where the hold table has less
// than an entry for each edge.
pub fn handed_at_first<G: Graph, F: BufferedEdgeFilter<Ix = G::Ix, Weight = G::Weight>>(
    graph: &G,
    filter: &mut F,
    node: G::Ix,
    hold: &mut [Held<EdgeRef<G::Ix, G::Weight>>],
    hand: &mut [EdgeRef<G::Ix, G::Weight>],
) -> Option<usize>
    ensures same { F.BufferedEdgeFilter.rule filter.new ≡ F.BufferedEdgeFilter.rule filter.old }
    ensures answer { result ≡ (if nat_le (G.Graph.edges graph.now) (length hold.old) then SomeOf (length (kept_by (hands (F.BufferedEdgeFilter.rule filter.old) (mark (λ _. false) (G.Ix.IndexType.number node))) (G.Graph.outs graph.now (G.Ix.IndexType.number node)))) else NoneOf) }
{
    if hold.len() < graph.edge_bound() as usize {
        return None;
    }
    filter.begin();
    let _ = filter.discover(node, hold, hand);
    let mut count = 0; // by hand: what a closure does to the filter that it asks is not known after the iterator's `count`
    for edge in Edges::outgoing(graph, node) {
        if filter.filter(&edge, hold) {
            count += 1;
        }
    }
    Some(count)
}
