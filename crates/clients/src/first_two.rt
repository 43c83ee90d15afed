// A function over any graph, proved against the meaning of the trait only.
ghost use Rattle.std.specs.Prelude.{◌≡◌};
ghost use Rattle.clients.specs.Firsts.{first_two};

use graph::edges::Edges;
use graph::graph::Graph;

// The numbers of the first two edges that leave n.
pub fn first_two<G: Graph>(graph: &G, n: G::Ix) -> (Option<u32>, Option<u32>)
    ensures { result ≡ first_two (G.outs graph.now (G.Ix.IndexType.number n)) }
{
    let mut numbers = Edges::outgoing(graph, n).map(|edge| edge.number);
    (numbers.next(), numbers.next())
}
