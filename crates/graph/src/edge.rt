// An edge as a graph answers it.
ghost use Rattle.std.specs.Prelude.{◌≡◌};
ghost use Rattle.graph.specs.Meaning.{turned_ref};

// The number is one that no other edge of the graph has. The weight is the edge's record.
#[derive(Clone, Copy, PartialEq, Eq, Debug)]
pub struct EdgeRef<I, W> {
    pub source: I,
    pub target: I,
    pub number: u32,
    pub weight: W,
}

// Where the edge comes from, where it goes, and its number. The original's name: no `From` may be written for a tuple.
pub fn edge_triple<I: Copy, W: Copy>(edge: EdgeRef<I, W>) -> (I, I, u32)
    ensures { (result.0 ≡ edge.source) × (result.1 ≡ edge.target) × (result.2 ≡ edge.number) }
{
    (edge.source, edge.target, edge.number)
}

// The edge with its ends swapped.
pub fn turned<I, W>(edge: EdgeRef<I, W>) -> EdgeRef<I, W>
    ensures { result ≡ turned_ref edge }
{
    let EdgeRef {
        source,
        target,
        number,
        weight,
    } = edge;
    EdgeRef {
        source: target,
        target: source,
        number,
        weight,
    }
}
