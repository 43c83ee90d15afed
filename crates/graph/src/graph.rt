// Graphs walked forward, and graphs walked both ways. What is asked of a graph alters nothing.
ghost use Rattle.std.specs.Prelude.{◌≡◌, ℕ, Bool, List};
ghost use Rattle.std.specs.Option.{option_map};
ghost use Rattle.theory.specs.Edges.{Edge};
ghost use Rattle.theory.specs.Graphs.{Sound, Tied, Steps};
ghost use Rattle.graph.specs.Meaning.{meant};

use crate::edge::EdgeRef;
use index::spec::IndexType;

// A graph walked forward: its meaning is which numbers are nodes and, for each, the list of its outgoing edges.
pub trait Graph {
    type Ix: IndexType;

    type Weight: Copy;

    // Where a walk along a list stands.
    type Cursor: Copy;

    ghost node: { Self → ℕ → Bool };

    // Every node lies below.
    ghost bound: { Self → ℕ };

    // Every edge's number lies below.
    ghost edges: { Self → ℕ };

    ghost outs: { Self → ℕ → List (Edge Self.Weight) };

    // The edges that a cursor has still to give.
    ghost rest: { Self → Self.Cursor → List (Edge Self.Weight) };

    fn node_bound(&self) -> u32
        ensures { result ≡ bound self.now };

    fn edge_bound(&self) -> u32
        ensures { result ≡ edges self.now };

    fn has_node(&self, n: Self::Ix) -> bool
        ensures { result ≡ node self.now (Self.Ix.IndexType.number n) };

    // The outgoing list of n, from its first edge; of an index that is no node, the empty list.
    fn outgoing(&self, n: Self::Ix) -> Self::Cursor
        ensures { rest self.now result ≡ outs self.now (Self.Ix.IndexType.number n) };

    // The next edge of a list.
    fn next(&self, c: &mut Self::Cursor) -> Option<EdgeRef<Self::Ix, Self::Weight>>
        ensures { Steps (rest self.now c.old) (option_map (meant Self.Ix.IndexType.number) result) (rest self.now c.new) };

    // What every graph keeps to.
    ghost sound: { (g : Self) → Sound (node g) (bound g) (edges g) (outs g) };
}

// A graph walked both ways is a graph walked forward that has incoming lists too.
pub trait BothWays: Graph {
    ghost ins: { Self → ℕ → List (Edge Self.Weight) };

    // The incoming list of n, from its first edge.
    fn incoming(&self, n: Self::Ix) -> Self::Cursor
        ensures { Self.Graph.rest self.now result ≡ ins self.now (Self.Ix.IndexType.number n) };

    // What ties the incoming lists to the outgoing ones.
    ghost tied: { (g : Self) → Tied (Self.Graph.outs g) (ins g) };
}
