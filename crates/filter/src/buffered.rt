// A buffered filter: asked about an edge it hands the edge out, now or later, or never. An edge that waits on a node is held
// back until that node is told, which is when the walk first visits it.
ghost use Rattle.std.specs.Prelude.{◌≡◌, ℕ, ◌+◌, ◌<◌, ◌≤◌, Bool, List, [], map, length, take};
ghost use Rattle.theory.specs.Edges.{Edge};
ghost use Rattle.theory.specs.Rules.{Rule, Fair, hands, holds};
ghost use Rattle.graph.specs.Meaning.{meant};
ghost use Rattle.graph.specs.declared.edge.EdgeRef.{EdgeRef as AnyRef};
ghost use Rattle.filter.specs.declared.buffered.Held.{Held as AnyHeld};
ghost use Rattle.filter.specs.Filters.{Untold, Discovers};

use graph::edge::EdgeRef;
use index::spec::IndexType;

// An entry of a hold table: an edge, and the place of the entry that the filter links it with, if any.
#[derive(Clone, Copy, PartialEq, Eq, Debug)]
pub struct Held<E> {
    pub edge: E,
    pub next: Option<usize>,
}

// Its meaning has a fixed part, the rule: which edges pass, which node an edge waits on, and in what order held edges go
// out. The moving part is the set of the waited-on nodes told since `begin` and the list of the edges held since, in the
// order in which they came. Held edges lie in a table that the caller lends, the same to all calls since `begin`.
// Walks alone make these calls, and ask about each edge at most once after `begin`: so a hold table and a hand-out table
// with an entry for each edge of the graph have room enough. Both are slices that the caller lends to each call, since no
// call may want for memory.
// That the rule stays is a clause of each call: a law speaks of one value, and this is about two.
pub trait BufferedEdgeFilter {
    type Ix: IndexType;

    type Weight: Copy;

    ghost rule: { Self → Rule (Edge Self.Weight) };

    ghost told: { Self → ℕ → Bool };

    ghost held: { Self → List (AnyHeld (AnyRef Self.Ix Self.Weight)) → List (Edge Self.Weight) };

    // So many entries of the hold table may be in use.
    ghost used: { Self → ℕ };

    // The filter and the hold table fit together.
    ghost fit: { Self → List (AnyHeld (AnyRef Self.Ix Self.Weight)) → Type 0 };

    // Nothing is told, nothing is held.
    fn begin(&mut self)
        ensures same { rule self.new ≡ rule self.old }
        ensures untold { Untold (rule self.old) (told self.new) }
        ensures empty { (hold : List (AnyHeld (AnyRef Self.Ix Self.Weight))) → held self.new hold ≡ [] }
        ensures unused { used self.new ≡ 0 }
        ensures fit { (hold : List (AnyHeld (AnyRef Self.Ix Self.Weight))) → fit self.new hold };

    // Whether the edge is handed out. It is held if it waits on a node not yet told.
    fn filter(
        &mut self,
        edge: &EdgeRef<Self::Ix, Self::Weight>,
        hold: &mut [Held<EdgeRef<Self::Ix, Self::Weight>>],
    ) -> bool
        requires fit { fit self.old hold.old }
        requires room { used self.old < length hold.old }
        ensures fit { fit self.new hold.new }
        ensures used { used self.new ≤ used self.old + 1 }
        ensures same { rule self.new ≡ rule self.old }
        ensures told { told self.new ≡ told self.old }
        ensures answer { result ≡ hands (rule self.old) (told self.old) (meant Self.Ix.IndexType.number edge.now) }
        ensures held { held self.new hold.new ≡ holds (rule self.old) (told self.old) (held self.old hold.old) (meant Self.Ix.IndexType.number edge.now) };

    // Tells a node. The held edges that wait on it are written to the front of the hand-out table, and are held no more;
    // answers how many they are.
    fn discover(
        &mut self,
        node: Self::Ix,
        hold: &mut [Held<EdgeRef<Self::Ix, Self::Weight>>],
        hand: &mut [EdgeRef<Self::Ix, Self::Weight>],
    ) -> usize
        requires fit { fit self.old hold.old }
        requires room { used self.old ≤ length hand.old }
        ensures fit { fit self.new hold.new }
        ensures used { used self.new ≤ used self.old }
        ensures same { rule self.new ≡ rule self.old }
        ensures within { result ≤ length hand.old }
        ensures discovers { Discovers (rule self.old) (Self.Ix.IndexType.number node) (told self.old) (told self.new) (held self.old hold.old) (held self.new hold.new) (map (meant Self.Ix.IndexType.number) (take result hand.new)) };

    // What every rule keeps to.
    ghost fair: { (s : Self) → Fair (rule s) };
}
