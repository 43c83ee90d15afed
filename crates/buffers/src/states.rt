// The state of a weak index, what can happen to it, and what it makes of that.
use graph::edge::EdgeRef;
use index::records::FeatureEdge;
use index::spec::FeatureIx;

// The edges that lie in the hold table for an index are linked, from the first to the last: their places. (Places and not
// boxes, since no call may want for memory.)
#[derive(Clone, Copy, PartialEq, Eq, Debug)]
pub struct Chain {
    pub first: usize,
    pub last: usize,
}

// Buffered: the release node was not told, and edges wait for the index, if any. Released: it was told.
#[derive(Clone, Copy, PartialEq, Eq, Debug)]
pub enum SingleBufferState {
    Buffered(Option<Chain>),
    Released,
}

// An edge with the index arrives, or the release node of the index is told. One type for both, since the project wants one
// match on the state and the event together.
#[derive(Clone, Copy, PartialEq, Eq, Debug)]
pub enum Event {
    Arrives(EdgeRef<FeatureIx, FeatureEdge>),
    Told,
}

// The edge is held; or its optional link is to be judged, as the release node was told before; or the edges from this place
// on go out; or nothing does.
#[derive(Clone, Copy, PartialEq, Eq, Debug)]
pub enum Outcome {
    Holds,
    Judges,
    Frees(usize),
    Nothing,
}
