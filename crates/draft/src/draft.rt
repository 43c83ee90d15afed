// Drafts: graphs that still take weak pairs and edges.
ghost use Rattle.std.specs.Prelude.{◌≡◌, ℕ, ◌<◌, ◌≤◌, [], length, MatchResult};
ghost use Rattle.index.specs.declared.refusal.Layer.TheVariants.{Graph};
ghost use Rattle.index.specs.declared.refusal.Refusal.TheVariants.{NoSuchNode};
ghost use Rattle.theory.specs.Limits.{weak_limit};
ghost use Rattle.weak.specs.Registered.{KnownOnce};
ghost use Rattle.tables.specs.Table.{Kept};
ghost use Rattle.draft.specs.Drafting.{SetsUp, TakesPair, TakesEdge, unregistered};

use crate::raw::{clear, lay};
use index::limits::{EDGE_LIMIT, NODE_LIMIT};
use index::records::{EdgeRecord, WeakIndex};
use index::refusal::{Layer, Refusal};
use index::spec::{GraphSpec, IndexType};
use std::marker::Model;
use weak::table::WeakDependencies;

// A graph in the making, laid over a caller's table. `finish` makes a graph of it and uses it up.
// Contracts see a draft as its state: the words of the table, how many nodes and edges they hold, and the weak pairs. The
// counts stand beside the words, since the table is the caller's and of any length.
#[derive(Drop)]
pub struct Draft<'a, S> {
    pub(crate) words: &'a mut [u32],
    pub(crate) nodes: u32,
    pub(crate) edges: u32,
    pub(crate) weak: WeakDependencies,
    pub(crate) spec: S,
}

impl<'a, S> Model for Draft<'a, S> {
    ghost use Rattle.tables.specs.Table.{Kept};
    ghost use Rattle.draft.specs.State.{State};

    ghost Value = { State };

    ghost view = { λ d. record { words = d.words.now; nodes = d.nodes; edges = d.edges; pairs = d.weak } };

    ghost invariant = { λ d. Kept d.words.now d.nodes d.edges };
}

impl<'a, S: GraphSpec> Draft<'a, S> {
    // A draft without nodes, which has written nothing into the table.
    pub fn new(words: &'a mut [u32], spec: S) -> Draft<'a, S>
        ensures { result ≡ record { words = words.old; nodes = 0; edges = 0; pairs = [] } }
    {
        Draft {
            words,
            nodes: 0,
            edges: 0,
            weak: WeakDependencies::new(),
            spec,
        }
    }

    // What every draft keeps to: it lies within the limits and its table, its chains are whole, and no package edge is
    // registered twice. The call changes nothing: its promise is for the proof that makes it.
    pub fn kept(&self)
        ensures table { Kept self.now.words self.now.nodes self.now.edges }
        ensures few { length self.now.pairs ≤ weak_limit }
        ensures known_once { KnownOnce self.now.pairs }
    {
        let _ = self.weak.len();
    }

    // So many nodes, and nothing else.
    pub fn set_up(&mut self, nodes: u32) -> Result<(), Refusal>
        ensures { SetsUp self.old nodes result self.new }
    {
        if nodes > NODE_LIMIT {
            return Err(Refusal::TooManyNodes);
        }
        if self.words.len() < 2 * nodes as usize {
            return Err(Refusal::TableTooShort);
        }
        clear(self.words, nodes);
        self.nodes = nodes;
        self.edges = 0;
        self.weak.clear();
        Ok(())
    }

    // Registers a weak pair and answers its weak index: a new one where the package edge is new, else the one it has.
    pub fn add_pair(&mut self, package_edge: u32, release: S::Ix) -> Result<WeakIndex, Refusal>
        ensures { TakesPair self.old (record { package_edge = package_edge; release = S.Ix.IndexType.number release }) result self.new }
    {
        let release = self.node(release, 2)?;
        self.weak.insert(package_edge, release)
    }

    // Adds an edge, and answers its number.
    pub fn add_edge(
        &mut self,
        source: S::Ix,
        target: S::Ix,
        weight: S::Edge,
    ) -> Result<u32, Refusal>
        ensures { TakesEdge S.Edge.EdgeRecord.held (S.Edge.EdgeRecord.weak weight) self.old (S.Ix.IndexType.number source) (S.Ix.IndexType.number target) weight result self.new }
    {
        let from = self.node(source, 0)?;
        let to = self.node(target, 1)?;
        if self.lacks(weight.weak_index()) {
            return Err(Refusal::WeakIndexUnregistered);
        }
        let e = self.edges;
        let room = (self.words.len() - 2 * self.nodes as usize) / 8;
        if e >= EDGE_LIMIT || e as usize >= room {
            return Err(Refusal::EdgesFull);
        }
        lay(self.words, self.nodes, e, from, to, weight.encode());
        self.edges = e + 1;
        Ok(e)
    }

    // Whether a record names a weak index that is not registered.
    fn lacks(&self, named: Option<WeakIndex>) -> bool
        ensures { result ≡ unregistered (length self.now.pairs) named }
    {
        let count = self.weak.len();
        named.is_some_and(|index| index.0 >= count)
    }

    // The number of a node. Of an index that is none it tells the place among those that a call was given.
    fn node(&self, n: S::Ix, place: usize) -> Result<u32, Refusal>
        ensures { MatchResult result (λ k. (k ≡ S.Ix.IndexType.number n) × (k < self.now.nodes)) (λ r. (r ≡ NoSuchNode Graph place) × (self.now.nodes ≤ S.Ix.IndexType.number n)) }
    {
        let n = n.index();
        if n < self.nodes {
            Ok(n)
        } else {
            Err(Refusal::NoSuchNode {
                layer: Layer::Graph,
                place,
            })
        }
    }
}
