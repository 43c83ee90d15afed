// Sets made: empty, of given indexes, and as copies. A set that is not made is told why.
ghost use Rattle.std.specs.Prelude.{◌≡◌, false, map, IfOk};
ghost use Rattle.sets.specs.declared.make.Unmade.TheVariants.{Refused, NoMemory};
ghost use Rattle.sets.specs.Sets.{member, node_count, IsSetOf};
ghost use Rattle.sets.specs.Making.{beyond, MakesOf};

use crate::ix_set::IxSet;
use index::refusal::{Layer, Refusal};
use index::spec::{GraphSpec, IndexType};
use std::alloc::{AllocError, Global};

// Why no set was made: an index was refused, or there was no memory for its words.
#[derive(Clone, Copy, PartialEq, Eq, Debug)]
pub enum Unmade {
    Refused(Refusal),
    NoMemory,
}

impl From<Refusal> for Unmade {
    ghost from_gives = { λ refusal e. e ≡ Refused refusal };

    fn from(refusal: Refusal) -> Unmade {
        Unmade::Refused(refusal)
    }
}

impl From<AllocError> for Unmade {
    ghost from_gives = { λ _ e. e ≡ NoMemory };

    fn from(_wanting: AllocError) -> Unmade {
        Unmade::NoMemory
    }
}

// The place of the first index that is no node of a graph of so many.
fn first_beyond<I: IndexType>(ixs: &[I], nodes: u32) -> Option<usize>
    ensures { result ≡ beyond nodes (map I.IndexType.number ixs.now) }
{
    ixs.iter().map(|ix| ix.index()).position(|n| n >= nodes)
}

impl<S: GraphSpec> IxSet<S> {
    // No member, in a graph of so many nodes.
    pub fn empty(heap: Global, spec: S, nodes: u32) -> Result<IxSet<S>, AllocError>
        ensures { IfOk result (IsSetOf (λ _. false) nodes) }
    {
        let words = vec![in heap; 0u64; (nodes as usize + 63) / 64]?;
        Ok(IxSet {
            words,
            nodes,
            count: 0,
            spec,
        })
    }

    // The given nodes; one given twice counts once. An index that is no node is refused before anything is made.
    pub fn from_ixs(heap: Global, spec: S, nodes: u32, ixs: &[S::Ix]) -> Result<IxSet<S>, Unmade>
        ensures { MakesOf nodes (map S.Ix.IndexType.number ixs.now) result }
    {
        if let Some(place) = first_beyond(ixs, nodes) {
            let layer = Layer::Rack;
            return Err(Refusal::NoSuchNode { layer, place }.into());
        }
        let mut set = IxSet::empty(heap, spec, nodes)?;
        for ix in ixs {
            set.insert(*ix);
        }
        Ok(set)
    }
}

// A set of its own with the same members. By hand: no derive clones a struct that has ghost fields.
impl<S: GraphSpec> Clone for IxSet<S> {
    ghost is_clone = { λ s t. IsSetOf (member s) (node_count s) t };

    fn clone(&self) -> Result<IxSet<S>, AllocError> {
        let words = self.words.clone()?;
        Ok(IxSet {
            words,
            nodes: self.nodes,
            count: self.count,
            spec: self.spec,
        })
    }
}
