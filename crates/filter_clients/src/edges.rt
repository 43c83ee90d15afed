// Edges of feature graphs, as a walk gives them.
ghost use Rattle.std.specs.Prelude.{◌≡◌};
ghost use Rattle.index.specs.declared.records.FeatureEdge.TheVariants.{WeakSlash as WeakSlashOf};

use graph::edge::EdgeRef;
use index::records::{FeatureEdge, WeakIndex};
use index::spec::{FeatureIx, IndexType};

pub(crate) fn edge(
    source: u32,
    target: u32,
    number: u32,
    weight: FeatureEdge,
) -> EdgeRef<FeatureIx, FeatureEdge>
    ensures { (result.number ≡ number) × (result.weight ≡ weight) }
{
    EdgeRef {
        source: FeatureIx::new(source),
        target: FeatureIx::new(target),
        number,
        weight,
    }
}

pub(crate) fn slash(required: Option<u8>, optional: u8, index: u32) -> FeatureEdge
    ensures { result ≡ WeakSlashOf required optional (record { 0 = index }) }
{
    FeatureEdge::WeakSlash {
        required,
        optional,
        index: WeakIndex(index),
    }
}
