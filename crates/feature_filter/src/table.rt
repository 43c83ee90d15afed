// What a feature filter is made of.
use crate::releases::Releases;
use crate::weak_buffers::WeakBuffers;
use index::direction::DependencyDirection;

// A filter over feature edges, for walks in a direction: only the buffers and what the verdict keeps ever change.
#[derive(Drop)]
pub struct FeatureEdgeFilter<'a, V> {
    pub(crate) verdict: V,
    pub(crate) direction: DependencyDirection,
    pub(crate) releases: Releases<'a>,
    pub(crate) buffers: WeakBuffers,
}
