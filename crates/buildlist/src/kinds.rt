// The two kinds of graphs, and what the records of their drafts do.
use draft::draft::Draft;
use index::records::WeakIndex;
use index::refusal::Refusal;
use index::spec::{FeatureGraphSpec, FeatureIx, GraphSpec, IndexType, PackageGraphSpec};
use orders::laying::{lay_feature_edge, lay_package_edge};
use records::Record;

// A kind of graph whose drafts perform records. Reading gives a draft no record but those of its kind.
pub trait Laid: GraphSpec {
    // A pair answers its weak index.
    fn perform(draft: &mut Draft<'_, Self>, record: Record) -> Result<Option<WeakIndex>, Refusal>;
}

impl Laid for FeatureGraphSpec {
    fn perform(
        draft: &mut Draft<'_, FeatureGraphSpec>,
        record: Record,
    ) -> Result<Option<WeakIndex>, Refusal> {
        match record {
            Record::Pair {
                release,
                package_edge,
            } => draft
                .add_pair(package_edge, FeatureIx::new(release))
                .map(Some),
            Record::FeatureEdge {
                source,
                target,
                form,
            } => lay_feature_edge(draft, source, target, form).map(|_| None),
            _ => Ok(None),
        }
    }
}

impl Laid for PackageGraphSpec {
    fn perform(
        draft: &mut Draft<'_, PackageGraphSpec>,
        record: Record,
    ) -> Result<Option<WeakIndex>, Refusal> {
        match record {
            Record::PackageEdge {
                source,
                target,
                mask,
            } => lay_package_edge(draft, source, target, mask).map(|_| None),
            _ => Ok(None),
        }
    }
}
