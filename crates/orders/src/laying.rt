// The edges of an order file, added to a draft.
ghost use Rattle.std.specs.Prelude.{◌≡◌, None};
ghost use Rattle.index.specs.Records.{read_package_link};
ghost use Rattle.draft.specs.Drafting.{TakesEdge};
ghost use Rattle.orders.specs.Laying.{Lays, Weighs};

use draft::draft::Draft;
use index::records::{FeatureEdge, PackageLink, WeakIndex};
use index::refusal::Refusal;
use index::spec::{FeatureGraphSpec, FeatureIx, IndexType, PackageGraphSpec, PackageIx};
use records::Form;

// The record of an edge. A weak form registers its pair, whose index the record has.
fn weigh(draft: &mut Draft<'_, FeatureGraphSpec>, form: Form) -> Result<FeatureEdge, Refusal>
    ensures { Weighs form draft.old result draft.new }
{
    Ok(match form {
        Form::Named => FeatureEdge::NamedFeature,
        Form::Base => FeatureEdge::FeatureToBase,
        Form::Section(mask) => FeatureEdge::DependenciesSection(mask),
        Form::Colon(mask) => FeatureEdge::NamedFeatureDepColon(mask),
        Form::Strong(mask) => FeatureEdge::StrongSlash(mask),
        Form::Weak {
            required,
            optional,
            release,
            package_edge,
        } => FeatureEdge::WeakSlash {
            required,
            optional,
            index: draft.add_pair(package_edge, FeatureIx::new(release))?,
        },
        Form::WeakAt {
            required,
            optional,
            index,
        } => FeatureEdge::WeakSlash {
            required,
            optional,
            index: WeakIndex(index),
        },
    })
}

// Adds an edge of a feature graph, and answers its number. Source and target stand as the record has them: a pair of their own
// would be taken apart at once.
pub fn lay_feature_edge(
    draft: &mut Draft<'_, FeatureGraphSpec>,
    source: u32,
    target: u32,
    form: Form,
) -> Result<u32, Refusal>
    ensures { Lays form draft.old source target result draft.new }
{
    let weight = weigh(draft, form)?;
    draft.add_edge(FeatureIx::new(source), FeatureIx::new(target), weight)
}

// Adds an edge of a package graph, and answers its number.
pub fn lay_package_edge(
    draft: &mut Draft<'_, PackageGraphSpec>,
    source: u32,
    target: u32,
    mask: u8,
) -> Result<u32, Refusal>
    ensures { TakesEdge read_package_link None draft.old source target (record { mask = mask }) result draft.new }
{
    draft.add_edge(
        PackageIx::new(source),
        PackageIx::new(target),
        PackageLink { mask },
    )
}
