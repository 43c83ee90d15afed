// Links: what a verdict is asked of. An edge has none, one whole link, or the two halves of a weak slash.
ghost use Rattle.std.specs.Prelude.{◌≡◌};
ghost use Rattle.index.specs.Links.{half_number, link, links_of, required_of};
ghost use Rattle.index.specs.declared.links.Half.TheVariants.{Whole};

use crate::records::{FeatureEdge, PackageLink, WeakIndex};

// Which declarations of a dependency a link covers: all of them, the required ones or the optional ones.
#[derive(Clone, Copy, PartialEq, Eq, Debug)]
pub enum Half {
    Whole = 0,
    Required = 1,
    Optional = 2,
}

// The number of the half.
impl From<Half> for u32 {
    ghost from_gives = { λ half number. number ≡ half_number half };

    fn from(half: Half) -> u32 {
        half as u32
    }
}

#[derive(Clone, Copy, PartialEq, Eq, Debug)]
pub struct Link {
    pub edge: u32,
    pub half: Half,
    pub mask: u8,
}

// The links of an edge that has any.
#[derive(Clone, Copy, PartialEq, Eq, Debug)]
pub enum EdgeLinks {
    NonWeak(Link),
    Weak {
        required: Option<Link>,
        optional: Link,
        index: WeakIndex,
    },
}

// The links of a feature edge, by the edge's number and its record.
pub fn edge_to_links(edge: u32, record: FeatureEdge) -> Option<EdgeLinks>
    ensures { result ≡ links_of edge «record» }
{
    match record {
        FeatureEdge::NamedFeature | FeatureEdge::FeatureToBase => None,
        FeatureEdge::DependenciesSection(mask)
        | FeatureEdge::NamedFeatureDepColon(mask)
        | FeatureEdge::StrongSlash(mask) => {
            Some(EdgeLinks::NonWeak(Link {
                edge,
                half: Half::Whole,
                mask,
            }))
        }
        FeatureEdge::WeakSlash {
            required,
            optional,
            index,
        } => Some(EdgeLinks::Weak {
            required: required_link(edge, required),
            optional: Link {
                edge,
                half: Half::Optional,
                mask: optional,
            },
            index,
        }),
    }
}

fn required_link(edge: u32, required: Option<u8>) -> Option<Link>
    ensures { result ≡ required_of edge required }
{
    required.map(|mask| Link {
        edge,
        half: Half::Required,
        mask,
    })
}

// The one link of a package edge.
pub fn package_edge_to_link(edge: u32, package_link: PackageLink) -> Link
    ensures { result ≡ link edge Whole package_link.mask }
{
    Link {
        edge,
        half: Half::Whole,
        mask: package_link.mask,
    }
}
