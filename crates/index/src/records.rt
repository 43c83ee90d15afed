// Edge records: what an edge carries besides its ends and its number, and how four words of a table hold it.
ghost use Rattle.std.specs.Prelude.{◌≡◌, ℕ, List, None, Option as Maybe};
ghost use Rattle.index.specs.declared.records.WeakIndex.{WeakIndex};
ghost use Rattle.index.specs.Records.{read_package_link, read_feature_edge, required_in, form_of, weak_of};

// The place of a weak pair among those that a graph has registered, from 0.
#[derive(Clone, Copy, PartialEq, Eq, Debug)]
pub struct WeakIndex(pub u32);

// A record that four words of a table can hold. Any four words hold some record; `encode` gives four that hold this one.
// Not `From` and `Into`: the member `held` ties the two, which as two traits would need a law that repeats both.
pub trait EdgeRecord: Copy {
    ghost held: { List ℕ → Self };

    // The weak index that the record names, if it names one.
    ghost weak: { Self → Maybe WeakIndex };

    fn encode(self) -> [u32; 4]
        ensures { held result ≡ self };

    fn decode(words: [u32; 4]) -> Self
        ensures { result ≡ held words };

    fn weak_index(self) -> Option<WeakIndex>
        ensures { result ≡ weak self };
}

// The record of a package edge: the mask of its link. Bit 0 is a normal dependency, 1 a build, 2 a dev dependency.
#[derive(Clone, Copy, PartialEq, Eq, Debug)]
pub struct PackageLink {
    pub mask: u8,
}

// The record of a feature edge, in one of six forms; the numbers are masks of links. A weak slash, as `foo?/bar`, has
// a mask for the required declarations of foo, if there are any, one for the optional ones, and a weak index.
#[derive(Clone, Copy, PartialEq, Eq, Debug)]
pub enum FeatureEdge {
    NamedFeature,
    FeatureToBase,
    DependenciesSection(u8),
    NamedFeatureDepColon(u8),
    StrongSlash(u8),
    WeakSlash {
        required: Option<u8>,
        optional: u8,
        index: WeakIndex,
    },
}

impl FeatureEdge {
    // The number of the form, from 0. A method and no `From`, since the number keeps nothing else of the edge.
    pub fn form(self) -> u32
        ensures { result ≡ form_of self }
    {
        match self {
            FeatureEdge::NamedFeature => 0,
            FeatureEdge::FeatureToBase => 1,
            FeatureEdge::DependenciesSection(_) => 2,
            FeatureEdge::NamedFeatureDepColon(_) => 3,
            FeatureEdge::StrongSlash(_) => 4,
            FeatureEdge::WeakSlash { .. } => 5,
        }
    }
}

impl EdgeRecord for PackageLink {
    ghost held = { read_package_link };

    ghost weak = { λ _. None };

    fn encode(self) -> [u32; 4] {
        [u32::from(self.mask), 0, 0, 0]
    }

    fn decode(words: [u32; 4]) -> PackageLink {
        PackageLink {
            mask: (words[0] % 256) as u8,
        }
    }

    fn weak_index(self) -> Option<WeakIndex> {
        None // a package edge is never weak
    }
}

// A required mask as a word: 0 where there is none, else the mask and one.
fn required_word(required: Option<u8>) -> u32
    ensures { required_in result ≡ required }
{
    required.map_or(0, |mask| u32::from(mask) + 1)
}

fn required_mask(word: u32) -> Option<u8>
    ensures { result ≡ required_in word }
{
    word.checked_sub(1).map(|mask| (mask % 256) as u8)
}

impl EdgeRecord for FeatureEdge {
    ghost held = { read_feature_edge };

    ghost weak = { weak_of };

    fn encode(self) -> [u32; 4] {
        let form = self.form();
        match self {
            FeatureEdge::NamedFeature | FeatureEdge::FeatureToBase => [form, 0, 0, 0],
            FeatureEdge::DependenciesSection(mask)
            | FeatureEdge::NamedFeatureDepColon(mask)
            | FeatureEdge::StrongSlash(mask) => [form, u32::from(mask), 0, 0],
            FeatureEdge::WeakSlash {
                required,
                optional,
                index,
            } => [form, u32::from(optional), required_word(required), index.0],
        }
    }

    fn decode(words: [u32; 4]) -> FeatureEdge {
        let mask = (words[1] % 256) as u8;
        match words[0] {
            0 => FeatureEdge::NamedFeature,
            1 => FeatureEdge::FeatureToBase,
            2 => FeatureEdge::DependenciesSection(mask),
            3 => FeatureEdge::NamedFeatureDepColon(mask),
            4 => FeatureEdge::StrongSlash(mask),
            _ => FeatureEdge::WeakSlash {
                required: required_mask(words[2]),
                optional: mask,
                index: WeakIndex(words[3]),
            },
        }
    }

    fn weak_index(self) -> Option<WeakIndex> {
        match self {
            FeatureEdge::WeakSlash { index, .. } => Some(index),
            _ => None,
        }
    }
}
