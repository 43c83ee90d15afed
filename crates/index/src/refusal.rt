// Refusals: the answers of a call that does nothing. Their numbers are fixed, and give the order in which calls check.
ghost use Rattle.std.specs.Prelude.{◌≡◌, Some as SomeText};
ghost use Rattle.index.specs.Refusals.{told as told_of};
ghost use Rattle.index.specs.Printed.{layer_text, told_text};

use std::fmt;

// The layer that refuses.
#[derive(Clone, Copy, PartialEq, Eq, Debug)]
pub enum Layer {
    Graph,
    Rack,
}

impl fmt::Display for Layer {
    ghost output = { λ layer. SomeText (layer_text layer) };

    fn fmt<W: fmt::Write>(&self, f: &mut fmt::Formatter<W>) -> fmt::Result {
        f.write_str(match self {
            Layer::Graph => "graph",
            Layer::Rack => "rack",
        })
    }
}

// Why a call did nothing. Whatever it was given is then as it was.
#[derive(Clone, Copy, PartialEq, Eq, Debug)]
pub enum Refusal {
    // A draft has more nodes than the limit.
    TooManyNodes,
    // A draft's table has less than two words a node.
    TableTooShort,
    // A list number is above 7.
    NoSuchList,
    // An index is no node; `place` tells which of the indexes given, from 0: source, target, release node, or in a list.
    NoSuchNode { layer: Layer, place: usize },
    // An edge names a weak index that is not registered.
    WeakIndexUnregistered,
    // A package edge is new, and as many as the limit are registered.
    WeakIndexesFull,
    // There is no room for another edge in the table, or the limit is reached.
    EdgesFull,
    // The stack table is shorter than needed, or no set-up came first; `needed` is then what set-up would need.
    StackShort { needed: usize },
    // The hold table or the hand-out table is shorter than needed.
    HoldShort { needed: usize },
    // The answer table is shorter than needed.
    AnswersShort { needed: usize },
}

// A refusal as it is told: its number, the layer that refuses and one detail.
#[derive(Clone, Copy, PartialEq, Eq, Debug)]
pub struct Told {
    pub number: u32,
    pub layer: Layer,
    pub detail: usize,
}

impl From<Refusal> for Told {
    ghost from_gives = { λ refusal told. told ≡ told_of refusal };

    fn from(refusal: Refusal) -> Told {
        let (number, layer, detail) = match refusal {
            Refusal::TooManyNodes => (1, Layer::Graph, 0),
            Refusal::TableTooShort => (2, Layer::Graph, 0),
            Refusal::NoSuchList => (3, Layer::Rack, 0),
            Refusal::NoSuchNode { layer, place } => (4, layer, place),
            Refusal::WeakIndexUnregistered => (5, Layer::Graph, 0),
            Refusal::WeakIndexesFull => (6, Layer::Graph, 0),
            Refusal::EdgesFull => (7, Layer::Graph, 0),
            Refusal::StackShort { needed } => (8, Layer::Rack, needed),
            Refusal::HoldShort { needed } => (9, Layer::Rack, needed),
            Refusal::AnswersShort { needed } => (10, Layer::Rack, needed),
        };
        Told {
            number,
            layer,
            detail,
        }
    }
}

impl fmt::Display for Told {
    ghost output = { λ told. SomeText (told_text told) };

    fn fmt<W: fmt::Write>(&self, f: &mut fmt::Formatter<W>) -> fmt::Result {
        let number = self.number;
        let layer = self.layer;
        let detail = self.detail;
        write!(f, "{number} {layer} {detail}")
    }
}
