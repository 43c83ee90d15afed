// What a line can say, and what stands when it comes.
// These are plain values: they hold numbers and places, and no text.
ghost use Rattle.std.specs.Prelude.{◌≡◌};

use words::Span;

// The kind of a graph.
#[derive(Clone, Copy, PartialEq, Eq, Debug)]
pub enum Kind {
    Feature,
    Package,
}

// What the edge of a feature graph asks for.
#[derive(Clone, Copy, PartialEq, Eq, Debug)]
pub enum Form {
    Named,
    Base,
    Section(u8),
    Colon(u8),
    Strong(u8),
    Weak {
        required: Option<u8>,
        optional: u8,
        release: u32,
        package_edge: u32,
    },
    WeakAt {
        required: Option<u8>,
        optional: u8,
        index: u32,
    },
}

// What a line says.
#[derive(Clone, Copy, PartialEq, Eq, Debug)]
pub enum Record {
    // The record without the blanks around it.
    Case(Span),
    Graph {
        kind: Kind,
        nodes: u32,
    },
    Pair {
        release: u32,
        package_edge: u32,
    },
    FeatureEdge {
        source: u32,
        target: u32,
        form: Form,
    },
    PackageEdge {
        source: u32,
        target: u32,
        mask: u8,
    },
    SetUp,
    Out(u32),
    Into(u32),
    Size,
}

// What stands when a line comes: no graph, a graph to which edges are added, or one that is set up.
#[derive(Clone, Copy, PartialEq, Eq, Debug)]
pub enum Standing {
    Nothing,
    Draft(Kind),
    Finished,
}

impl Standing {
    ghost use Rattle.records.specs.Drafts.{draft_of};

    // The kind of the graph to which edges are added.
    pub(crate) fn draft(self) -> Option<Kind>
        ensures { result ≡ draft_of self }
    {
        match self {
            Standing::Draft(kind) => Some(kind),
            Standing::Nothing | Standing::Finished => None,
        }
    }
}
