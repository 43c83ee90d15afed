// The two directions in which dependencies are followed.
ghost use Rattle.std.specs.Prelude.{◌≡◌};
ghost use Rattle.index.specs.Directions.{opposite as turned_round};

// Forward: from an edge's source to its target. Reverse: from its target to its source.
#[derive(Clone, Copy, PartialEq, Eq, Debug)]
pub enum DependencyDirection {
    Forward,
    Reverse,
}

impl DependencyDirection {
    // The other direction.
    pub fn opposite(self) -> DependencyDirection
        ensures { result ≡ turned_round self }
    {
        match self {
            DependencyDirection::Forward => DependencyDirection::Reverse,
            DependencyDirection::Reverse => DependencyDirection::Forward,
        }
    }
}
