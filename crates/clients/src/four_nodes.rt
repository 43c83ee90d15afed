// Four nodes: 0 → 1 by name, 1 → 3 by a weak slash that node 2 releases, 0 → 2 by a dependencies section.
ghost use Rattle.std.specs.Prelude.{◌≡◌, ℕ, Bool, Some, None};
ghost use Rattle.index.specs.Records.{read_feature_edge};
ghost use Rattle.draft.specs.State.{edges_of};
ghost use Rattle.clients.specs.Firsts.{others};
ghost use Rattle.clients.specs.FourNodes.{four_edges, four_pairs};

use crate::first_two::first_two;
use draft::draft::Draft;
use draft::finished::FinishedGraph;
use graph::views::{NodeFiltered, NodeSet, Reversed};
use index::records::{FeatureEdge, WeakIndex};
use index::spec::{FeatureGraphSpec, FeatureIx, IndexType};

// Every node but one.
#[derive(Clone, Copy, PartialEq, Eq, Debug)]
pub struct Others {
    pub without: u32,
}

impl NodeSet for Others {
    type Ix = FeatureIx;

    ghost has = { λ s. others s.without };

    fn contains(&self, n: FeatureIx) -> bool {
        n.index() != self.without
    }
}

// What the four-node graph answers: the edges out of 0, those into 3, and those out of 0 where node 2 is left out.
#[derive(Clone, Copy, PartialEq, Eq, Debug)]
pub struct Answers {
    pub out_of_0: (Option<u32>, Option<u32>),
    pub into_3: (Option<u32>, Option<u32>),
    pub without_2: (Option<u32>, Option<u32>),
}

// The four nodes, laid over a table.
pub fn lay_four_nodes(table: &mut [u32; 32]) -> FinishedGraph<'_, FeatureGraphSpec>
    ensures nodes { result.draft.nodes ≡ 4 }
    ensures edges { edges_of read_feature_edge result.draft ≡ four_edges }
    ensures pairs { result.draft.pairs ≡ four_pairs }
{
    let mut draft = Draft::new(table, FeatureGraphSpec);
    let _ = draft.set_up(4);
    let _ = draft.add_pair(7, FeatureIx::new(2));
    let _ = draft.add_edge(
        FeatureIx::new(0),
        FeatureIx::new(1),
        FeatureEdge::NamedFeature,
    );
    let slash = FeatureEdge::WeakSlash {
        required: None,
        optional: 1,
        index: WeakIndex(0),
    };
    let _ = draft.add_edge(FeatureIx::new(1), FeatureIx::new(3), slash);
    let _ = draft.add_edge(
        FeatureIx::new(0),
        FeatureIx::new(2),
        FeatureEdge::DependenciesSection(1),
    );
    draft.finish()
}

pub fn four_nodes(table: &mut [u32; 32]) -> Answers
    ensures { result ≡ record { out_of_0 = (Some 2, Some 0); into_3 = (Some 1, None); without_2 = (Some 0, None) } }
{
    let graph = lay_four_nodes(table);
    let cut = NodeFiltered {
        graph: &graph,
        set: Others { without: 2 },
    };
    Answers {
        out_of_0: first_two(&graph, FeatureIx::new(0)),
        into_3: first_two(&Reversed(&graph), FeatureIx::new(3)),
        without_2: first_two(&cut, FeatureIx::new(0)),
    }
}
