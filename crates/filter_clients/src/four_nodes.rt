// Four nodes: 0 → 1 by name, 1 → 3 by a weak slash that node 2 releases, 0 → 2 by a dependencies section. A walk from 0 makes
// these calls: it tells 0 and asks about the section and the name, tells 1 and asks about the slash, tells 2.
ghost use Rattle.std.specs.Prelude.{◌≡◌, true, false, [], ◌∷◌, map};
ghost use Rattle.theory.specs.Pairs.{Pair};
ghost use Rattle.weak.specs.Registered.{pairs as pairs_of};

use crate::edges::{edge, slash};
use clients::four_nodes::lay_four_nodes;
use feature_filter::table::FeatureEdgeFilter;
use filter::buffered::{BufferedEdgeFilter, Held};
use index::direction::DependencyDirection;
use index::records::FeatureEdge;
use index::spec::{FeatureIx, IndexType};
use verdict::verdicts::MaskVerdict;
use weak::table::WeakDependencies;

// Whether each edge was handed out as it was asked about, how many were as a node was told, and the number of the first of
// those that 2 released.
#[derive(Clone, Copy, PartialEq, Eq, Debug)]
pub struct Answers {
    pub section: bool,
    pub name: bool,
    pub slash: bool,
    pub told_0: usize,
    pub told_1: usize,
    pub told_2: usize,
    pub released: u32,
}

// The calls, on a filter with mask 1 that is made from the graph.
pub fn four_nodes(table: &mut [u32; 32]) -> Answers
    ensures { result ≡ record { section = true; name = true; slash = false; told_0 = 0; told_1 = 0; told_2 = 1; released = 1 } }
{
    let graph = lay_four_nodes(table);
    walk(graph.weak())
}

fn walk(weak: &WeakDependencies) -> Answers
    requires { map (λ (p : Pair). p.release) (pairs_of weak.now) ≡ 2 ∷ [] }
    ensures { result ≡ record { section = true; name = true; slash = false; told_0 = 0; told_1 = 0; told_2 = 1; released = 1 } }
{
    let first = edge(0, 1, 0, FeatureEdge::NamedFeature);
    let second = edge(1, 3, 1, slash(None, 1, 0));
    let third = edge(0, 2, 2, FeatureEdge::DependenciesSection(1));
    let mut hold = [Held {
        edge: first,
        next: None,
    }; 3];
    let mut hand = [first; 3];
    let verdict = MaskVerdict { wanted: 1 };
    let mut filter = FeatureEdgeFilter::new(weak, DependencyDirection::Forward, verdict);
    filter.begin();
    let told_0 = filter.discover(FeatureIx::new(0), &mut hold, &mut hand);
    let section = filter.filter(&third, &mut hold);
    let name = filter.filter(&first, &mut hold);
    let told_1 = filter.discover(FeatureIx::new(1), &mut hold, &mut hand);
    let late = filter.filter(&second, &mut hold);
    let told_2 = filter.discover(FeatureIx::new(2), &mut hold, &mut hand);
    Answers {
        section,
        name,
        slash: late,
        told_0,
        told_1,
        told_2,
        released: hand[0].number,
    }
}
