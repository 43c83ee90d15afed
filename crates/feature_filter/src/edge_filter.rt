// The filter over feature edges: what it makes of an edge that it is asked about, and of a node that it is told.
ghost use Rattle.std.specs.Prelude.{◌≡◌, map};
ghost use Rattle.theory.specs.Pairs.{Pair};
ghost use Rattle.weak.specs.Registered.{pairs as pairs_of};
ghost use Rattle.buffers.specs.Rules.{feature_rule, needed};
ghost use Rattle.buffers.specs.Buffers.{told_by, held_in, Okay};
ghost use Rattle.buffers.proofs.Fairness.{feature_fair};

use crate::releases::Releases;
use crate::table::FeatureEdgeFilter;
use crate::weak_buffers::WeakBuffers;
use filter::buffered::{BufferedEdgeFilter, Held};
use graph::edge::EdgeRef;
use index::direction::DependencyDirection;
use index::links::{EdgeLinks, Link, edge_to_links};
use index::records::FeatureEdge;
use index::spec::{FeatureIx, IndexType};
use verdict::verdict::Verdict;
use weak::table::WeakDependencies;

impl<'a, V: Verdict> FeatureEdgeFilter<'a, V> {
    // A filter for walks in a direction over a graph with these weak pairs.
    pub fn new(
        weak: &'a WeakDependencies,
        direction: DependencyDirection,
        verdict: V,
    ) -> FeatureEdgeFilter<'a, V>
        ensures verdict { result.verdict ≡ verdict }
        ensures direction { result.direction ≡ direction }
        ensures nodes { result.releases.nodes.now ≡ map (λ (p : Pair). p.release) (pairs_of weak.now) }
    {
        FeatureEdgeFilter {
            verdict,
            direction,
            releases: Releases::new(weak.releases()),
            buffers: WeakBuffers::new(),
        }
    }
}

impl<'a, V: Verdict> BufferedEdgeFilter for FeatureEdgeFilter<'a, V> {
    type Ix = FeatureIx;

    type Weight = FeatureEdge;

    ghost rule = { λ s. feature_rule (V.Verdict.accepts s.verdict) s.releases.nodes.now s.direction };

    ghost told = { λ s. told_by s.releases.nodes.now s.buffers.states };

    ghost held = { λ s hold. held_in (V.Verdict.accepts s.verdict) s.buffers.states s.buffers.used hold };

    ghost used = { λ s. s.buffers.used };

    ghost fit = { λ s hold. Okay s.releases.nodes.now s.buffers.states s.buffers.used hold };

    ghost fair = { λ s. feature_fair (V.Verdict.accepts s.verdict) s.releases.nodes.now s.direction };

    #[tactic(auto, using(buffers::proofs::Beginning::blank_told, buffers::proofs::Beginning::blank_okay))]
    fn begin(&mut self) {
        self.buffers.begin(self.releases.nodes.len());
    }

    fn filter(
        &mut self,
        edge: &EdgeRef<FeatureIx, FeatureEdge>,
        hold: &mut [Held<EdgeRef<FeatureIx, FeatureEdge>>],
    ) -> bool {
        match edge_to_links(edge.number, edge.weight) {
            None => true,
            Some(EdgeLinks::NonWeak(link)) => self.verdict.accept(link),
            Some(
                EdgeLinks::Weak {
                    required,
                    optional,
                    index,
                },
            ) => {
                // Both halves are dealt with, the required one first, and then joined: neither spares the other.
                let now = judges(&mut self.verdict, required);
                // One type for both directions, since a caller picks the direction as it runs.
                let later = match self.direction {
                    DependencyDirection::Forward => {
                        self.buffers
                            .arrives(&self.releases, index.0 as usize, *edge, hold)
                            && self.verdict.accept(optional)
                    }
                    DependencyDirection::Reverse => self.verdict.accept(optional),
                };
                now | later
            }
        }
    }

    fn discover(
        &mut self,
        node: FeatureIx,
        hold: &mut [Held<EdgeRef<FeatureIx, FeatureEdge>>],
        hand: &mut [EdgeRef<FeatureIx, FeatureEdge>],
    ) -> usize {
        match self.direction {
            DependencyDirection::Forward => {
                self.buffers.tell(&mut self.verdict, &self.releases, node.index(), hold, hand)
            }
            DependencyDirection::Reverse => 0, // nothing waits
        }
    }
}

// Whether there is a required link, and it is accepted.
// By a match: after `is_some_and` it is not known what the verdict keeps.
fn judges<V: Verdict>(verdict: &mut V, required: Option<Link>) -> bool
    ensures answer { result ≡ needed (V.Verdict.accepts verdict.old) required }
    ensures same { V.Verdict.accepts verdict.new ≡ V.Verdict.accepts verdict.old }
{
    match required {
        Some(link) => verdict.accept(link),
        None => false,
    }
}
