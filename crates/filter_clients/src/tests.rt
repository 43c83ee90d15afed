// The calls of walks that the original was run on, with the answers that it gave there.
use crate::edges::{edge, slash};
use draft::draft::Draft;
use feature_filter::table::FeatureEdgeFilter;
use filter::buffered::{BufferedEdgeFilter, Held};
use graph::edge::EdgeRef;
use index::direction::DependencyDirection;
use index::records::FeatureEdge;
use index::spec::{FeatureGraphSpec, FeatureIx, IndexType};
use verdict::verdicts::MaskVerdict;
use weak::table::WeakDependencies;

// A node is told, or it is asked about an edge, by its number.
#[derive(Clone, Copy, PartialEq, Eq, Debug)]
enum Call {
    Tell(u32),
    Ask(u32),
}

// How many edges a call handed out, and the numbers of the first three.
type Answer = (usize, [Option<u32>; 3]);

const NONE: Answer = (0, [None; 3]);

fn one(number: u32) -> Answer {
    (1, [Some(number), None, None])
}

fn numbers(handed: &[EdgeRef<FeatureIx, FeatureEdge>]) -> [Option<u32>; 3] {
    let mut first = [None; 3];
    for (number, edge) in first.iter_mut().zip(handed) {
        *number = Some(edge.number);
    }
    first
}

// Begins the filter, makes the calls, and writes down what each was answered, as long as the tables have room.
fn replay<F: BufferedEdgeFilter<Ix = FeatureIx, Weight = FeatureEdge>, const CALLS: usize>(
    filter: &mut F,
    edges: &[EdgeRef<FeatureIx, FeatureEdge>],
    calls: &[Call; CALLS],
    hold: &mut [Held<EdgeRef<FeatureIx, FeatureEdge>>],
    hand: &mut [EdgeRef<FeatureIx, FeatureEdge>],
) -> [Answer; CALLS] {
    let mut answers = [NONE; CALLS];
    filter.begin();
    // By hand: the filter asks for room for one entry more than were asked about before.
    let mut asked = 0;
    for (call, answer) in calls.iter().zip(answers.iter_mut()) {
        if asked >= hold.len() || asked > hand.len() {
            break;
        }
        match *call {
            Call::Tell(node) => {
                let count = filter.discover(FeatureIx::new(node), hold, hand);
                *answer = (count, numbers(&hand[..count]));
            }
            Call::Ask(number) => {
                let Some(edge) = edges.get(number as usize) else {
                    break;
                };
                asked += 1;
                if filter.filter(edge, hold) {
                    *answer = one(number);
                }
            }
        }
    }
    answers
}

// Tables of so many entries, with an edge in each.
fn tables<const N: usize>(
    blank: EdgeRef<FeatureIx, FeatureEdge>,
) -> (
    [Held<EdgeRef<FeatureIx, FeatureEdge>>; N],
    [EdgeRef<FeatureIx, FeatureEdge>; N],
) {
    let held = Held {
        edge: blank,
        next: None,
    };
    ([held; N], [blank; N])
}

// d0 e2(2) e0(0) d1 e1 d2(1) d3 in the original's trace: nodes told, edges asked about, and in brackets what is handed out.
#[test]
fn the_four_node_walk_goes_as_in_the_original(rt: HostRuntime) {
    let mut table = [0u32; 32];
    let mut draft = Draft::new(&mut table, FeatureGraphSpec);
    let _ = draft.set_up(4);
    let _ = draft.add_pair(0, FeatureIx::new(2));
    let graph = draft.finish();
    let edges = [
        edge(0, 1, 0, FeatureEdge::NamedFeature),
        edge(1, 3, 1, slash(None, 1, 0)),
        edge(0, 2, 2, FeatureEdge::DependenciesSection(1)),
    ];
    let calls = [
        Call::Tell(0),
        Call::Ask(2),
        Call::Ask(0),
        Call::Tell(1),
        Call::Ask(1),
        Call::Tell(2),
        Call::Tell(3),
    ];
    let verdict = MaskVerdict { wanted: 1 };
    let mut filter = FeatureEdgeFilter::new(graph.weak(), DependencyDirection::Forward, verdict);
    let (mut hold, mut hand) = tables::<4>(edges[0]);
    assert_eq!(rt;
        replay(&mut filter, &edges, &calls, &mut hold, &mut hand),
        [NONE, one(2), one(0), NONE, NONE, one(1), NONE]
    );
}

// d0 e4(4) e3 e2 e1 e0(0) d1 d5(2,0,1): two indexes wait on node 5. What waits for index 0 comes before what waits for 1, in
// the order of asking. Edge 0 was handed out before, by its required link; the optional link of edge 3 is rejected. A second
// walk begins afresh.
#[test]
fn held_edges_go_out_index_by_index_in_each_walk(rt: HostRuntime) {
    let mut table = [0u32; 16];
    let mut draft = Draft::new(&mut table, FeatureGraphSpec);
    let _ = draft.set_up(6);
    let _ = draft.add_pair(0, FeatureIx::new(5));
    let _ = draft.add_pair(1, FeatureIx::new(5));
    let graph = draft.finish();
    let edges = [
        edge(0, 1, 0, slash(Some(1), 1, 0)),
        edge(0, 2, 1, slash(None, 1, 1)),
        edge(0, 3, 2, slash(None, 1, 0)),
        edge(0, 4, 3, slash(None, 2, 1)),
        edge(0, 5, 4, FeatureEdge::NamedFeature),
    ];
    let calls = [
        Call::Tell(0),
        Call::Ask(4),
        Call::Ask(3),
        Call::Ask(2),
        Call::Ask(1),
        Call::Ask(0),
        Call::Tell(5),
    ];
    let verdict = MaskVerdict { wanted: 1 };
    let mut filter = FeatureEdgeFilter::new(graph.weak(), DependencyDirection::Forward, verdict);
    let (mut hold, mut hand) = tables::<6>(edges[0]);
    let first = replay(&mut filter, &edges, &calls, &mut hold, &mut hand);
    let second = replay(&mut filter, &edges, &calls, &mut hold, &mut hand);
    assert_eq!(rt;
        first,
        [
            NONE,
            one(4),
            NONE,
            NONE,
            NONE,
            one(0),
            (3, [Some(2), Some(0), Some(1)])
        ]
    );
    assert_eq!(rt; second, first);
}

// Made for Reverse, an optional link is judged at once. An index that no pair has waits on nothing, in Forward.
#[test]
fn reverse_judges_at_once_and_an_unknown_index_waits_on_nothing(rt: HostRuntime) {
    let weak = WeakDependencies::new();
    let edges = [
        edge(0, 1, 0, slash(Some(2), 1, 0)),
        edge(0, 1, 1, slash(Some(1), 2, 0)),
    ];
    let calls = [Call::Ask(0), Call::Ask(1), Call::Tell(0)];
    let verdict = MaskVerdict { wanted: 1 };
    let mut reverse = FeatureEdgeFilter::new(&weak, DependencyDirection::Reverse, verdict);
    let mut forward = FeatureEdgeFilter::new(&weak, DependencyDirection::Forward, verdict);
    let (mut hold, mut hand) = tables::<3>(edges[0]);
    assert_eq!(rt;
        replay(&mut reverse, &edges, &calls, &mut hold, &mut hand),
        [one(0), one(1), NONE]
    );
    assert_eq!(rt;
        replay(&mut forward, &edges, &calls, &mut hold, &mut hand),
        [NONE, one(1), NONE]
    );
}
