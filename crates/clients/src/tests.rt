// Tests at the limits of a draft, and of edges that stand in both lists of one node.
use crate::first_two::first_two;
use crate::four_nodes::{Answers, four_nodes};
use draft::draft::Draft;
use graph::views::Reversed;
use index::records::{FeatureEdge, PackageLink, WeakIndex};
use index::refusal::{Refusal, Told};
use index::spec::{FeatureGraphSpec, FeatureIx, IndexType, PackageGraphSpec, PackageIx};
use std::test::Fail;

// The number and the detail of the refusal, if the call was refused: the fixed numbers are what is tested here.
fn refusal<T: Drop>(r: Result<T, Refusal>) -> Option<(u32, usize)> {
    let told = Told::from(r.err()?);
    Some((told.number, told.detail))
}

fn node(n: u32) -> PackageIx {
    PackageIx::new(n)
}

const LINK: PackageLink = PackageLink { mask: 1 };

#[test]
fn the_last_node_is_accepted_and_the_next_is_none(rt: HostRuntime) {
    let mut table = [0u32; 8216];
    let mut draft = Draft::new(&mut table, PackageGraphSpec);
    assert_eq!(rt; refusal(draft.set_up(4097)), Some((1, 0)));
    assert_eq!(rt; refusal(draft.set_up(4096)), None);
    assert_eq!(rt; refusal(draft.add_edge(node(4095), node(4095), LINK)), None);
    assert_eq!(rt;
        refusal(draft.add_edge(node(4096), node(4096), LINK)),
        Some((4, 0))
    );
    assert_eq!(rt;
        refusal(draft.add_edge(node(0), node(4096), LINK)),
        Some((4, 1))
    );
    assert_eq!(rt; refusal(draft.add_pair(0, node(4096))), Some((4, 2)));
}

#[test]
fn a_word_short_is_refused(rt: HostRuntime) {
    let mut table = [0u32; 15];
    let mut draft = Draft::new(&mut table, PackageGraphSpec);
    assert_eq!(rt; refusal(draft.set_up(8)), Some((2, 0)));
    assert_eq!(rt; refusal(draft.set_up(4)), None);
    assert_eq!(rt;
        refusal(draft.add_edge(node(0), node(1), LINK)),
        Some((7, 0))
    );
    assert_eq!(rt; refusal(draft.set_up(3)), None);
    assert_eq!(rt; refusal(draft.add_edge(node(0), node(1), LINK)), None);
    assert_eq!(rt;
        refusal(draft.add_edge(node(0), node(1), LINK)),
        Some((7, 0))
    );
}

#[test]
fn a_draft_without_nodes_takes_nothing(rt: HostRuntime) {
    let mut table = [0u32; 16];
    let mut draft = Draft::new(&mut table, PackageGraphSpec);
    assert_eq!(rt;
        refusal(draft.add_edge(node(0), node(0), LINK)),
        Some((4, 0))
    );
    assert_eq!(rt; refusal(draft.set_up(0)), None);
    assert_eq!(rt;
        refusal(draft.add_edge(node(0), node(0), LINK)),
        Some((4, 0))
    );
    let graph = draft.finish();
    assert_eq!(rt; first_two(&graph, node(0)), (None, None));
}

#[test]
fn the_last_pair_is_accepted_and_the_next_refused(rt: HostRuntime) -> Result<(), Fail> {
    let mut table = [0u32; 16];
    let mut draft = Draft::new(&mut table, FeatureGraphSpec);
    assert_eq!(rt; refusal(draft.set_up(2)), None);
    let mut last = None;
    for package_edge in 0..1024u32 {
        last = Some(draft.add_pair(package_edge.wrapping_mul(1024), FeatureIx::new(1))?);
    }
    assert_eq!(rt; last, Some(WeakIndex(1023)));
    assert_eq!(rt; refusal(draft.add_pair(5, FeatureIx::new(1))), Some((6, 0)));
    assert_eq!(rt; draft.add_pair(1024, FeatureIx::new(0)), Ok(WeakIndex(1)));
    let slash = FeatureEdge::WeakSlash {
        required: None,
        optional: 1,
        index: WeakIndex(1024),
    };
    assert_eq!(rt;
        refusal(draft.add_edge(FeatureIx::new(0), FeatureIx::new(1), slash)),
        Some((5, 0))
    );
    let graph = draft.finish();
    assert_eq!(rt; graph.release_node(WeakIndex(1)), Some(FeatureIx::new(1)));
    assert_eq!(rt; graph.release_node(WeakIndex(1024)), None);
    Ok(())
}

#[test]
fn the_last_edge_is_accepted_and_the_next_refused(rt: HostRuntime) -> Result<(), Fail> {
    let mut table = [0u32; 131_090];
    let mut draft = Draft::new(&mut table, PackageGraphSpec);
    assert_eq!(rt; refusal(draft.set_up(1)), None);
    let mut last = None;
    for _ in 0..16_384 {
        last = Some(draft.add_edge(node(0), node(0), LINK)?);
    }
    assert_eq!(rt; last, Some(16_383));
    assert_eq!(rt;
        refusal(draft.add_edge(node(0), node(0), LINK)),
        Some((7, 0))
    );
    let graph = draft.finish();
    assert_eq!(rt; first_two(&graph, node(0)), (Some(16_383), Some(16_382)));
    Ok(())
}

#[test]
fn loops_and_parallel_edges_stand_in_both_lists(rt: HostRuntime) {
    let mut table = [0u32; 40];
    let mut draft = Draft::new(&mut table, PackageGraphSpec);
    assert_eq!(rt; refusal(draft.set_up(2)), None);
    assert_eq!(rt; refusal(draft.add_edge(node(0), node(0), LINK)), None);
    assert_eq!(rt; refusal(draft.add_edge(node(0), node(1), LINK)), None);
    assert_eq!(rt; refusal(draft.add_edge(node(0), node(1), LINK)), None);
    let graph = draft.finish();
    assert_eq!(rt; first_two(&graph, node(0)), (Some(2), Some(1)));
    assert_eq!(rt; first_two(&Reversed(&graph), node(1)), (Some(2), Some(1)));
    assert_eq!(rt; first_two(&Reversed(&graph), node(0)), (Some(0), None));
}

#[test]
fn four_nodes_answer_as_proved(rt: HostRuntime) {
    let mut table = [0u32; 32];
    assert_eq!(rt;
        four_nodes(&mut table),
        Answers {
            out_of_0: (Some(2), Some(0)),
            into_3: (Some(1), None),
            without_2: (Some(0), None),
        }
    );
}
