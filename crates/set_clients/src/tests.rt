// Tests at the edges of words and graphs: 0, 1, 63, 64, 65 and 4,096 nodes; sets of two graphs; a graph cut down to a set.
use crate::in_one_of_two::in_one_of_two;
use clients::first_two::first_two;
use draft::draft::Draft;
use graph::graph::Graph;
use graph::views::{NodeFiltered, NodeSet};
use index::records::PackageLink;
use index::refusal::Told;
use index::spec::{FeatureGraphSpec, FeatureIx, IndexType, PackageGraphSpec, PackageIx};
use sets::ix_set::IxSet;
use sets::make::Unmade;
use std::alloc::Global;
use std::process::Abort;
use std::test::Fail;

fn node(n: u32) -> FeatureIx {
    FeatureIx::new(n)
}

// The number and the detail of the refusal, where a set is refused: the fixed numbers are what is tested here.
// Alike in the tests of `clients`, for another error.
fn refused(made: Result<IxSet<FeatureGraphSpec>, Unmade>) -> Option<(u32, usize)> {
    match made {
        Err(Unmade::Refused(refusal)) => {
            let told = Told::from(refusal);
            Some((told.number, told.detail))
        }
        _ => None,
    }
}

// A set of the given nodes.
fn set_of(heap: Global, nodes: u32, ixs: &[FeatureIx]) -> Result<IxSet<FeatureGraphSpec>, Unmade> {
    IxSet::from_ixs(heap, FeatureGraphSpec, nodes, ixs)
}

// How many members a cursor gives, each above the one before, and the last of them.
fn listed(rt: &impl Abort, set: &IxSet<FeatureGraphSpec>) -> (u32, Option<u32>) {
    let mut ones = set.ones();
    assert_eq!(rt; ones.len(), set.len());
    let mut count = 0u32;
    let mut last = None;
    // No `for`, since `len` is asked between two members.
    while let Some(ix) = ones.next() {
        assert!(rt; last.is_none_or(|last| ix.index() > last));
        assert!(rt; set.contains(ix));
        last = Some(ix.index());
        count = count.saturating_add(1);
        assert_eq!(rt; ones.len(), set.len().saturating_sub(count));
    }
    (count, last)
}

// A set of a graph of so many nodes without a member; an index beyond the graph changes nothing. `rt` asserts and `heap` makes
// sets: `Abort` lends no heap, so both go with the number of nodes, here and below.
fn none(rt: &impl Abort, heap: Global, nodes: u32) -> Result<(), Fail> {
    let mut set = IxSet::empty(heap, FeatureGraphSpec, nodes)?;
    assert_eq!(rt; set.node_count(), nodes);
    assert_eq!(rt; listed(rt, &set), (0, None));
    assert!(rt; !set.insert(node(nodes)));
    assert!(rt; set.is_empty());
    Ok(())
}

// A set of all nodes of such a graph.
fn all(rt: &impl Abort, heap: Global, nodes: u32) -> Result<(), Fail> {
    let mut set = IxSet::empty(heap, FeatureGraphSpec, nodes)?;
    set.fill();
    assert_eq!(rt; listed(rt, &set), (nodes, nodes.checked_sub(1)));
    assert!(rt; !set.contains(node(nodes)));
    assert_eq!(rt; set.is_empty(), nodes == 0);
    let copy = set.clone()?;
    set.symmetric_difference_with(&copy);
    assert!(rt; set.is_empty());
    set.union_with(&copy);
    assert!(rt; set.equals(&copy));
    set.clear();
    assert_eq!(rt; set.equals(&copy), nodes == 0);
    Ok(())
}

// The first and the last node of a graph of so many, at least one; given twice, and one beyond.
fn first_and_last(rt: &impl Abort, heap: Global, nodes: u32) -> Result<(), Fail> {
    let last = nodes.saturating_sub(1);
    let mut ends = set_of(heap, nodes, &[node(last), node(0), node(last)])?;
    assert_eq!(rt; ends.len(), nodes.min(2));
    assert_eq!(rt; listed(rt, &ends), (nodes.min(2), Some(last)));
    assert!(rt; !ends.insert(node(last)));
    let first = set_of(heap, nodes, &[node(0)])?;
    assert_eq!(rt;
        ends.difference(&first)?.len(),
        nodes.min(2).saturating_sub(1)
    );
    ends.intersect_with(&first);
    assert!(rt; ends.equals(&first));
    let beyond = [node(0), node(last), node(nodes), node(u32::MAX)];
    assert_eq!(rt; refused(set_of(heap, nodes, &beyond)), Some((4, 2)));
    Ok(())
}

#[test]
fn words_end_where_they_should(rt: HostRuntime) -> Result<(), Fail> {
    let heap = rt.alloc();
    none(&rt, heap, 0)?;
    all(&rt, heap, 0)?;
    for nodes in [1u32, 63, 64, 65, 4096] {
        none(&rt, heap, nodes)?;
        all(&rt, heap, nodes)?;
        first_and_last(&rt, heap, nodes)?;
    }
    assert_eq!(rt; refused(set_of(heap, 0, &[node(0)])), Some((4, 0)));
    Ok(())
}

#[test]
fn the_client_runs(rt: HostRuntime) -> Result<(), Fail> {
    let (count, found) = in_one_of_two(rt.alloc())?;
    assert_eq!(rt; count, 3);
    assert_eq!(rt; found, [Some(node(0)), Some(node(3)), Some(node(64)), None]);
    Ok(())
}

// The set that is changed stays one of its own graph; sets of two graphs are equal where their members are.
#[test]
fn sets_of_two_graphs(rt: HostRuntime) -> Result<(), Fail> {
    let heap = rt.alloc();
    let large = set_of(heap, 200, &[node(1), node(5), node(130)])?;
    let mut small = set_of(heap, 5, &[node(1)])?;
    assert!(rt; !small.equals(&large));
    small.union_with(&large);
    assert_eq!(rt; listed(&rt, &small), (1, Some(1)));
    assert_eq!(rt; small.node_count(), 5);
    assert!(rt; !large.equals(&small));
    let wide = set_of(heap, 200, &[node(1)])?;
    assert!(rt; wide.equals(&small));
    assert_eq!(rt; large.difference(&small)?.len(), 2);
    Ok(())
}

// A package graph 0→1, 0→2 cut down to the nodes 0 and 2.
#[test]
fn a_graph_is_cut_down(rt: HostRuntime) -> Result<(), Fail> {
    let mut table = [0u32; 40];
    let mut draft = Draft::new(&mut table, PackageGraphSpec);
    let link = PackageLink { mask: 1 };
    assert!(rt; draft.set_up(3).is_ok());
    assert!(rt;
        draft
            .add_edge(PackageIx::new(0), PackageIx::new(1), link)
            .is_ok()
    );
    assert!(rt;
        draft
            .add_edge(PackageIx::new(0), PackageIx::new(2), link)
            .is_ok()
    );
    let graph = draft.finish();
    let mut set = IxSet::empty(rt.alloc(), PackageGraphSpec, 3)?;
    set.insert(PackageIx::new(0));
    set.insert(PackageIx::new(2));
    let cut = NodeFiltered {
        graph: &graph,
        set: &set,
    };
    assert_eq!(rt; first_two(&graph, PackageIx::new(0)), (Some(1), Some(0)));
    assert_eq!(rt; first_two(&cut, PackageIx::new(0)), (Some(1), None));
    Ok(())
}
