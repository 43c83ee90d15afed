// The edges at a node, in the order of the graph's list, as one answer on a page.
ghost use Rattle.std.specs.Prelude.{◌≡◌, ◌^◌, ◌<◌, length, codes};
ghost use Rattle.orders.specs.Wording.{Writes, edge_text, edges_text, list_text};

use crate::page::Page;
use graph::edge::EdgeRef;
use graph::edges::Edges;
use graph::graph::{BothWays, Graph};
use index::spec::IndexType;
use std::alloc::AllocError;

impl Page {
    // The edges that leave a node; none leave an index that is no node.
    pub fn outgoing<G: Graph>(&mut self, graph: &G, node: u32) -> Result<(), AllocError>
        ensures { Writes result self.old (list_text (codes "out") node (G.outs graph.now node)) self.new }
    {
        let start = graph.outgoing(G::Ix::new(node));
        self.list("out", node, graph, start)
    }

    // The edges that enter a node. Apart from `outgoing`, since not every graph has incoming lists.
    pub fn incoming<G: BothWays>(&mut self, graph: &G, node: u32) -> Result<(), AllocError>
        ensures { Writes result self.old (list_text (codes "into") node (G.ins graph.now node)) self.new }
    {
        let start = graph.incoming(G::Ix::new(node));
        self.list("into", node, graph, start)
    }

    // What a cursor has still to give, under a name. Inlined for speed: a call would be lent the whole graph, tables of pairs
    // and all, and a program that never looks at those would then have to fill and copy them for each graph.
    #[inline(always)]
    fn list<G: Graph>(
        &mut self,
        name: &str,
        node: u32,
        graph: &G,
        start: G::Cursor,
    ) -> Result<(), AllocError>
        requires { length (G.rest graph.now start) < 2 ^ 64 }
        ensures { Writes result self.old (list_text name.now node (G.rest graph.now start)) self.new }
    {
        let edges = Edges {
            graph,
            cursor: start,
        };
        let count = edges.count();
        write!(self, "{name} {node} {count}")?;
        let edges = Edges {
            graph,
            cursor: start,
        };
        for edge in edges {
            self.edge(edge)?;
        }
        Ok(())
    }

    fn edge<I: IndexType, W: Copy>(&mut self, edge: EdgeRef<I, W>) -> Result<(), AllocError>
        ensures { Writes result self.old (edge_text (I.number edge.source) (I.number edge.target) edge.number) self.new }
    {
        let source = edge.source.index();
        let target = edge.target.index();
        let number = edge.number;
        write!(self, " {source}>{target}#{number}")
    }
}
