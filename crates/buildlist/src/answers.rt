// The answers of the program: a page of them, which is written to standard output.
use crate::kinds::Laid;
use draft::draft::Draft;
use draft::finished::FinishedGraph;
use graph::graph::Graph;
use index::refusal::{Refusal, Told};
use index::spec::GraphSpec;
use orders::page::Page;
use records::{Complaint, Record};
use std::io::Write;

// Answers are written out once they are this long.
const PAGE_BYTES: usize = 65_536;

// A record that asks for something to be done with what stands, and the number of its line.
#[derive(Clone, Copy)]
pub struct Order {
    pub record: Record,
    pub line: usize,
}

// The answers that are not yet written out.
#[derive(Drop)]
pub struct Answers<'s> {
    rt: &'s HostRuntime,
    page: Page,
}

impl<'s> Answers<'s> {
    pub fn new(rt: &'s HostRuntime) -> Answers<'s> {
        Answers {
            rt,
            page: Page::new(rt.alloc()),
        }
    }

    pub fn heading(&mut self, text: &[u8]) -> anyhow::Result<()> {
        self.page.add(text)?;
        self.end_line()
    }

    pub fn complaint(
        &mut self,
        complaint: Complaint,
        line: &[u8],
        number: usize,
    ) -> anyhow::Result<()> {
        self.page.complaint(complaint, line, number)?;
        self.end_line()
    }

    pub fn refusal(&mut self, refusal: Refusal, line: usize) -> anyhow::Result<()> {
        self.page.refusal(Told::from(refusal), line)?;
        self.end_line()
    }

    // Does what an order asks of a draft.
    pub fn perform<S: Laid>(
        &mut self,
        draft: &mut Draft<'_, S>,
        order: Order,
    ) -> anyhow::Result<()> {
        match S::perform(draft, order.record) {
            Ok(Some(index)) => {
                self.page.pair(index.0)?;
                self.end_line()
            }
            Ok(None) => Ok(()),
            Err(refusal) => self.refusal(refusal, order.line),
        }
    }

    // Answers a query of a graph.
    pub fn query<S: GraphSpec>(
        &mut self,
        graph: &FinishedGraph<'_, S>,
        query: Record,
    ) -> anyhow::Result<()> {
        let page = &mut self.page;
        match query {
            Record::Out(node) => page.outgoing(graph, node)?,
            Record::Into(node) => page.incoming(graph, node)?,
            Record::Size => page.size(graph.node_bound(), graph.edge_bound(), graph.weak_count())?,
            _ => return Ok(()),
        }
        self.end_line()
    }

    pub fn flush(&mut self) -> anyhow::Result<()> {
        self.rt.stdout().write_all(self.page.bytes())?;
        self.page.clear();
        Ok(())
    }

    // Ends an answer's line, and writes the page out once it is long.
    fn end_line(&mut self) -> anyhow::Result<()> {
        self.page.add(b"\n")?;
        if self.page.bytes().len() >= PAGE_BYTES {
            self.flush()?;
        }
        Ok(())
    }
}
