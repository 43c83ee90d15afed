// A run of the program: the lines that it reads, and the answers that it writes.
// No graph stands, then a draft, then a finished graph, and again; a `graph` line ends what stood before it.
ghost use Rattle.std.specs.Prelude.{◌<◌, ◌≤◌, IfOk, MatchOption};
ghost use Rattle.buildlist.specs.Ahead.{ahead};

use crate::answers::{Answers, Order};
use crate::kinds::Laid;
use draft::draft::Draft;
use draft::finished::FinishedGraph;
use index::spec::{FeatureGraphSpec, GraphSpec, PackageGraphSpec};
use orders::lines::Lines;
use orders::naming::begins_with;
use records::{Kind, Record, Standing, read_record};

// A `graph` line.
#[derive(Clone, Copy)]
struct Begun {
    kind: Kind,
    nodes: u32,
    line: usize,
}

#[derive(Drop)]
pub struct Session<'s> {
    lines: Lines<'s>,
    answers: Answers<'s>,
    // The graph that ended what stood before it.
    begun: Option<Begun>,
}

impl<'s> Session<'s> {
    pub fn new(rt: &'s HostRuntime, text: &'s [u8]) -> Session<'s> {
        Session {
            lines: Lines::new(text),
            answers: Answers::new(rt),
            begun: None,
        }
    }

    // Answers the whole file.
    pub fn run(mut self, table: &mut [u32]) -> anyhow::Result<()> {
        while let Some(begun) = self.next_graph()? {
            match begun.kind {
                Kind::Feature => self.graph(FeatureGraphSpec, table, begun)?,
                Kind::Package => self.graph(PackageGraphSpec, table, begun)?,
            }
        }
        self.answers.flush()
    }

    // The next graph that is begun: the one that ended what stood, or where nothing stands the next of the file.
    fn next_graph(&mut self) -> anyhow::Result<Option<Begun>>
        ensures { IfOk result (λ begun. MatchOption begun (ahead self.new ≤ ahead self.old) (λ _. ahead self.new < ahead self.old)) }
    {
        if self.begun.is_none() {
            while self.next_order(Standing::Nothing)?.is_some() {}
        }
        Ok(self.begun.take())
    }

    // A graph from its draft to its last query.
    fn graph<S: Laid>(&mut self, spec: S, table: &mut [u32], begun: Begun) -> anyhow::Result<()>
        ensures { IfOk result (λ _. ahead self.new ≤ ahead self.old) }
    {
        let mut draft = Draft::new(table, spec);
        if let Err(refusal) = draft.set_up(begun.nodes) {
            self.answers.refusal(refusal, begun.line)?;
        }
        if !self.lay(&mut draft, begun.kind)? {
            return Ok(());
        }
        self.queries(&draft.finish())
    }

    // Lays a draft up to its `setup` record, and says whether there was one.
    fn lay<S: Laid>(&mut self, draft: &mut Draft<'_, S>, kind: Kind) -> anyhow::Result<bool>
        ensures { IfOk result (λ _. ahead self.new ≤ ahead self.old) }
    {
        while let Some(order) = self.next_order(Standing::Draft(kind))? {
            if let Record::SetUp = order.record {
                return Ok(true);
            }
            self.answers.perform(draft, order)?;
        }
        Ok(false)
    }

    fn queries<S: GraphSpec>(&mut self, graph: &FinishedGraph<'_, S>) -> anyhow::Result<()>
        ensures { IfOk result (λ _. ahead self.new ≤ ahead self.old) }
    {
        while let Some(order) = self.next_order(Standing::Finished)? {
            self.answers.query(graph, order.record)?;
        }
        Ok(())
    }

    // The next order for what stands, or `None` where a `graph` line or the end of the file ends it.
    // Headings and bad lines are answered on the way.
    fn next_order(&mut self, standing: Standing) -> anyhow::Result<Option<Order>>
        ensures { IfOk result (λ order. MatchOption order (ahead self.new ≤ ahead self.old) (λ _. ahead self.new < ahead self.old)) }
    {
        // No `for`: tried, and the proof that each line leaves less of the file did not close.
        while let Some(line) = self.lines.next() {
            let number = line.number;
            match read_record(line.text, standing) {
                Ok(None) => {}
                Ok(Some(Record::Case(heading))) => self.answers.heading(heading.of(line.text))?,
                Ok(Some(Record::Graph { kind, nodes })) => {
                    self.begun = Some(Begun {
                        kind,
                        nodes,
                        line: number,
                    });
                    return Ok(None);
                }
                Ok(Some(record)) => {
                    return Ok(Some(Order {
                        record,
                        line: number,
                    }));
                }
                Err(complaint) => {
                    self.answers.complaint(complaint, line.text, number)?;
                    if standing != Standing::Nothing && begins_with(line.text, b"graph") {
                        return Ok(None);
                    }
                }
            }
        }
        Ok(None)
    }
}
