// The records that make a graph: its kind and nodes, its pairs and edges, and its end.
// All but the first belong to a draft, a graph to which edges are still added.
ghost use Rattle.std.specs.Prelude.{◌≡◌};
ghost use Rattle.records.specs.Drafts.{edge_at, graph_at, kind_named, pair_at, set_up_in};

use crate::complaints::Complaint;
use crate::cursor::Words;
use crate::forms::read_form;
use crate::values::{Kind, Record, Standing};
use words::Span;

// `graph KIND N`: N is read before the kind is judged.
pub(crate) fn read_graph(words: &mut Words<'_>) -> Result<Record, Complaint>
    ensures { result ≡ graph_at words.old }
{
    let word = words.word()?;
    let nodes = words.number()?;
    let kind = kind_named(words, word)?;
    Ok(Record::Graph { kind, nodes })
}

// The kind that a word names.
fn kind_named(words: &Words<'_>, word: Span) -> Result<Kind, Complaint>
    ensures { result ≡ kind_named words.now word }
{
    match words.bytes(word) {
        b"feature" => Ok(Kind::Feature),
        b"package" => Ok(Kind::Package),
        _ => Err(Complaint::UnknownKind(word)),
    }
}

// `pair REL PE`.
pub(crate) fn read_pair(words: &mut Words<'_>, standing: Standing) -> Result<Record, Complaint>
    ensures { result ≡ pair_at standing words.old }
{
    let Standing::Draft(Kind::Feature) = standing else {
        return Err(Complaint::PairWithoutFeatureDraft);
    };
    let release = words.number()?;
    let package_edge = words.number()?;
    Ok(Record::Pair {
        release,
        package_edge,
    })
}

// `edge S T ..`: what follows depends on the kind of the graph.
pub(crate) fn read_edge(words: &mut Words<'_>, standing: Standing) -> Result<Record, Complaint>
    ensures { result ≡ edge_at standing words.old }
{
    let kind = standing.draft().ok_or(Complaint::EdgeWithoutGraph)?;
    let source = words.number()?;
    let target = words.number()?;
    match kind {
        Kind::Feature => {
            let form = read_form(words)?;
            Ok(Record::FeatureEdge {
                source,
                target,
                form,
            })
        }
        Kind::Package => {
            let mask = words.mask()?;
            Ok(Record::PackageEdge {
                source,
                target,
                mask,
            })
        }
    }
}

// `setup`, which ends a draft.
pub(crate) fn read_set_up(standing: Standing) -> Result<Record, Complaint>
    ensures { result ≡ set_up_in standing }
{
    standing.draft().ok_or(Complaint::SetUpWithoutGraph)?;
    Ok(Record::SetUp)
}
