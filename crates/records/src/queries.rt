// The queries of a graph that is set up.
// Before that nothing of a query is read, and after its last word no other may stand.
ghost use Rattle.std.specs.Prelude.{◌≡◌};
ghost use Rattle.records.specs.Queries.{after_set_up, node_at, size_at, unknown_in};

use crate::complaints::Complaint;
use crate::cursor::Words;
use crate::values::{Record, Standing};
use words::Span;

// The node of `out N` or `into N`.
pub(crate) fn read_node(words: &mut Words<'_>, standing: Standing) -> Result<u32, Complaint>
    ensures { result ≡ node_at standing words.old }
{
    set_up(standing)?;
    let node = words.number()?;
    words.end()?;
    Ok(node)
}

// `size`.
pub(crate) fn read_size(words: &Words<'_>, standing: Standing) -> Result<Record, Complaint>
    ensures { result ≡ size_at standing words.now }
{
    set_up(standing)?;
    words.end().map(|()| Record::Size)
}

// What is wrong with a word that names no record.
pub(crate) fn unknown(word: Span, standing: Standing) -> Complaint
    ensures { result ≡ unknown_in standing word }
{
    set_up(standing)
        .err()
        .unwrap_or(Complaint::UnknownCall(word))
}

// Complains unless a graph is set up.
fn set_up(standing: Standing) -> Result<(), Complaint>
    ensures { result ≡ after_set_up standing }
{
    match standing {
        Standing::Finished => Ok(()),
        Standing::Nothing | Standing::Draft(_) => Err(Complaint::CallBeforeSetUp),
    }
}
