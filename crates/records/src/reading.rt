// Reads a line into a record.
// The first word names the record, and what stands says whether it may come now.
// A new record is a row here, a row in `record_named` of specs/Reading, and a reader.
ghost use Rattle.std.specs.Prelude.{◌≡◌};
ghost use Rattle.records.specs.Reading.{record_named, record_of};

use crate::complaints::Complaint;
use crate::cursor::Words;
use crate::drafts::{read_edge, read_graph, read_pair, read_set_up};
use crate::queries::{read_node, read_size, unknown};
use crate::values::{Record, Standing};
use words::{Span, next_word, record_text};

// The record of a line, or `None` where the line has no word.
pub fn read_record(line: &[u8], standing: Standing) -> Result<Option<Record>, Complaint>
    ensures { result ≡ record_of standing line.now }
{
    let text = record_text(line);
    let Some(word) = next_word(text, 0) else {
        return Ok(None);
    };
    let mut words = Words::new(text, word.end);
    record_named(&mut words, word, standing).map(Some)
}

// The record that a word names, with the words that follow it. What stands goes beside the words, as how a word is read does
// not depend on it.
fn record_named(words: &mut Words<'_>, word: Span, standing: Standing) -> Result<Record, Complaint>
    ensures { result ≡ record_named standing words.old word }
{
    // Found before the match: the proof does not close with a call in the last arm, nor with `b"edge" | b"e"`.
    let unknown = unknown(word, standing);
    match words.bytes(word) {
        b"case" => Ok(Record::Case(words.whole())),
        b"graph" => read_graph(words),
        b"pair" => read_pair(words, standing),
        b"edge" => read_edge(words, standing),
        b"e" => read_edge(words, standing),
        b"setup" => read_set_up(standing),
        b"out" => read_node(words, standing).map(Record::Out),
        b"into" => read_node(words, standing).map(Record::Into),
        b"size" => read_size(words, standing),
        _ => Err(unknown),
    }
}
