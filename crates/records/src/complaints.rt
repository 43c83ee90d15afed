// What is wrong with a line.
// Where a word is wrong, the complaint has its place in the line, and the text of the complaint ends before that word.
ghost use Rattle.std.specs.Prelude.{◌≡◌, Some};
ghost use Rattle.records.specs.Complaints.{why_text, wrong_word};

use std::fmt;
use words::Span;

#[derive(Clone, Copy, PartialEq, Eq, Debug)]
pub enum Complaint {
    WordMissing,
    NoNumber(Span),
    MaskAbove255,
    UnknownKind(Span),
    UnknownForm(Span),
    UnknownCall(Span),
    WordTooMany(Span),
    EdgeWithoutGraph,
    PairWithoutFeatureDraft,
    SetUpWithoutGraph,
    CallBeforeSetUp,
}

impl Complaint {
    // The word that is wrong.
    pub fn word(self) -> Option<Span>
        ensures { result ≡ wrong_word self }
    {
        match self {
            Complaint::NoNumber(word)
            | Complaint::UnknownKind(word)
            | Complaint::UnknownForm(word)
            | Complaint::UnknownCall(word)
            | Complaint::WordTooMany(word) => Some(word),
            Complaint::WordMissing
            | Complaint::MaskAbove255
            | Complaint::EdgeWithoutGraph
            | Complaint::PairWithoutFeatureDraft
            | Complaint::SetUpWithoutGraph
            | Complaint::CallBeforeSetUp => None,
        }
    }
}

impl fmt::Display for Complaint {
    ghost output = { λ complaint. Some (why_text complaint) };

    fn fmt<W: fmt::Write>(&self, f: &mut fmt::Formatter<W>) -> fmt::Result {
        f.write_str(match self {
            Complaint::WordMissing => "word missing",
            Complaint::NoNumber(_) => "no number: ",
            Complaint::MaskAbove255 => "mask above 255",
            Complaint::UnknownKind(_) => "unknown kind: ",
            Complaint::UnknownForm(_) => "unknown form: ",
            Complaint::UnknownCall(_) => "unknown call: ",
            Complaint::WordTooMany(_) => "word too many: ",
            Complaint::EdgeWithoutGraph => "edge without a graph",
            Complaint::PairWithoutFeatureDraft => "pair without a feature draft",
            Complaint::SetUpWithoutGraph => "set-up without a graph",
            Complaint::CallBeforeSetUp => "call before set-up",
        })
    }
}
