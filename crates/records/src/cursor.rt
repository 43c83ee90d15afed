// The words of a record, one after the other.
// A word is read as it stands, as a number or as a mask; each reading takes one word.
ghost use Rattle.std.specs.Prelude.{◌≡◌};
ghost use Rattle.words.specs.Places.{trim};
ghost use Rattle.records.specs.Words.{after, bytes_of, dash_or_mask_at, end_at, mask_at, mask_in, number_at, number_in, word_at};

use crate::complaints::Complaint;
use std::marker::Model;
use words::{Span, next_word, number, trimmed};

// The text of a record, and the place from which the next word is looked for. A place and not the rest of the text, since a
// word is a span of the whole text.
#[derive(Drop)]
pub(crate) struct Words<'a> {
    text: &'a [u8],
    at: usize,
}

impl<'a> Model for Words<'a> {
    ghost use Rattle.records.specs.Words.{Rest};

    ghost Value = { Rest };

    ghost view = { λ words. record { text = words.text.now; at = words.at } };
}

// Each reading says what it answers and, by `after`, what it leaves: two facts of one call.
impl<'a> Words<'a> {
    // The words of a text from a place on.
    pub(crate) fn new(text: &'a [u8], at: usize) -> Words<'a>
        ensures { result ≡ record { text = text.now; at = at } }
    {
        Words { text, at }
    }

    // The bytes of a word.
    pub(crate) fn bytes(&self, word: Span) -> &'a [u8]
        ensures { result.now ≡ bytes_of self.now word }
    {
        word.of(self.text)
    }

    // The next word.
    pub(crate) fn word(&mut self) -> Result<Span, Complaint>
        ensures value { result ≡ word_at self.old }
        ensures rest { self.new ≡ after self.old }
    {
        let word = next_word(self.text, self.at).ok_or(Complaint::WordMissing)?;
        self.at = word.end;
        Ok(word)
    }

    // The next word as a number. Apart from `mask`: a common one would take the reading as a closure, for two lines saved.
    pub(crate) fn number(&mut self) -> Result<u32, Complaint>
        ensures value { result ≡ number_at self.old }
        ensures rest { self.new ≡ after self.old }
    {
        let word = self.word()?;
        self.number_in(word)
    }

    // The next word as a mask.
    pub(crate) fn mask(&mut self) -> Result<u8, Complaint>
        ensures value { result ≡ mask_at self.old }
        ensures rest { self.new ≡ after self.old }
    {
        let word = self.word()?;
        self.mask_in(word)
    }

    // The next word as a mask, where `-` is none.
    pub(crate) fn dash_or_mask(&mut self) -> Result<Option<u8>, Complaint>
        ensures value { result ≡ dash_or_mask_at self.old }
        ensures rest { self.new ≡ after self.old }
    {
        let word = self.word()?;
        match self.bytes(word) {
            b"-" => Ok(None),
            _ => self.mask_in(word).map(Some),
        }
    }

    // The whole text without the blanks around it.
    pub(crate) fn whole(&self) -> Span
        ensures { result ≡ trim self.now.text }
    {
        trimmed(self.text)
    }

    // Complains where a word is left.
    pub(crate) fn end(&self) -> Result<(), Complaint>
        ensures { result ≡ end_at self.now }
    {
        next_word(self.text, self.at).map_or(Ok(()), |word| Err(Complaint::WordTooMany(word)))
    }

    // The number that a word writes.
    fn number_in(&self, word: Span) -> Result<u32, Complaint>
        ensures { result ≡ number_in self.now word }
    {
        number(self.bytes(word)).ok_or(Complaint::NoNumber(word))
    }

    // A number of at most 255.
    fn mask_in(&self, word: Span) -> Result<u8, Complaint>
        ensures { result ≡ mask_in self.now word }
    {
        let n = self.number_in(word)?;
        u8::try_from(n).map_err(|_| Complaint::MaskAbove255)
    }
}
