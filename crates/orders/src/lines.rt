// The lines of a text, one after the other, with their numbers.
ghost use Rattle.std.specs.Prelude.{◌≡◌, ◌≤◌, length};
ghost use Rattle.orders.specs.Lines.{Gives};

use words::line_end;

#[derive(Clone, Copy, PartialEq, Eq, Debug)]
pub struct Line<'a> {
    pub number: usize,
    pub text: &'a [u8],
}

// How far the text has been read: the next line begins at `at`, and `number` lines came before it. A place and not the rest
// of the text, since it bounds the number; and no `split`, which gives a piece after the last line feed, which is no line.
#[derive(Drop)]
pub struct Lines<'a> {
    text: &'a [u8],
    at: usize,
    number: usize,
    ghost counted: { number ≤ at },
    ghost within: { at ≤ length text.now },
}

impl<'a> Lines<'a> {
    pub fn new(text: &'a [u8]) -> Lines<'a>
        ensures text { result.text.now ≡ text.now }
        ensures at { result.at ≡ 0 }
        ensures number { result.number ≡ 0 }
    {
        Lines {
            text,
            at: 0,
            number: 0,
        }
    }
}

impl<'a> Iterator for Lines<'a> {
    type Item = Line<'a>;

    ghost use Rattle.std.specs.Prelude.{◌≡◌};
    ghost use Rattle.std.specs.Iterator.{at_most};
    ghost use Rattle.orders.specs.Lines.{Gives};
    ghost use Rattle.orders.specs.Unread.{unread};

    ghost next_gives = { λ s r t. (t.text.now ≡ s.text.now) × Gives s.text.now s.at s.number r t.at t.number };

    ghost remaining = { λ s. at_most (unread s) };

    // The next line, without its end.
    fn next(&mut self) -> Option<Line<'a>> {
        let text = self.text;
        let at = self.at;
        if at >= text.len() {
            return None;
        }
        let end = line_end(text, at);
        self.at = (end + 1).min(text.len());
        self.number += 1;
        Some(Line {
            number: self.number,
            text: &text[at..end],
        })
    }
}
