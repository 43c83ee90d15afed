// A part of a line, as two places in it.
// So what is read from a line is plain data, and the text is looked up where it is wanted.
ghost use Rattle.std.specs.Prelude.{◌≡◌};
ghost use Rattle.std.specs.List.{between};

// The bytes from `start` on, before `end`: std's `Range` would not be `Copy`, nor what holds one.
#[derive(Clone, Copy, PartialEq, Eq, Debug)]
pub struct Span {
    pub start: usize,
    pub end: usize,
}

impl Span {
    // The bytes of this part, as far as the line has them.
    pub fn of<'a>(self, line: &'a [u8]) -> &'a [u8]
        ensures { result.now ≡ between self.start self.end line.now }
    {
        let end = self.end.min(line.len());
        let start = self.start.min(end);
        &line[start..end]
    }
}
