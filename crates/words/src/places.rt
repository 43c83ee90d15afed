// Where lines, records and words begin and end.
// A line ends before the byte 10, its record before a `#`, and words are parted by blanks.
ghost use Rattle.std.specs.Prelude.{length, ◌≤◌, ◌≡◌, not, MatchOption, nat_eq, ℕ, Bool};
ghost use Rattle.words.specs.Places.{First, Tests, IsWord, NoWord, blank, first_at, line_end, record_text, trim, trim_end, word_start, word_end, word_from};

use crate::spans::Span;

// Whether the byte parts words.
fn is_blank(byte: u8) -> bool
    ensures { result ≡ blank byte }
{
    matches!(byte, 9..=13 | 32)
}

// The first place at or after `from` whose byte passes the test, or the end.
fn first_at<F: Fn(u8) -> bool>(text: &[u8], from: usize, passes: F) -> usize
    requires { F.IsAlwaysCallable passes }
    ensures within { result ≤ length text.now }
    ensures value { (test : ℕ → Bool) → Tests (F.post passes) test → result ≡ first_at test text.now from }
{
    let from = from.min(text.len());
    let rest = &text[from..];
    from + rest
        .iter()
        .position(|byte| passes(*byte))
        .unwrap_or(rest.len())
}

// Where the line ends that goes through `from`: at the byte 10, or at the end of the text.
pub fn line_end(text: &[u8], from: usize) -> usize
    ensures value { result ≡ line_end text.now from }
    ensures first { First (λ b. nat_eq b 10) text.now from result }
{
    first_at(text, from, |byte| byte == b'\n')
}

// The line without its comment, which a `#` begins.
pub fn record_text(line: &[u8]) -> &[u8]
    ensures { result.now ≡ record_text line.now }
{
    let end = first_at(line, 0, |byte| byte == b'#');
    &line[0..end]
}

// The first word that begins at or after `from`.
pub fn next_word(text: &[u8], from: usize) -> Option<Span>
    ensures value { result ≡ word_from text.now from }
    ensures word { MatchOption result (NoWord text.now from) (IsWord text.now from) }
{
    let start = first_at(text, from, |byte| !is_blank(byte));
    if start == text.len() {
        return None;
    }
    let end = first_at(text, start, is_blank);
    Some(Span { start, end })
}

// The text without the blanks before and after it.
pub fn trimmed(text: &[u8]) -> Span
    ensures { result ≡ trim text.now }
{
    let start = first_at(text, 0, |byte| !is_blank(byte));
    let end = trimmed_end(text).max(start);
    Span { start, end }
}

// Where the blanks begin that the text ends with.
fn trimmed_end(text: &[u8]) -> usize
    ensures { result ≡ trim_end text.now }
{
    let blanks = text
        .iter()
        .rev()
        .take_while(|byte| is_blank(**byte))
        .count();
    text.len() - blanks
}
