// Lines, words and numbers in the bytes of an order file.
// A result holds no reference: a part of a line is a `Span`, two places in it.
#![tactic(auto)]

mod numbers;
mod places;
mod spans;

pub use numbers::number;
pub use places::{line_end, next_word, record_text, trimmed};
pub use spans::Span;
