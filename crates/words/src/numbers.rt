// The number that a word writes.
// It is read as Rust reads a `u32`: a `+` may stand before the digits.
ghost use Rattle.std.specs.Prelude.{◌≡◌};
ghost use Rattle.words.specs.Numbers.{number_of};

use std::str::from_utf8;

// The number below 2 ^ 32 that the word writes, if it writes one.
pub fn number(word: &[u8]) -> Option<u32>
    ensures { result ≡ number_of word.now }
{
    let text = from_utf8(word).ok()?;
    text.parse().ok()
}
