// The name of a record, for lines that say nothing else that can be read.
ghost use Rattle.std.specs.Prelude.{◌≡◌};
ghost use Rattle.orders.specs.Naming.{begins};

use words::{next_word, record_text};

// Whether the first word of a line is this name.
pub fn begins_with(line: &[u8], name: &[u8]) -> bool
    ensures { result ≡ begins name.now line.now }
{
    let text = record_text(line);
    next_word(text, 0).is_some_and(|word| word.of(text) == name)
}
