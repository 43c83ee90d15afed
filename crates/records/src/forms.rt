// The form of an edge in a feature graph.
// A name says which form it is, and after the name stand its masks and then its numbers.
ghost use Rattle.std.specs.Prelude.{◌≡◌};
ghost use Rattle.records.specs.Forms.{form_at, form_named, weak_at, weak_place_at};

use crate::complaints::Complaint;
use crate::cursor::Words;
use crate::values::Form;
use words::Span;

// The form whose name is the next word.
pub(crate) fn read_form(words: &mut Words<'_>) -> Result<Form, Complaint>
    ensures { result ≡ form_at words.old }
{
    let word = words.word()?;
    form_named(words, word)
}

// The form that a word names, with the words that follow it.
fn form_named(words: &mut Words<'_>, word: Span) -> Result<Form, Complaint>
    ensures { result ≡ form_named words.old word }
{
    match words.bytes(word) {
        b"named" => Ok(Form::Named),
        b"base" => Ok(Form::Base),
        b"section" => words.mask().map(Form::Section),
        b"colon" => words.mask().map(Form::Colon),
        b"strong" => words.mask().map(Form::Strong),
        b"weak" => read_weak(words),
        b"weakat" => read_weak_at(words),
        _ => Err(Complaint::UnknownForm(word)),
    }
}

// `weak REQ OPT REL PE`.
fn read_weak(words: &mut Words<'_>) -> Result<Form, Complaint>
    ensures { result ≡ weak_at words.old }
{
    let required = words.dash_or_mask()?;
    let optional = words.mask()?;
    let release = words.number()?;
    let package_edge = words.number()?;
    Ok(Form::Weak {
        required,
        optional,
        release,
        package_edge,
    })
}

// `weakat REQ OPT INDEX`.
fn read_weak_at(words: &mut Words<'_>) -> Result<Form, Complaint>
    ensures { result ≡ weak_place_at words.old }
{
    let required = words.dash_or_mask()?;
    let optional = words.mask()?;
    let index = words.number()?;
    Ok(Form::WeakAt {
        required,
        optional,
        index,
    })
}
