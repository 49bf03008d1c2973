//! The first fault of a text, in words.

ghost use Rattle.std.specs.Prelude.{◌≡◌, IfOk, drop, slice_index};
ghost use Rattle.std.specs.String.{string_bytes};
ghost use Rattle.msc_fault_words.specs.TextFaults.{bad_byte, between, byte_text, expected};
ghost use Rattle.msc_fault_words.specs.TextFaults.{expected_text, found_text, marked};
ghost use Rattle.msc_fault_words.specs.TextFaults.{lexical, long_name, long_name_text, open_part};
ghost use Rattle.msc_fault_words.specs.TextFaults.{parse, unexpected_text, unsupported};
ghost use Rattle.msc_fault_words.specs.TextFaults.{unsupported_text, wanted};

use crate::memory_words;
use crate::told::note_place;
use crate::words::{FaultWords, Span};
use msc_diagnostic::Sign;
use msc_lexer::LexFault;
use msc_notes::{FaultNotes, Note, Tag};
use msc_parser::{ParseFault, What};
use msc_speech::quoted;
use msc_spoken::shown;
use std::alloc::{AllocError, Global};

/// The bytes of a text from a place on.
fn rest_from(text: &[u8], at: usize) -> &[u8]
    ensures { result.now ≡ drop at text.now }
{
    &text[at.min(text.len())..]
}

/// The bytes of a span of a text.
fn between(text: &[u8], span: Span) -> &[u8]
    ensures { result.now ≡ between text.now span }
{
    let rest = rest_from(text, span.first);
    &rest[..span.past.saturating_sub(span.first).min(rest.len())]
}

/// The byte at a place, or 0 past the end.
fn byte_at(text: &[u8], at: usize) -> u8
    ensures { result ≡ slice_index text.now at }
{
    text.get(at).copied().unwrap_or(0)
}

/// A byte that begins no token: as a character if it is a visible one of ASCII, else by its number.
fn byte_text(alloc: Global, byte: u8) -> Result<String, AllocError>
    ensures { IfOk result (λ text. string_bytes text ≡ byte_text byte) }
{
    if byte > 32 && byte < 127 {
        let shown = shown(alloc, &[byte])?;
        let quoted = quoted(alloc, shown.as_str())?;
        return format!(in alloc; "character {quoted}");
    }
    format!(in alloc; "byte {byte}")
}

/// That a byte was not expected.
#[tactic(auto, unfolding(crate::specs::TextFaults::unexpected_text))]
fn unexpected_text(alloc: Global, byte: u8) -> Result<String, AllocError>
    ensures { IfOk result (λ text. string_bytes text ≡ unexpected_text byte) }
{
    let byte = byte_text(alloc, byte)?;
    format!(in alloc; "unexpected {byte}")
}

/// A byte that begins no token.
fn bad_byte(
    alloc: Global,
    text: &[u8],
    span: Span,
    notes: &[Note],
) -> Result<FaultWords, AllocError>
    ensures { IfOk result (λ words. words ≡ bad_byte text.now span notes.now) }
{
    let sentence = unexpected_text(alloc, byte_at(text, span.first))?;
    let mut words = FaultWords::new(alloc, "lexical 2", sentence);
    words.mark(span, Sign::Caret, "")?;
    words.hints(alloc, notes)?;
    Ok(words)
}

/// The words of a part without end; its help is printed unless a note has a hint.
#[derive(Clone, Copy)]
struct OpenPart {
    id: &'static str,
    sentence: &'static str,
    help: &'static str,
}

/// A note of a chart that has no end.
const OPEN_NOTE: OpenPart = OpenPart {
    id: "lexical 3",
    sentence: "this note has no end",
    help: "notes are /* .. */",
};

/// A text of a chart that has no end.
const OPEN_TEXT: OpenPart = OpenPart {
    id: "lexical 4",
    sentence: "this text has no end",
    help: "texts are '..'; an apostrophe inside is doubled",
};

/// A part that has no end.
fn open_part(
    alloc: Global,
    part: OpenPart,
    span: Span,
    notes: &[Note],
) -> Result<FaultWords, AllocError>
    ensures { IfOk result (λ words. words
        ≡ open_part part.id.now part.sentence.now part.help.now span notes.now) }
{
    let mut words = FaultWords::fixed(alloc, part.id, part.sentence)?;
    words.mark(span, Sign::Caret, "")?;
    words.hints(alloc, notes)?;
    words.or_help(alloc, part.help)?;
    Ok(words)
}

/// How long a name is.
#[tactic(auto, unfolding(crate::specs::TextFaults::long_name_text))]
fn long_name_text(alloc: Global, count: usize) -> Result<String, AllocError>
    ensures { IfOk result (λ text. string_bytes text ≡ long_name_text count) }
{
    format!(in alloc; "a name of {count} bytes; at most 64 are allowed")
}

/// A name that is too long.
fn long_name(alloc: Global, span: Span, notes: &[Note]) -> Result<FaultWords, AllocError>
    ensures { IfOk result (λ words. words ≡ long_name span notes.now) }
{
    let sentence = long_name_text(alloc, span.past.saturating_sub(span.first))?;
    let mut words = FaultWords::new(alloc, "lexical 5", sentence);
    words.mark(span, Sign::Caret, "")?;
    words.hints(alloc, notes)?;
    Ok(words)
}

/// A lexical fault. What is at its place ends before `past`.
fn lexical(
    alloc: Global,
    text: &[u8],
    fault: LexFault,
    past: usize,
    notes: &[Note],
) -> Result<FaultWords, AllocError>
    ensures { IfOk result (λ words. words ≡ lexical text.now past notes.now fault) }
{
    match fault {
        LexFault::TooLong => {
            let sentence = "the text is longer than 1048576 bytes";
            FaultWords::fixed(alloc, "lexical 1", sentence)
        }
        LexFault::BadByte(first) => bad_byte(alloc, text, Span { first, past }, notes),
        LexFault::OpenNote(first) => open_part(alloc, OPEN_NOTE, Span { first, past }, notes),
        LexFault::OpenText(first) => open_part(alloc, OPEN_TEXT, Span { first, past }, notes),
        LexFault::LongName(first) => long_name(alloc, Span { first, past }, notes),
        LexFault::Memory => memory_words(alloc),
    }
}

/// What was found: a token, or the end of the text.
fn found_text(alloc: Global, text: &[u8], token: Span) -> Result<String, AllocError>
    ensures { IfOk result (λ found. string_bytes found ≡ found_text text.now token) }
{
    if token.first >= text.len() {
        return String::from_str(alloc, "the end of the text");
    }
    if text[token.first] == b'\'' {
        return String::from_str(alloc, "a text");
    }
    let shown = shown(alloc, between(text, token))?;
    format!(in alloc; "\"{shown}\"")
}

/// That a word is not supported.
#[tactic(auto, unfolding(crate::specs::TextFaults::unsupported_text))]
fn unsupported_text(alloc: Global, found: &str) -> Result<String, AllocError>
    ensures { IfOk result (λ text. string_bytes text ≡ unsupported_text found.now) }
{
    format!(in alloc; "{found} is not supported")
}

/// A word that is not supported.
fn unsupported(
    alloc: Global,
    text: &[u8],
    token: Span,
    notes: &[Note],
) -> Result<FaultWords, AllocError>
    ensures { IfOk result (λ words. words ≡ unsupported text.now token notes.now) }
{
    let found = found_text(alloc, text, token)?;
    let sentence = unsupported_text(alloc, found.as_str())?;
    let mut words = FaultWords::new(alloc, "grammar 2", sentence);
    words.mark(token, Sign::Caret, "")?;
    words.hints(alloc, notes)?;
    Ok(words)
}

/// What was expected: marks and words of the text between quotes.
fn wanted(what: What) -> &'static str
    ensures { result.now ≡ wanted what }
{
    match what {
        What::Msc => "\"msc\"",
        What::Name => "a name",
        What::Text => "a text",
        What::End => "\";\"",
        What::Section => "a section",
        What::Item => "an item",
        What::Event => "an event",
        What::To => "\"to\"",
        What::From => "\"from\"",
        What::Parameter => "a parameter list",
        What::Nothing => "the end of the text",
    }
}

/// That one thing was expected, and another found.
#[tactic(auto, unfolding(crate::specs::TextFaults::expected_text))]
fn expected_text(alloc: Global, what: &str, found: &str) -> Result<String, AllocError>
    ensures { IfOk result (λ text. string_bytes text ≡ expected_text what.now found.now) }
{
    format!(in alloc; "expected {what}, found {found}")
}

/// A sentence, with the marks of what was found and, if it is on another line, of what precedes it.
fn marked(
    alloc: Global,
    sentence: String,
    token: Span,
    behind: Option<usize>,
) -> Result<FaultWords, AllocError>
    ensures { IfOk result (λ words. words ≡ marked (string_bytes sentence) token behind) }
{
    let mut words = FaultWords::new(alloc, "grammar 3", sentence);
    let Some(past) = behind else {
        words.mark(token, Sign::Caret, "")?;
        return Ok(words);
    };
    let first = past.saturating_sub(1);
    words.mark(token, Sign::Caret, "found here")?;
    words.mark(Span { first, past }, Sign::Dash, "expected behind this")?;
    Ok(words)
}

/// A token in place of which something else was expected.
fn expected(
    alloc: Global,
    text: &[u8],
    what: What,
    token: Span,
    notes: &[Note],
) -> Result<FaultWords, AllocError>
    ensures { IfOk result (λ words. words ≡ expected text.now what token notes.now) }
{
    let found = found_text(alloc, text, token)?;
    let sentence = expected_text(alloc, wanted(what), found.as_str())?;
    let mut words = marked(alloc, sentence, token, note_place(notes, Tag::Behind))?;
    words.hints(alloc, notes)?;
    Ok(words)
}

/// The first fault of a text in words. `told` are the notes on it, and `past` is the place after the
/// token at its place, or after the name that is too long. The only error is want of memory.
pub fn parse_words(
    alloc: Global,
    text: &[u8],
    fault: ParseFault,
    past: usize,
    told: &FaultNotes,
) -> Result<FaultWords, AllocError>
    ensures { IfOk result (λ words. words ≡ parse text.now past told.now.notes fault) }
{
    let notes = told.notes.as_slice();
    match fault {
        ParseFault::Lex(fault) => lexical(alloc, text, fault, past, notes),
        ParseFault::Unsupported(first, _) => {
            unsupported(alloc, text, Span { first, past }, notes)
        }
        ParseFault::Expected(first, what) => {
            expected(alloc, text, what, Span { first, past }, notes)
        }
        ParseFault::Memory => memory_words(alloc),
    }
}
