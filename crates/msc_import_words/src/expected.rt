//! What was expected in a diagram, in words.

ghost use Rattle.std.specs.Prelude.{◌≡◌, IfOk, drop, option_map, take};
ghost use Rattle.std.specs.String.{string_bytes};
ghost use Rattle.msc_import_words.specs.Expected.{expected_text, found_in, is_end};
ghost use Rattle.msc_import_words.specs.Expected.{is_kind_hint, kind_text, kind_word, last_bytes};
ghost use Rattle.msc_import_words.specs.Expected.{kind_sentence, other_text, quoted, wanted};
ghost use Rattle.msc_fault_words.specs.Told.{shown_bytes};

use msc_fault_words::{has_tag, note_text};
use msc_mermaid::Expectation;
use msc_notes::{Note, Tag};
use msc_spoken::shown;
use std::alloc::{AllocError, Global};

/// What follows the kind of a text in the hint that it is no sequence diagram.
const NO_DIAGRAM: &[u8] = b" is no sequence diagram";

/// The last bytes of a text, as many as of [`NO_DIAGRAM`].
fn last_bytes(text: &[u8]) -> &[u8]
    ensures { result.now ≡ last_bytes text.now }
{
    &text[text.len().saturating_sub(NO_DIAGRAM.len())..]
}

/// Whether a note says of which other kind a text is.
pub(crate) fn is_kind_hint(note: &Note) -> bool
    ensures { result ≡ is_kind_hint note.now }
{
    has_tag(note, Tag::Hint) && last_bytes(note.text.as_slice()) == NO_DIAGRAM
}

/// The word for the kind of a text, if a note says it.
fn kind_word(notes: &[Note]) -> Option<&[u8]>
    ensures { option_map (λ word. word.now) result ≡ kind_word notes.now }
{
    match notes.iter().find(|note| is_kind_hint(note)) {
        Some(note) => {
            let text = note.text.as_slice();
            Some(&text[..text.len().saturating_sub(NO_DIAGRAM.len())])
        }
        None => None,
    }
}

/// A text between double quotes.
pub(crate) fn quoted(alloc: Global, text: &str) -> Result<String, AllocError>
    ensures { IfOk result (λ said. string_bytes said ≡ quoted text.now) }
{
    format!(in alloc; "\"{text}\"")
}

/// What was expected: signs and words of the text between quotes.
fn wanted(what: Expectation) -> &'static str
    ensures { result.now ≡ wanted what }
{
    match what {
        Expectation::Front => "\"---\"",
        Expectation::Directive => "\"}%%\"",
        Expectation::Description => "\"}\"",
        Expectation::LineEnd => "the end of the line",
        Expectation::StatementEnd => "the end of the statement",
        Expectation::AnyDiagram => "a diagram",
        Expectation::Diagram => "\"sequenceDiagram\"",
        Expectation::Statement => "a statement",
        Expectation::Name => "a name",
        Expectation::Label => "a label",
    }
}

/// Whether the end of a line or of the text was found.
fn is_end(found: &str) -> bool
    ensures { result ≡ is_end found.now }
{
    found == "the end of the line" || found == "the end of the text"
}

/// What was found, by the notes.
fn found_in(alloc: Global, notes: &[Note]) -> Result<String, AllocError>
    ensures { IfOk result (λ found. string_bytes found ≡ found_in notes.now) }
{
    let found = shown(alloc, note_text(notes, Tag::Found))?;
    if is_end(found.as_str()) {
        return Ok(found);
    }
    quoted(alloc, found.as_str())
}

/// That one thing was expected, and another found.
#[tactic(auto, unfolding(crate::specs::Expected::other_text))]
fn other_text(alloc: Global, what: &str, found: &str) -> Result<String, AllocError>
    ensures { IfOk result (λ text. string_bytes text ≡ other_text what.now found.now) }
{
    format!(in alloc; "expected {what}, found {found}")
}

/// That a text is of another kind.
#[tactic(auto, unfolding(crate::specs::Expected::kind_text))]
fn kind_text(alloc: Global, word: &str) -> Result<String, AllocError>
    ensures { IfOk result (λ text. string_bytes text ≡ kind_text word.now) }
{
    format!(in alloc; "\"{word}\" is no sequence diagram")
}

/// That a part of a diagram was expected, or that the text is of another kind.
fn kind_sentence(alloc: Global, what: Expectation, notes: &[Note]) -> Result<String, AllocError>
    ensures { IfOk result (λ text. string_bytes text
        ≡ kind_sentence what notes.now (kind_word notes.now)) }
{
    if let Some(word) = kind_word(notes) {
        let word = shown(alloc, word)?;
        return kind_text(alloc, word.as_str());
    }
    let found = found_in(alloc, notes)?;
    other_text(alloc, wanted(what), found.as_str())
}

/// That a part of a diagram was expected.
pub(crate) fn expected_text(
    alloc: Global,
    what: Expectation,
    notes: &[Note],
) -> Result<String, AllocError>
    ensures { IfOk result (λ text. string_bytes text ≡ expected_text notes.now what) }
{
    match what {
        Expectation::Statement => {
            String::from_str(alloc, "this is no statement of a sequence diagram")
        }
        Expectation::Label => String::from_str(alloc, "this arrow has no label"),
        _ => kind_sentence(alloc, what, notes),
    }
}
