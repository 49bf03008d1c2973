//! Faults of imports, in words.

ghost use Rattle.std.specs.Prelude.{◌≡◌, IfOk, OnOk};
ghost use Rattle.std.specs.String.{string_bytes};
ghost use Rattle.msc_import_words.specs.Imports.{fault_id, import, import_help, import_helps};
ghost use Rattle.msc_import_words.specs.Imports.{marked, meant_text, sentence_of};
ghost use Rattle.msc_fault_words.specs.Words.{with_helps};

use crate::expected::{expected_text, is_kind_hint};
use crate::sentence::{
    choice_text, choices_text, diagrams_text, entity_text, head_text, none_text, outside_text,
    scenarios_text, several_text, shared_text,
};
use msc_diagnostic::Sign;
use msc_fault_words::{FaultWords, Span, has_tag, note_place};
use msc_mermaid::ImportFault;
use msc_notes::{FaultNotes, Note, Tag};
use msc_spoken::shown;
use std::alloc::{AllocError, Global};

/// The stage and the number of a fault.
fn fault_id(fault: ImportFault) -> &'static str
    ensures { result.now ≡ fault_id fault }
{
    match fault {
        ImportFault::TooLong => "import 1",
        ImportFault::Expected(_, _) => "import 2",
        ImportFault::Unsupported(_, _) | ImportFault::Entity(_) => "import 3",
        ImportFault::Unended(_) => "import 4",
        ImportFault::Outside(_, _) | ImportFault::Stray(_) => "import 5",
        ImportFault::TooDeep(_) => "import 6",
        ImportFault::TooManyLines(_) => "import 7",
        ImportFault::TooManyScenarios(_) => "import 11",
        ImportFault::Several(_) => "import 12",
        ImportFault::Choice(_, _, _) => "import 13",
        ImportFault::TooManyChoices(_, _) => "import 14",
        ImportFault::TooManyArrows(_) => "import 15",
        ImportFault::Shared(_, _) => "import 16",
        ImportFault::NoDiagram(_) => "import 17",
        ImportFault::SeveralDiagrams(_) => "import 20",
        ImportFault::Memory => "memory",
    }
}

/// The sentence of a fault. `name` is the name in it, if it has one.
fn sentence_of(
    alloc: Global,
    fault: ImportFault,
    name: &[u8],
    notes: &[Note],
) -> Result<String, AllocError>
    ensures { IfOk result (λ text. string_bytes text ≡ sentence_of name.now notes.now fault) }
{
    let fixed = match fault {
        ImportFault::Expected(_, what) => return expected_text(alloc, what, notes),
        ImportFault::Unsupported(_, head) => return head_text(alloc, head),
        ImportFault::Entity(_) => return entity_text(alloc, name),
        ImportFault::Outside(_, word) => return outside_text(alloc, word),
        ImportFault::TooManyScenarios(limit) => return scenarios_text(alloc, limit),
        ImportFault::Several(count) => return several_text(alloc, count),
        ImportFault::Choice(_, choice, most) => return choice_text(alloc, choice, most),
        ImportFault::TooManyChoices(given, met) => return choices_text(alloc, given, met),
        ImportFault::Shared(_, _) => return shared_text(alloc, name),
        ImportFault::NoDiagram(number) => return none_text(alloc, number),
        ImportFault::SeveralDiagrams(count) => return diagrams_text(alloc, count),
        ImportFault::TooLong => "text longer than 1048576 bytes",
        ImportFault::Unended(_) => "this block has no end",
        ImportFault::Stray(_) => "\"sequenceDiagram\" stands outside of its block",
        ImportFault::TooDeep(_) => "more than 10 blocks inside each other",
        ImportFault::TooManyLines(_) => "more than 32 instances",
        ImportFault::TooManyArrows(_) => "more than 1024 arrows",
        ImportFault::Memory => "out of memory",
    };
    String::from_str(alloc, fixed)
}

/// A sentence with the marks of a fault: at its place, where a part begins that has no end, and at the
/// block that is open.
fn marked(
    alloc: Global,
    id: &'static str,
    sentence: String,
    told: &FaultNotes,
    spans: &[Span],
) -> Result<FaultWords, AllocError>
    ensures { IfOk result (λ words. words ≡ marked id.now (string_bytes sentence)
        told.now.place told.now.notes spans.now) }
{
    let notes = told.notes.as_slice();
    let opened = note_place(notes, Tag::Opened);
    let inside = note_place(notes, Tag::Inside);
    let mut words = FaultWords::new(alloc, id, sentence);
    words.mark_at(spans, told.place, Sign::Caret, "")?;
    words.mark_at(spans, opened, Sign::Dash, "opened here")?;
    words.mark_at(spans, inside, Sign::Dash, "this block is open")?;
    Ok(words)
}

/// The question whether a word was meant.
#[tactic(auto, unfolding(crate::specs::Imports::meant_text))]
fn meant_text(alloc: Global, word: &[u8]) -> Result<String, AllocError>
    ensures { IfOk result (λ text. string_bytes text ≡ meant_text word.now) }
{
    let word = shown(alloc, word)?;
    format!(in alloc; "is \"{word}\" meant?")
}

/// Adds the help of a note, if it has one: a hint, or the word that was probably meant. The hint that a
/// text is of another kind is its sentence.
fn help_of(alloc: Global, words: &mut FaultWords, note: &Note) -> Result<(), AllocError>
    ensures { OnOk result (words.new ≡ with_helps words.old (import_help note.now)) }
{
    if has_tag(note, Tag::Nearest) {
        return words.help(meant_text(alloc, note.text.as_slice())?);
    }
    if has_tag(note, Tag::Hint) && !is_kind_hint(note) {
        return words.help(shown(alloc, note.text.as_slice())?);
    }
    Ok(())
}

/// Adds the helps of notes.
fn help_all(alloc: Global, words: &mut FaultWords, notes: &[Note]) -> Result<(), AllocError>
    ensures { OnOk result (words.new ≡ with_helps words.old (import_helps notes.now)) }
{
    for note in notes {
        help_of(alloc, words, note)?;
    }
    Ok(())
}

/// Why a text is not imported, in words. `name` is the name of the fault, if it has one; `told` are the
/// notes on it; and `spans` are what is underlined at its place and at those of its notes, in any order.
/// The only error is want of memory.
pub fn import_words(
    alloc: Global,
    fault: ImportFault,
    name: &[u8],
    told: &FaultNotes,
    spans: &[Span],
) -> Result<FaultWords, AllocError>
    ensures { IfOk result (λ words. words
        ≡ import name.now told.now.place told.now.notes spans.now fault) }
{
    let notes = told.notes.as_slice();
    let sentence = sentence_of(alloc, fault, name, notes)?;
    let mut words = marked(alloc, fault_id(fault), sentence, told, spans)?;
    help_all(alloc, &mut words, notes)?;
    Ok(words)
}
