//! A refusal as a diagnostic.

ghost use Rattle.std.specs.Prelude.{◌≡◌, IfOk, map};
ghost use Rattle.std.specs.Option.{option_copied};
ghost use Rattle.std.specs.String.{string_bytes};
ghost use Rattle.msc_diagnostic.specs.Plain.{plain_note};
ghost use Rattle.msc_fault_words.specs.Printing.{help_note, words_text};

use crate::words::FaultWords;
use msc_diagnostic::{Diagnostic, Level, Note, NoteKind, Source, diagnostic_text};
use std::alloc::{AllocError, Global};

/// A help as a note.
fn help_note(text: &str) -> Note<'_>
    ensures { plain_note result ≡ help_note text.now }
{
    Note {
        kind: NoteKind::Help,
        text,
        rows: &[],
    }
}

/// The helps as notes.
fn help_notes<'n>(alloc: Global, helps: &'n [String]) -> Result<Vec<Note<'n>>, AllocError>
    ensures { IfOk result (λ notes. map plain_note notes.items
        ≡ map help_note (map string_bytes helps.now)) }
{
    let mut notes = Vec::new(alloc);
    for help in helps {
        notes.push(help_note(help.as_str()))?;
    }
    Ok(notes)
}

/// A refusal as a diagnostic on a text, with an empty row after it; with colours if requested. `place`
/// is the place of its first mark as it is printed, or the file if it has no marks, or nothing. The only
/// error is want of memory.
pub fn words_text(
    alloc: Global,
    source: &Source<'_>,
    place: Option<&str>,
    words: &FaultWords,
    colours: bool,
) -> Result<Vec<u8>, AllocError>
    ensures { IfOk result (λ text. text.items ≡ words_text colours source.now.ends
        source.now.text.now (option_copied place.entry) words.now) }
{
    let notes = help_notes(alloc, words.helps.as_slice())?;
    let diagnostic = Diagnostic {
        level: Level::Error,
        id: words.id,
        sentence: words.sentence.as_str(),
        place,
        marks: words.marks.as_slice(),
        notes: notes.as_slice(),
    };
    let text = diagnostic_text(alloc, source, &diagnostic, colours)?;
    Ok(text)
}
