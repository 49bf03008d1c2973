//! Stale marks as diagnostics.

ghost use Rattle.std.specs.Prelude.{◌≡◌, IfOk, map};
ghost use Rattle.msc_diagnostic.specs.Plain.{plain_mark, plain_note};
ghost use Rattle.msc_full.specs.Stale.{stale_marks, stale_notes, stale_text};

use crate::block::{BlockParts, note, parts_text};
use crate::event::ShownText;
use msc_diagnostic::{Level, Mark, Note, NoteKind, Sign};
use msc_wording::{stale_help, stale_sentence};
use std::alloc::{AllocError, Global};

/// A mark that accepts no race.
#[derive(Clone, Copy)]
pub struct StaleMark<'t> {
    /// The place of its first byte, from 0, and the place after its last.
    pub first: usize,
    pub past: usize,
    /// Its place, as it is printed: `FILE:LINE:COLUMN`.
    pub place: &'t str,
    /// Whether it belongs to an arrow or an event.
    pub has_arrow: bool,
}

/// The mark below it.
fn stale_marks(alloc: Global, stale: StaleMark<'_>) -> Result<Vec<Mark<'static>>, AllocError>
    ensures { IfOk result (λ marks. map plain_mark marks.items ≡ stale_marks stale.entry) }
{
    let mut marks = Vec::new(alloc);
    marks.push(Mark {
        first: stale.first,
        past: stale.past,
        sign: Sign::Caret,
        label: "",
    })?;
    Ok(marks)
}

/// What to do with it.
fn stale_notes(alloc: Global) -> Result<Vec<Note<'static>>, AllocError>
    ensures { IfOk result (λ notes. map plain_note notes.items ≡ stale_notes) }
{
    let mut notes = Vec::new(alloc);
    notes.push(note(NoteKind::Help, stale_help()))?;
    Ok(notes)
}

/// A stale mark as a diagnostic, with an empty row after it: that it accepts no race, or belongs to
/// nothing, in the line of the text, and what to do. The only error is want of memory.
pub fn stale_text(
    alloc: Global,
    text: ShownText<'_, '_>,
    stale: StaleMark<'_>,
) -> Result<Vec<u8>, AllocError>
    ensures { IfOk result (λ bytes. bytes.items ≡ stale_text text.entry stale.entry) }
{
    let marks = stale_marks(alloc, stale)?;
    let notes = stale_notes(alloc)?;
    let parts = BlockParts {
        level: Level::Warning,
        id: "stale",
        sentence: stale_sentence(stale.has_arrow),
        place: stale.place,
    };
    let bytes = parts_text(alloc, text, parts, marks.as_slice(), notes.as_slice())?;
    Ok(bytes)
}
