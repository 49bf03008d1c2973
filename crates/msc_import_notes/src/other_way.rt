//! The hint on a text that is read as a chart, and is a sequence diagram.

ghost use Rattle.std.specs.Prelude.{◌≡◌, IfOk};
ghost use Rattle.msc_import_notes.specs.Plain.{is_sequence_diagram};

use crate::hints::hint;
use listed::Listed;
use msc_markdown::Markdown;
use msc_mermaid::ImportFault;
use msc_notes::{FaultNotes, Note, Tag};
use std::alloc::{AllocError, Global};

/// Whether a text is a sequence diagram, by the first of its lines that counts, or is Markdown that
/// has one. The only error is want of memory.
pub fn is_sequence_diagram(alloc: Global, text: &[u8]) -> Result<bool, AllocError>
    ensures { IfOk result (λ is. is ≡ is_sequence_diagram text.now) }
{
    match Markdown::of(alloc, text) {
        Ok(found) => Ok(found.is_diagram() || !found.numbers().is_empty()),
        Err(ImportFault::Memory) => Err(AllocError),
        Err(_) => Ok(false),
    }
}

/// The notes with this hint in place of others: after what was found, and before the rest.
fn with_hint(alloc: Global, notes: Vec<Note>, words: &[u8]) -> Result<Vec<Note>, AllocError> {
    let mut first = Vec::new(alloc);
    let mut rest = Vec::new(alloc);
    for note in notes {
        match note.tag {
            Tag::Found => first.push(note)?,
            Tag::Hint => drop(note),
            _ => rest.push(note)?,
        }
    }
    hint(alloc, &mut first, words)?;
    for note in rest {
        first.push(note)?;
    }
    Ok(first)
}

/// The notes on the first fault of a text that was read as a chart and is a sequence diagram: that
/// it is one, and which command reads it, in place of other hints. The only error is want of
/// memory.
pub fn tell_other_way(
    alloc: Global,
    fault_notes: FaultNotes,
    is_check: bool,
) -> Result<FaultNotes, AllocError>
    ensures { IfOk result (λ other. other.place ≡ fault_notes.place) }
{
    let words: &[u8] = if is_check {
        b"this is a sequence diagram of Mermaid: --from any reads it"
    } else {
        b"this is a sequence diagram of Mermaid: msc import makes a chart of it"
    };
    let FaultNotes { place, notes } = fault_notes;
    let notes = with_hint(alloc, notes.into_vec(), words)?;
    Ok(FaultNotes {
        place,
        notes: Listed::from_vec(notes),
    })
}
