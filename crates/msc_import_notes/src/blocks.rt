//! Notes on the blocks of a text of Markdown.

ghost use Rattle.std.specs.Prelude.{◌≡◌, IfOk};

use crate::hints::{hint, what_stands, worded};
use listed::Listed;
use msc_markdown::Markdown;
use msc_mermaid::{Expectation, ImportFault};
use msc_notes::{FaultNotes, Note, Tag};
use std::alloc::{AllocError, Global};

/// The greatest number of numbers in a hint.
const NUMBERS: usize = 20;

/// Appends the hint on the numbers of a text's sequence diagrams to notes, if it has some.
fn put_numbers(alloc: Global, notes: &mut Vec<Note>, numbers: &[usize]) -> Result<(), AllocError> {
    let Some((first, more)) = numbers.split_first() else {
        return Ok(());
    };
    let mut digits = itoa::Buffer::new();
    let mut words = Vec::from_slice(alloc, b"there ")?;
    if more.is_empty() {
        words.extend_from_slice(b"is one diagram")?;
    } else {
        words.extend_from_slice(b"are ")?;
        words.extend_from_slice(digits.format(numbers.len()).as_bytes())?;
        words.extend_from_slice(b" diagrams")?;
    }
    words.extend_from_slice(b" here: --fence ")?;
    words.extend_from_slice(digits.format(*first).as_bytes())?;
    for number in more.iter().take(NUMBERS - 1) {
        words.extend_from_slice(b", ")?;
        words.extend_from_slice(digits.format(*number).as_bytes())?;
    }
    if numbers.len() > NUMBERS {
        words.extend_from_slice(b", ..")?;
    }
    hint(alloc, notes, words.as_slice())
}

/// Whether the text has blocks, and none of them is a sequence diagram.
fn has_others(found: &Markdown<'_>, fence: Option<usize>) -> bool {
    let is_markdown = fence.is_some() || !found.is_diagram();
    is_markdown && found.numbers().is_empty() && !found.blocks().is_empty()
}

/// Whether a fault is that no diagram begins.
fn begins_none(fault: ImportFault) -> bool {
    match fault {
        ImportFault::Expected(_, what) => {
            matches!(what, Expectation::AnyDiagram | Expectation::Diagram)
        }
        _ => false,
    }
}

/// Whether the numbers of the text's sequence diagrams help.
fn asks_number(found: &Markdown<'_>, fence: Option<usize>, fault: ImportFault) -> bool {
    match (fault, fence) {
        (ImportFault::NoDiagram(_) | ImportFault::SeveralDiagrams(_), _) => true,
        (_, Some(number)) => !found.numbers().contains(&number),
        (_, None) => false,
    }
}

/// The notes on a fault, with further ones on the blocks of its text, if a block is requested by
/// its number, or none is. The only error is want of memory.
pub fn with_block_notes(
    alloc: Global,
    found: &Markdown<'_>,
    fence: Option<usize>,
    fault: ImportFault,
    fault_notes: FaultNotes,
) -> Result<FaultNotes, AllocError>
    ensures place { IfOk result (λ t. t.place ≡ fault_notes.place) }
{
    let FaultNotes { place, notes } = fault_notes;
    let mut notes = notes.into_vec();
    if begins_none(fault) && has_others(found, fence) {
        hint(
            alloc,
            &mut notes,
            b"no block of this text is a sequence diagram",
        )?;
    }
    if asks_number(found, fence, fault) {
        put_numbers(alloc, &mut notes, found.numbers())?;
    }
    Ok(FaultNotes {
        place,
        notes: Listed::from_vec(notes),
    })
}

/// The notes on a fault of the text of a block, with the bytes as they are in the whole text, whose
/// places are the same. The only error is want of memory.
pub fn with_whole_lines(
    alloc: Global,
    whole: &[u8],
    block: &[u8],
    fault_notes: FaultNotes,
) -> Result<FaultNotes, AllocError>
    ensures place { IfOk result (λ t. t.place ≡ fault_notes.place) }
{
    let FaultNotes { place, notes } = fault_notes;
    let Some(at) = place else {
        return Ok(FaultNotes { place, notes });
    };
    let before = what_stands(alloc, block, at)?;
    let mut kept = Vec::new(alloc);
    for note in notes.into_vec() {
        if matches!(note.tag, Tag::Found) && note.text.as_slice() == before.as_slice() {
            kept.push(worded(Tag::Found, what_stands(alloc, whole, at)?))?;
        } else {
            kept.push(note)?;
        }
    }
    Ok(FaultNotes {
        place,
        notes: Listed::from_vec(kept),
    })
}
