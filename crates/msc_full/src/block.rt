//! What the diagnostics of findings have in common.

ghost use Rattle.std.specs.Prelude.{◌≡◌, [], IfOk, map};
ghost use Rattle.msc_diagnostic.specs.Plain.{plain_mark, plain_note};
ghost use Rattle.msc_full.specs.Blocks.{block_of, block_text, events_of, mark_of, note_of};
ghost use Rattle.msc_full.specs.Blocks.{way_between};

use crate::event::{ShownEvent, ShownText};
use msc_chart::Event;
use msc_diagnostic::{Diagnostic, Level, Mark, Note, NoteKind, Sign, diagnostic_text};
use msc_wording::Way;
use std::alloc::{AllocError, Global};

/// Two events that can come in the other order, and the two whose order would prevent it.
#[derive(Clone, Copy)]
pub(crate) struct PairEvents<'t> {
    pub first: ShownEvent<'t>,
    pub second: ShownEvent<'t>,
    pub needed: ShownEvent<'t>,
    pub output: ShownEvent<'t>,
}

/// The numbers of such events.
#[derive(Clone, Copy)]
pub(crate) struct PairNumbers {
    pub first: Event,
    pub second: Event,
    pub needed: Event,
    pub output: Event,
}

/// The events of these numbers, if the text has them all.
pub(crate) fn events_of<'t>(
    events: &[ShownEvent<'t>],
    numbers: PairNumbers,
) -> Option<PairEvents<'t>>
    ensures { result ≡ events_of events.now numbers }
{
    let (Some(first), Some(second)) = (
        events.get(numbers.first as usize),
        events.get(numbers.second as usize),
    ) else {
        return None;
    };
    let (Some(needed), Some(output)) = (
        events.get(numbers.needed as usize),
        events.get(numbers.output as usize),
    ) else {
        return None;
    };
    Some(PairEvents {
        first: *first,
        second: *second,
        needed: *needed,
        output: *output,
    })
}

/// How the messages of two events arrive.
pub(crate) fn way_between(first: &ShownEvent<'_>, second: &ShownEvent<'_>) -> Way
    ensures { result ≡ way_between first.now second.now }
{
    Way::of(first.kind, second.kind, first.queue == second.queue)
}

/// The mark of an event.
pub(crate) fn mark<'l>(event: &ShownEvent<'_>, sign: Sign, label: &'l str) -> Mark<'l>
    ensures { plain_mark result ≡ mark_of event.now sign label.now }
{
    Mark {
        first: event.first,
        past: event.past,
        sign,
        label,
    }
}

/// A note of one row.
pub(crate) fn note<'n>(kind: NoteKind, text: &'n str) -> Note<'n>
    ensures { plain_note result ≡ note_of kind text.now [] }
{
    Note {
        kind,
        text,
        rows: &[],
    }
}

/// The parts of a diagnostic besides its marks and notes.
#[derive(Clone, Copy)]
pub(crate) struct BlockParts<'n> {
    pub level: Level,
    pub id: &'n str,
    pub sentence: &'n str,
    pub place: &'n str,
}

/// The text of the diagnostic with these parts.
pub(crate) fn parts_text(
    alloc: Global,
    text: ShownText<'_, '_>,
    parts: BlockParts<'_>,
    marks: &[Mark<'_>],
    notes: &[Note<'_>],
) -> Result<Vec<u8>, AllocError>
    ensures { IfOk result (λ bytes. bytes.items ≡ block_text text.entry (block_of
        parts.entry.level parts.entry.id.now parts.entry.sentence.now parts.entry.place.now
        (map plain_mark marks.now) (map plain_note notes.now))) }
{
    let diagnostic = Diagnostic {
        level: parts.level,
        id: parts.id,
        sentence: parts.sentence,
        place: Some(parts.place),
        marks,
        notes,
    };
    diagnostic_text(alloc, text.source, &diagnostic, text.colours)
}
