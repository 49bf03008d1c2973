//! Rings of events that wait for each other, as diagnostics.

ghost use Rattle.std.specs.Prelude.{◌≡◌, IfOk, map};
ghost use Rattle.std.specs.List.{filter_map};
ghost use Rattle.std.specs.String.{string_bytes};
ghost use Rattle.msc_diagnostic.specs.Plain.{plain_mark, plain_note};
ghost use Rattle.msc_full.specs.Blocks.{texts_of};
ghost use Rattle.msc_full.specs.Rings.{known_step, never_text, notes_of, ring_marks, ring_order};
ghost use Rattle.msc_full.specs.Rings.{ring_text, spoken_step, step_texts, text_from, waiting_text};

use crate::block::{BlockParts, mark, note, parts_text, way_between};
use crate::event::{ShownEvent, ShownText};
use crate::step::{ShownStep, StepOrder};
use msc_diagnostic::{Level, Mark, Note, NoteKind, Sign};
use msc_wording::{RingOrder, SpokenRingStep, never_sentence, ring_notes};
use std::alloc::{AllocError, Global};

/// The number of events of a ring that are marked.
const MARKS: usize = 8;

/// A step with its events.
#[derive(Clone, Copy)]
struct EventStep<'t> {
    first: ShownEvent<'t>,
    second: ShownEvent<'t>,
    order: StepOrder,
}

/// A step with its events, if the text has both.
fn known_step<'t>(events: &[ShownEvent<'t>], step: ShownStep) -> Option<EventStep<'t>>
    ensures { result ≡ known_step events.now step }
{
    let (Some(first), Some(second)) = (
        events.get(step.first as usize),
        events.get(step.second as usize),
    ) else {
        return None;
    };
    Some(EventStep {
        first: *first,
        second: *second,
        order: step.order,
    })
}

/// The steps with their events, without those of which the text lacks an event.
fn known_steps<'t>(
    alloc: Global,
    events: &[ShownEvent<'t>],
    steps: &[ShownStep],
) -> Result<Vec<EventStep<'t>>, AllocError>
    ensures { IfOk result (λ known. known.items ≡ filter_map (known_step events.now) steps.now) }
{
    steps
        .iter()
        .filter_map(|step| known_step(events, *step))
        .collect(alloc)
}

/// Why the first event of a step has to come first, as sentences tell it.
fn ring_order(step: &EventStep<'_>) -> RingOrder
    ensures { result ≡ ring_order step.now step.now.order }
{
    match step.order {
        StepOrder::Sent => RingOrder::Sent,
        StepOrder::Drawn => RingOrder::Drawn,
        StepOrder::Queued => RingOrder::Queued(way_between(&step.first, &step.second)),
    }
}

/// A step, as sentences name it.
fn spoken_step<'t>(step: &EventStep<'t>) -> SpokenRingStep<'t>
    ensures { result ≡ spoken_step step.now }
{
    SpokenRingStep {
        first: step.first.spoken,
        second: step.second.spoken,
        order: ring_order(step),
    }
}

/// The steps, as sentences name them.
fn spoken_steps<'t>(
    alloc: Global,
    steps: &[EventStep<'t>],
) -> Result<Vec<SpokenRingStep<'t>>, AllocError>
    ensures { IfOk result (λ spoken. spoken.items ≡ map spoken_step steps.now) }
{
    let mut spoken = Vec::new(alloc);
    for step in steps {
        spoken.push(spoken_step(step))?;
    }
    Ok(spoken)
}

/// The marks of a ring: a caret at its first event, and a dash at each of the next seven.
fn ring_marks(
    alloc: Global,
    first: &ShownEvent<'_>,
    others: &[EventStep<'_>],
) -> Result<Vec<Mark<'static>>, AllocError>
    ensures { IfOk result (λ marks.
        map plain_mark marks.items ≡ ring_marks first.now others.now) }
{
    let count = others.len().min(MARKS - 1);
    let mut marks = Vec::new(alloc);
    marks.push(mark(first, Sign::Caret, ""))?;
    for step in &others[..count] {
        marks.push(mark(&step.first, Sign::Dash, ""))?;
    }
    Ok(marks)
}

/// A note of each of these texts.
fn notes_of<'n>(alloc: Global, texts: &'n [String]) -> Result<Vec<Note<'n>>, AllocError>
    ensures { IfOk result (λ notes. map plain_note notes.items
        ≡ notes_of (map string_bytes texts.now)) }
{
    let mut notes = Vec::new(alloc);
    for text in texts {
        notes.push(note(NoteKind::Note, text.as_str()))?;
    }
    Ok(notes)
}

/// The id and the sentence of a ring.
#[derive(Clone, Copy)]
struct RingWords {
    id: &'static str,
    sentence: &'static str,
}

/// The text of the diagnostic of a ring that begins with this event; `others` are its steps after
/// the first.
fn text_from(
    alloc: Global,
    text: ShownText<'_, '_>,
    words: RingWords,
    first: &ShownEvent<'_>,
    others: &[EventStep<'_>],
    notes: &[Note<'_>],
) -> Result<Vec<u8>, AllocError>
    ensures { IfOk result (λ bytes. bytes.items ≡ text_from text.entry words.id.now
        words.sentence.now first.now others.now (map plain_note notes.now)) }
{
    let marks = ring_marks(alloc, first, others)?;
    let parts = BlockParts {
        level: Level::Error,
        id: words.id,
        sentence: words.sentence,
        place: first.place,
    };
    let bytes = parts_text(alloc, text, parts, marks.as_slice(), notes)?;
    Ok(bytes)
}

/// The texts of the notes on the steps of a ring.
fn step_texts(
    alloc: Global,
    text: ShownText<'_, '_>,
    steps: &[EventStep<'_>],
) -> Result<Vec<String>, AllocError>
    ensures { IfOk result (λ texts. map string_bytes texts.items
        ≡ step_texts (texts_of text.entry.names.now) steps.now) }
{
    let spoken = spoken_steps(alloc, steps)?;
    let texts = ring_notes(alloc, text.names, spoken.as_slice())?;
    Ok(texts)
}

/// The text of the diagnostic of a ring with these steps.
fn ring_text(
    alloc: Global,
    text: ShownText<'_, '_>,
    words: RingWords,
    steps: &[EventStep<'_>],
) -> Result<Vec<u8>, AllocError>
    ensures { IfOk result (λ bytes. bytes.items
        ≡ ring_text text.entry words.id.now words.sentence.now steps.now) }
{
    let Some((first, others)) = steps.split_first() else {
        return Ok(Vec::new(alloc));
    };
    let texts = step_texts(alloc, text, steps)?;
    let notes = notes_of(alloc, texts.as_slice())?;
    let bytes = text_from(alloc, text, words, &first.first, others, notes.as_slice())?;
    Ok(bytes)
}

/// A chart that can never happen, as a diagnostic with an empty row after it: the events of a ring in
/// the lines of the text, and why each of them has to come before the next. The ring begins at the
/// first event of the first step. Steps of which the text lacks an event are left out; without steps
/// the answer is empty. The only error is want of memory.
pub fn never_text(
    alloc: Global,
    text: ShownText<'_, '_>,
    steps: &[ShownStep],
) -> Result<Vec<u8>, AllocError>
    ensures { IfOk result (λ bytes. bytes.items ≡ never_text text.entry steps.now) }
{
    let words = RingWords {
        id: "never",
        sentence: never_sentence(),
    };
    let known = known_steps(alloc, text.events, steps)?;
    let bytes = ring_text(alloc, text, words, known.as_slice())?;
    Ok(bytes)
}

/// Events of a text that is no chart because they wait for each other, as a diagnostic with an empty
/// row after it, in the same way as a chart that can never happen. The only error is want of memory.
pub fn waiting_text(
    alloc: Global,
    text: ShownText<'_, '_>,
    steps: &[ShownStep],
) -> Result<Vec<u8>, AllocError>
    ensures { IfOk result (λ bytes. bytes.items ≡ waiting_text text.entry steps.now) }
{
    let words = RingWords {
        id: "chart 9",
        sentence: "these events wait for each other, so none of them can happen",
    };
    let known = known_steps(alloc, text.events, steps)?;
    let bytes = ring_text(alloc, text, words, known.as_slice())?;
    Ok(bytes)
}
