//! The faults of a draft that is no chart, in words.

ghost use Rattle.std.specs.Prelude.{◌≡◌, IfOk};
ghost use Rattle.std.specs.String.{string_bytes};
ghost use Rattle.msc_fault_words.specs.ChartFaults.{chart, defined_twice, header_text, named_text};
ghost use Rattle.msc_fault_words.specs.ChartFaults.{twice_at, unmatched_at};
ghost use Rattle.msc_fault_words.specs.ChartFaults.{placed, twice_named, unknown, unknown_name};

use crate::memory_words;
use crate::message::{MessageEnd, twice_words, unmatched_words};
use crate::told::{note_place, shown_note};
use crate::words::{FaultWords, Span};
use msc_chart::ChartFault;
use msc_diagnostic::Sign;
use msc_notes::{FaultNotes, Note, Tag};
use std::alloc::{AllocError, Global};

/// A sentence that is the same for each text, with a mark at the fault's place.
fn placed(
    alloc: Global,
    id: &'static str,
    sentence: &str,
    told: &FaultNotes,
    spans: &[Span],
) -> Result<FaultWords, AllocError>
    ensures { IfOk result (λ words. words
        ≡ placed id.now sentence.now told.now.place spans.now) }
{
    let mut words = FaultWords::fixed(alloc, id, sentence)?;
    words.mark_at(spans, told.place, Sign::Caret, "")?;
    Ok(words)
}

/// That a name is that of two instances.
#[tactic(auto, unfolding(crate::specs::ChartFaults::defined_twice))]
fn defined_twice(alloc: Global, name: &str) -> Result<String, AllocError>
    ensures { IfOk result (λ text. string_bytes text ≡ defined_twice name.now) }
{
    format!(in alloc; "the instance \"{name}\" is defined twice")
}

/// An instance whose name an earlier one has.
fn twice_named(alloc: Global, told: &FaultNotes, spans: &[Span]) -> Result<FaultWords, AllocError>
    ensures { IfOk result (λ words. words
        ≡ twice_named told.now.place told.now.notes spans.now) }
{
    let notes = told.notes.as_slice();
    let name = shown_note(alloc, notes, Tag::Name)?;
    let sentence = defined_twice(alloc, name.as_str())?;
    let first = note_place(notes, Tag::First);
    let mut words = FaultWords::new(alloc, "chart 2", sentence);
    words.mark_at(spans, told.place, Sign::Caret, "defined again here")?;
    words.mark_at(spans, first, Sign::Dash, "first defined here")?;
    Ok(words)
}

/// That the header names no instance.
#[tactic(auto, unfolding(crate::specs::ChartFaults::header_text))]
fn header_text(alloc: Global, name: &str) -> Result<String, AllocError>
    ensures { IfOk result (λ text. string_bytes text ≡ header_text name.now) }
{
    format!(in alloc; "the header names \"{name}\", but no instance has this name")
}

/// That a name is that of no instance.
#[tactic(auto, unfolding(crate::specs::ChartFaults::named_text))]
pub(crate) fn named_text(alloc: Global, name: &str) -> Result<String, AllocError>
    ensures { IfOk result (λ text. string_bytes text ≡ named_text name.now) }
{
    format!(in alloc; "no instance is named \"{name}\"")
}

/// A name that no instance has, and the one that may have been meant.
fn unknown(
    alloc: Global,
    id: &'static str,
    sentence: String,
    told: &FaultNotes,
    spans: &[Span],
) -> Result<FaultWords, AllocError>
    ensures { IfOk result (λ words. words
        ≡ unknown id.now (string_bytes sentence) told.now.place told.now.notes spans.now) }
{
    let nearest = note_place(told.notes.as_slice(), Tag::Nearest);
    let mut words = FaultWords::new(alloc, id, sentence);
    words.mark_at(spans, told.place, Sign::Caret, "")?;
    words.mark_at(spans, nearest, Sign::Dash, "is this one meant?")?;
    Ok(words)
}

/// A header name, or an address, that no instance has.
fn unknown_name(
    alloc: Global,
    is_header: bool,
    told: &FaultNotes,
    spans: &[Span],
) -> Result<FaultWords, AllocError>
    ensures { IfOk result (λ words. words
        ≡ unknown_name is_header told.now.place told.now.notes spans.now) }
{
    let name = shown_note(alloc, told.notes.as_slice(), Tag::Name)?;
    if is_header {
        let sentence = header_text(alloc, name.as_str())?;
        return unknown(alloc, "chart 3", sentence, told, spans);
    }
    let sentence = named_text(alloc, name.as_str())?;
    unknown(alloc, "chart 4", sentence, told, spans)
}

/// An event that an earlier one repeats.
fn twice_at(
    alloc: Global,
    told: &FaultNotes,
    spans: &[Span],
    end: Option<MessageEnd<'_>>,
) -> Result<FaultWords, AllocError>
    ensures { IfOk result (λ words. words
        ≡ twice_at told.now.place told.now.notes spans.now end.entry) }
{
    match end {
        Some(end) => twice_words(alloc, end, told, spans),
        None => placed(alloc, "chart 6", "a message is there twice", told, spans),
    }
}

/// An event without another end.
fn unmatched_at(
    alloc: Global,
    id: &'static str,
    told: &FaultNotes,
    spans: &[Span],
    end: Option<MessageEnd<'_>>,
) -> Result<FaultWords, AllocError>
    ensures { IfOk result (λ words. words
        ≡ unmatched_at id.now told.now.place told.now.notes spans.now end.entry) }
{
    match end {
        Some(end) => unmatched_words(alloc, id, end, told, spans),
        None => placed(alloc, id, "a message lacks its other end", told, spans),
    }
}

/// That events wait for each other.
const WAITING: &str = "these events wait for each other, so none of them can happen";

/// A fault of a draft in words. `told` are the notes on it; `spans` are the names and the statements at
/// the places that these have, in any order; and `end` is the event of the fault, if it is an end of a
/// message: without it the sentence has no names. Of events that wait for each other the first is
/// marked; a diagnostic of all of them is that of `waiting_text` in `msc_full`. The only error is want
/// of memory.
pub fn chart_words(
    alloc: Global,
    fault: ChartFault,
    told: &FaultNotes,
    spans: &[Span],
    end: Option<MessageEnd<'_>>,
) -> Result<FaultWords, AllocError>
    ensures { IfOk result (λ words. words
        ≡ chart told.now.place told.now.notes spans.now end.entry fault) }
{
    match fault {
        ChartFault::TooManyInstances => {
            placed(alloc, "chart 1", "more than 32 instances", told, spans)
        }
        ChartFault::TwiceInstance(_) => twice_named(alloc, told, spans),
        ChartFault::HeaderWithoutBody(_) => unknown_name(alloc, true, told, spans),
        ChartFault::UnknownAddress(_) => unknown_name(alloc, false, told, spans),
        ChartFault::TooManyMessages => {
            placed(alloc, "chart 5", "more than 1024 messages", told, spans)
        }
        ChartFault::TooManyActions => {
            placed(alloc, "chart 11", "more than 1024 actions", told, spans)
        }
        ChartFault::TwiceEvent(_) => twice_at(alloc, told, spans, end),
        ChartFault::UnmatchedOut(_) => unmatched_at(alloc, "chart 7", told, spans, end),
        ChartFault::UnmatchedIn(_) => unmatched_at(alloc, "chart 8", told, spans, end),
        ChartFault::Cyclic(_) => placed(alloc, "chart 9", WAITING, told, spans),
        ChartFault::Memory => memory_words(alloc),
    }
}
