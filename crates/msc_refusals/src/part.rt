//! The parts of a text that are marked: names, and statements of events.

ghost use Rattle.std.specs.Prelude.{◌≡◌, ◌≤◌, ◌++◌, IfOk, IfSome, OnOk, length, map, take};
ghost use Rattle.std.specs.Prelude.{option_map, slice_get};
ghost use Rattle.std.specs.List.{prefix_len};
ghost use Rattle.msc_lexer.specs.Bytes.{is_run_byte};
ghost use Rattle.msc_parser.specs.Grammar.{Tree};
ghost use Rattle.msc_parser.specs.Parsing.{HasDraft};
ghost use Rattle.msc_place.specs.Standing.{IsEventPlace, IsInside};
ghost use Rattle.msc_refusals.specs.Parts.{begun, first_at, name_past, one_place, part_past, places_of};
ghost use Rattle.msc_refusals.specs.Parts.{span_at, statement_past};

use msc_fault_words::Span;
use msc_notes::FaultNotes;
use msc_place::{EventPlace, Places};
use std::alloc::{AllocError, Global};

/// Whether words and names are made of this byte.
fn is_run_byte(byte: u8) -> bool
    ensures { result ≡ is_run_byte byte }
{
    byte.is_ascii_alphanumeric() || byte == b'_'
}

/// The number of bytes at the front of a text that words and names are made of.
fn run_length(text: &[u8]) -> usize
    ensures length { result ≡ prefix_len is_run_byte text.now }
    ensures within { result ≤ length text.now }
{
    text.iter().take_while(|byte| is_run_byte(**byte)).count()
}

/// The place after the word or the name at a place of a text.
pub(crate) fn name_past(text: &[u8], at: usize) -> usize
    ensures { result ≡ name_past text.now at }
{
    if at > text.len() {
        return at;
    }
    at + run_length(&text[at..])
}

/// Where the statement of event `e` stands, if it begins at this place.
fn begun(places: &Places<'_>, e: usize, at: usize) -> Option<EventPlace>
    ensures place { result ≡ begun at (slice_get places.now.stand.events e) }
    ensures inside { IfSome result (IsInside (length places.now.text)) }
    ensures stands { (t : Tree) → HasDraft places.now.text t
        → IfSome result (IsEventPlace places.now.text t e) }
{
    match places.event(e) {
        Some(event) => { if event.start == at { Some(event) } else { None } }
        None => None,
    }
}

/// The event whose statement begins at a place, and where that stands, if there is one among the first
/// `count` events.
pub(crate) fn event_at(places: &Places<'_>, count: usize, at: usize) -> Option<(usize, EventPlace)>
    ensures place { option_map (λ found. found.1) result
        ≡ first_at (take count places.now.stand.events) at }
    ensures inside { IfSome result (λ found. IsInside (length places.now.text) found.1) }
    ensures stands { (t : Tree) → HasDraft places.now.text t
        → IfSome result (λ found. IsEventPlace places.now.text t found.0 found.1) }
{
    for e in 0..count {
        if let Some(event) = begun(places, e, at) {
            return Some((e, event));
        }
    }
    None
}

/// The place after the statement of an event that begins at a place, if one does.
fn statement_past(places: &Places<'_>, count: usize, at: usize) -> Option<usize>
    ensures { result ≡ statement_past (take count places.now.stand.events) at }
{
    match event_at(places, count, at) {
        Some((_, event)) => Some(event.end),
        None => None,
    }
}

/// The part of a text at a place: the statement of an event, or else a name.
fn span_at(places: &Places<'_>, count: usize, at: usize) -> Span
    ensures { result ≡ span_at places.now.text (take count places.now.stand.events) at }
{
    let past = match statement_past(places, count, at) {
        Some(past) => past,
        None => name_past(places.text(), at),
    };
    Span { first: at, past }
}

/// Appends the part of a text at a place, if there is one.
fn push_span(
    spans: &mut Vec<Span>,
    places: &Places<'_>,
    count: usize,
    place: Option<usize>,
) -> Result<(), AllocError>
    ensures { OnOk result (spans.new.items ≡ spans.old.items
        ++ map (span_at places.now.text (take count places.now.stand.events)) (one_place place)) }
{
    if let Some(at) = place {
        spans.push(span_at(places, count, at))?;
    }
    Ok(())
}

/// The parts of a text at the place of a fault and at those of the notes on it. The text has `count`
/// events.
pub(crate) fn spans_of(
    alloc: Global,
    places: &Places<'_>,
    count: usize,
    told: &FaultNotes,
) -> Result<Vec<Span>, AllocError>
    ensures { IfOk result (λ spans. spans.items
        ≡ map (span_at places.now.text (take count places.now.stand.events))
        (places_of told.now.place told.now.notes)) }
{
    let mut spans = Vec::new(alloc);
    push_span(&mut spans, places, count, told.place)?;
    for note in told.notes.as_slice() {
        push_span(&mut spans, places, count, note.place)?;
    }
    Ok(spans)
}
