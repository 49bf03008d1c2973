//! What is underlined of a refused import.

ghost use Rattle.std.specs.Prelude.{◌≡◌, IfOk, map};
ghost use Rattle.msc_import_notes.specs.Plain.{plain_place};
ghost use Rattle.msc_import_notes.specs.Spans.{first_places};

use crate::bytes::{front, run_around};
use crate::hints::{found_part, what_stands};
use crate::names::name_length;
use crate::plain::with_plain_lines;
use crate::statement::{Statement, line_rest};
use msc_fault_words::{Span, note_place};
use msc_mermaid::{Expectation, ImportFault};
use msc_notes::{FaultNotes, Note, Tag};
use std::alloc::{AllocError, Global};

/// The texts of a refused import, with one LF at each end of a line: the whole text, and that of the
/// diagram, with its bytes at their places; and the notes on the fault.
#[derive(Clone, Copy)]
pub struct ToldText<'t> {
    pub whole: &'t [u8],
    pub diagram: &'t [u8],
    pub told: &'t FaultNotes,
}

/// The first note of a kind.
fn note_of(told: &FaultNotes, tag: Tag) -> Option<&Note> {
    told.notes.as_slice().iter().find(|note| note.tag == tag)
}

/// Whether what was found at a place is an end of a line or of the text.
fn is_end(found: &[u8]) -> bool {
    found == b"the end of the line".as_slice() || found == b"the end of the text".as_slice()
}

/// The place after what was found at a place, as a note shows it.
fn found_past(alloc: Global, text: &[u8], at: usize, found: &[u8]) -> Result<usize, AllocError> {
    if is_end(found) {
        return Ok(at.saturating_add(1));
    }
    if what_stands(alloc, text, at)?.as_slice() == found {
        let (first, length) = found_part(line_rest(text, at));
        return Ok(at.saturating_add(first).saturating_add(length));
    }
    match run_around(text, at) {
        Some((_, past)) => Ok(past),
        None => Ok(at.saturating_add(1)),
    }
}

/// The place after what was found at the place of a fault; if no note shows it, after what stands
/// there.
fn shown_past(alloc: Global, texts: ToldText<'_>, at: usize) -> Result<usize, AllocError> {
    match note_of(texts.told, Tag::Found) {
        Some(note) => found_past(alloc, texts.whole, at, note.text.as_slice()),
        None => {
            let found = what_stands(alloc, texts.whole, at)?;
            found_past(alloc, texts.whole, at, found.as_slice())
        }
    }
}

/// The place after the statement that begins at a place; if none does, after what was found there.
fn statement_past(alloc: Global, texts: ToldText<'_>, at: usize) -> Result<usize, AllocError> {
    let own = Statement::of(alloc, texts.diagram, at)?;
    if own.held.is_empty() {
        return shown_past(alloc, texts, at);
    }
    Ok(at.saturating_add(own.held.len()))
}

/// The place after the part of a text that a fault at this place is about. `name` is the name of the
/// fault.
fn fault_past(
    alloc: Global,
    texts: ToldText<'_>,
    at: usize,
    fault: ImportFault,
    name: &[u8],
) -> Result<usize, AllocError> {
    match fault {
        ImportFault::Unsupported(_, head) => {
            let word = format!(in alloc; "{head}")?;
            Ok(at.saturating_add(word.as_bytes().len()))
        }
        ImportFault::Entity(_) => Ok(at.saturating_add(name.len())),
        ImportFault::Stray(_) => Ok(at.saturating_add(b"sequenceDiagram".len())),
        ImportFault::TooManyLines(_) => {
            Ok(at.saturating_add(name_length(alloc, texts.diagram, at)?))
        }
        ImportFault::Expected(_, Expectation::Statement) => statement_past(alloc, texts, at),
        ImportFault::Expected(_, _) => shown_past(alloc, texts, at),
        _ => statement_past(alloc, texts, at),
    }
}

/// What is underlined of a refused import: at the place of the fault, at that of the part that has no
/// end, and at that of the block that is open. `name` is the name of the fault, if it has one. The
/// only error is want of memory.
pub fn import_spans(
    alloc: Global,
    texts: ToldText<'_>,
    fault: ImportFault,
    name: &[u8],
) -> Result<Vec<Span>, AllocError>
    ensures { IfOk result (λ spans. map (λ span. span.first) spans.items
        ≡ first_places texts.entry.told.now.place texts.entry.told.now.notes) }
{
    let notes = texts.told.notes.as_slice();
    let mut spans = Vec::new(alloc);
    if let Some(first) = texts.told.place {
        let past = fault_past(alloc, texts, first, fault, name)?;
        spans.push(Span { first, past })?;
    }
    if let Some(first) = note_place(notes, Tag::Opened) {
        let past = first.saturating_add(line_rest(texts.whole, first).len());
        spans.push(Span { first, past })?;
    }
    if let Some(first) = note_place(notes, Tag::Inside) {
        let past = statement_past(alloc, texts, first)?;
        spans.push(Span { first, past })?;
    }
    Ok(spans)
}

/// The rest of a line of a diagram, from a place of its text on. The span is one of the text with one
/// LF at each end of a line. The only error is want of memory.
pub fn line_span(alloc: Global, text: &[u8], at: usize) -> Result<Span, AllocError>
    ensures { IfOk result (λ span. span.first ≡ plain_place text.now at) }
{
    let before = with_plain_lines(alloc, front(text, at))?;
    let plain = with_plain_lines(alloc, text)?;
    let first = before.len();
    let length = line_rest(plain.as_slice(), first).len();
    Ok(Span {
        first,
        past: first.saturating_add(length),
    })
}
