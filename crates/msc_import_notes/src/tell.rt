//! The notes on a fault of an import, and its place.

ghost use Rattle.std.specs.Prelude.{◌≡◌, IfNone, IfOk, IfSome, None};
ghost use Rattle.msc_import_notes.specs.Places.{fault_line, IsOnLine};

use crate::bytes::{arrow_from, behind, between, past_white};
use crate::counting_lines::{open_description, open_directive, open_front};
use crate::hints::{Answer, found, hint, no_label, no_statement, placed};
use crate::kinds::kind_note;
use crate::names::{declared, name_answer, receiver, sender, word_at};
use crate::near::lowered;
use crate::statement::Statement;
use listed::Listed;
use msc_mermaid::{Expectation, ImportFault, diagram_of};
use msc_notes::{FaultNotes, Note, Tag};
use msc_place::{Lines, Position};
use std::alloc::{AllocError, Global};

/// The position of a fault, if it has one.
fn position_of(fault: ImportFault) -> Option<Position>
    ensures some { IfSome result (λ here. here.line ≡ fault_line fault) }
    ensures none { IfNone result (fault_line fault ≡ 1) }
{
    match fault {
        ImportFault::Expected(here, _) | ImportFault::Unsupported(here, _) => Some(here),
        ImportFault::Unended(here) | ImportFault::Outside(here, _) => Some(here),
        ImportFault::TooDeep(here) | ImportFault::TooManyLines(here) => Some(here),
        ImportFault::Choice(here, _, _) | ImportFault::TooManyArrows(here) => Some(here),
        ImportFault::Shared(here, _) => Some(here),
        ImportFault::Stray(here) | ImportFault::Entity(here) => Some(here),
        _ => None,
    }
}

/// The line of a diagram's text that has a fault; the first, if none has it.
pub fn fault_line(fault: ImportFault) -> usize
    ensures { result ≡ fault_line fault }
{
    match position_of(fault) {
        Some(here) => here.line,
        None => 1,
    }
}

/// Whether a byte begins a column: it is counted, or it continues no letter.
fn begins_column(before: u8, byte: u8) -> bool {
    byte < 128 || byte > 191 || before < 128
}

/// The place of a position, if the text has it.
fn place_of(text: &[u8], here: Position) -> Option<usize> {
    let mut line = 1usize;
    let mut column = 1usize;
    let mut before = b'\n';
    for (at, byte) in text.iter().enumerate() {
        if line == here.line && column == here.column && begins_column(before, *byte) {
            return Some(at);
        }
        if *byte == b'\n' {
            line = line.saturating_add(1);
            column = 1;
        } else if *byte < 128 || *byte > 191 {
            column = column.saturating_add(1);
        }
        before = *byte;
    }
    if line == here.line && column == here.column {
        return Some(text.len());
    }
    None
}

/// A place with these notes.
fn fault_notes(at: usize, notes: Vec<Note>) -> FaultNotes {
    FaultNotes {
        place: Some(at),
        notes: Listed::from_vec(notes),
    }
}

/// The notes on a fault whose place is known, after the note on what was found there.
fn found_notes(
    alloc: Global,
    text: &[u8],
    at: usize,
    more: Option<Note>,
) -> Result<FaultNotes, AllocError> {
    let mut notes = Vec::new(alloc);
    notes.push(found(alloc, text, at)?)?;
    if let Some(note) = more {
        notes.push(note)?;
    }
    Ok(fault_notes(at, notes))
}

/// The note on the place of a part that has no end.
fn opened(alloc: Global, at: Option<usize>) -> Option<Note> {
    at.map(|place| placed(Tag::Opened, Vec::new(alloc), place))
}

/// The notes on a statement.
fn answer_notes(own: usize, answer: Answer) -> FaultNotes {
    let Answer { offset, notes } = answer;
    fault_notes(own.saturating_add(offset), notes)
}

/// The notes on a statement with a configuration: on what follows that, or on its end.
fn config_notes(
    alloc: Global,
    text: &[u8],
    own: &Statement,
    is_open: bool,
) -> Result<FaultNotes, AllocError> {
    let end = own.held.len();
    let (_, brace) = declared(own);
    let past = match own.held.get(brace..) {
        Some(rest) if !is_open => rest
            .iter()
            .take_while(|byte| **byte != b'}')
            .count()
            .saturating_add(brace)
            .saturating_add(1),
        _ => end,
    };
    let at = own.at.saturating_add(past_white(own.held, past).min(end));
    found_notes(alloc, text, at, None)
}

/// The notes on a statement where something else was expected.
fn statement_notes(
    alloc: Global,
    text: &[u8],
    at: usize,
    what: Expectation,
) -> Result<FaultNotes, AllocError> {
    if behind(text, at).starts_with(b"%%{") {
        return found_notes(alloc, text, at, None);
    }
    let own = Statement::of(alloc, text, at)?;
    let answer = match what {
        Expectation::Name => name_answer(alloc, text, &own)?,
        Expectation::Label => {
            let past = arrow_from(own.bare.as_slice(), 0).map_or(0, |(_, past)| past);
            no_label(alloc, text, &own, past)?
        }
        _ => no_statement(alloc, text, &own)?,
    };
    Ok(answer_notes(at, answer))
}

/// The notes on what was expected at this place.
fn expected_notes(
    alloc: Global,
    text: &[u8],
    at: usize,
    what: Expectation,
) -> Result<FaultNotes, AllocError> {
    let is_last = at >= text.len();
    match what {
        Expectation::Front => found_notes(alloc, text, at, opened(alloc, open_front(text))),
        Expectation::Directive => {
            let open = open_directive(text).filter(|_| is_last);
            found_notes(alloc, text, at, opened(alloc, open))
        }
        Expectation::Description if is_last => {
            found_notes(alloc, text, at, opened(alloc, open_description(text)))
        }
        Expectation::Description => {
            config_notes(alloc, text, &Statement::of(alloc, text, at)?, true)
        }
        Expectation::StatementEnd => {
            config_notes(alloc, text, &Statement::of(alloc, text, at)?, false)
        }
        Expectation::LineEnd => found_notes(alloc, text, at, None),
        Expectation::AnyDiagram | Expectation::Diagram => {
            found_notes(alloc, text, at, kind_note(alloc, text, at)?)
        }
        _ => statement_notes(alloc, text, at, what),
    }
}

/// One hint, at this place.
fn hint_notes(alloc: Global, at: usize, text: &[u8]) -> Result<FaultNotes, AllocError> {
    let mut notes = Vec::new(alloc);
    hint(alloc, &mut notes, text)?;
    Ok(fault_notes(at, notes))
}

/// The notes on an arrow to the left, of the statement at this place.
fn leftward_notes(alloc: Global, text: &[u8], at: usize) -> Result<FaultNotes, AllocError> {
    let own = Statement::of(alloc, text, at)?;
    let first = arrow_from(own.bare.as_slice(), 0).map_or(0, |(first, _)| first);
    let words = b"the arrow goes to the left: write it the other way round";
    hint_notes(alloc, at.saturating_add(first), words)
}

/// The notes on a block without end, at this place.
fn unended_notes(alloc: Global, text: &[u8], at: usize) -> Result<FaultNotes, AllocError> {
    let mut words = lowered(alloc, word_at(text, at))?;
    words.extend_from_slice(b" needs its own end")?;
    hint_notes(alloc, at, words.as_slice())
}

/// The place of the innermost block that is open before a place of a text.
fn open_block(alloc: Global, text: &[u8], at: usize) -> Result<Option<usize>, AllocError> {
    match diagram_of(alloc, None, between(text, 0, at)) {
        Err(ImportFault::Unended(here)) => Ok(place_of(text, here)),
        Err(ImportFault::Memory) => Err(AllocError),
        _ => Ok(None),
    }
}

/// The notes on a word outside its block, at this place.
fn outside_notes(alloc: Global, text: &[u8], at: usize) -> Result<FaultNotes, AllocError> {
    let mut notes = Vec::new(alloc);
    if let Some(block) = open_block(alloc, text, at)? {
        let word = lowered(alloc, word_at(text, block))?;
        notes.push(placed(Tag::Inside, word, block))?;
    }
    Ok(fault_notes(at, notes))
}

/// Whether the sender of the arrow at a place is a line too many. It is if an arrow from it to
/// itself is refused too.
fn is_sender_new(alloc: Global, text: &[u8], at: usize, name: &[u8]) -> Result<bool, AllocError> {
    let mut tried = Vec::from_slice(alloc, between(text, 0, at))?;
    tried.extend_from_slice(name)?;
    tried.extend_from_slice(b"->>")?;
    tried.extend_from_slice(name)?;
    tried.extend_from_slice(b":")?;
    match diagram_of(alloc, None, tried.as_slice()) {
        Err(ImportFault::TooManyLines(_)) => Ok(true),
        Err(ImportFault::Memory) => Err(AllocError),
        _ => Ok(false),
    }
}

/// The place of the name that is a line too many, of the statement at a place.
fn new_name(alloc: Global, text: &[u8], at: usize) -> Result<usize, AllocError> {
    let own = Statement::of(alloc, text, at)?;
    let bare = own.bare.as_slice();
    if own.is_one_of(&[b"participant", b"actor", b"create"]) {
        return Ok(at.saturating_add(declared(&own).0));
    }
    let Some(arrow) = arrow_from(bare, 0) else {
        return Ok(at);
    };
    let name = between(own.held, 0, sender(bare, arrow.0).0.len());
    if is_sender_new(alloc, text, at, name)? {
        return Ok(at);
    }
    Ok(at.saturating_add(receiver(bare, arrow.1).0))
}

/// The notes on a fault at the place of its position.
fn notes_at(
    alloc: Global,
    text: &[u8],
    at: usize,
    fault: ImportFault,
) -> Result<FaultNotes, AllocError> {
    match fault {
        ImportFault::Expected(_, what) => expected_notes(alloc, text, at, what),
        ImportFault::Unsupported(_, _) => leftward_notes(alloc, text, at),
        ImportFault::Unended(_) => unended_notes(alloc, text, at),
        ImportFault::Outside(_, _) => outside_notes(alloc, text, at),
        ImportFault::Stray(_) => {
            hint_notes(
                alloc,
                at,
                b"in Markdown a diagram stands between ```mermaid and ```",
            )
        }
        ImportFault::Entity(_) => hint_notes(alloc, at, b"write the character itself"),
        ImportFault::TooManyLines(_) => Ok(fault_notes(
            new_name(alloc, text, at)?,
            Vec::new(alloc),
        )),
        ImportFault::Shared(_, _) => {
            hint_notes(
                alloc,
                at,
                b"--par drawn draws the branches one below the other",
            )
        }
        _ => Ok(fault_notes(at, Vec::new(alloc))),
    }
}

/// The notes on a fault that has no place.
fn notes_without_place(alloc: Global, fault: ImportFault) -> Result<FaultNotes, AllocError>
    ensures { IfOk result (λ fault_notes. fault_notes.place ≡ None) }
{
    let mut notes = Vec::new(alloc);
    if matches!(fault, ImportFault::Several(_)) {
        let words =
            b"--choose main takes each first branch of an alt, each opt, one round of each loop";
        hint(alloc, &mut notes, words)?;
    }
    Ok(FaultNotes {
        place: None,
        notes: Listed::from_vec(notes),
    })
}

/// The place, if it is on this line of the text.
fn kept(lines: &Lines, place: Option<usize>, line: usize) -> Option<usize>
    ensures { IfSome result (λ at. IsOnLine lines.now line at) }
{
    match place {
        Some(at) if at <= lines.text().len() => {
            if lines.position(at).line == line {
                Some(at)
            } else {
                None
            }
        }
        _ => None,
    }
}

/// The notes on a fault of an import of a text whose lines end with LF only. The only error is want
/// of memory.
pub fn tell_import(alloc: Global, text: &[u8], fault: ImportFault) -> Result<FaultNotes, AllocError>
    ensures place { IfOk result (λ fault_notes. IfSome fault_notes.place
        (λ at. IsOnLine text.now (fault_line fault) at)) }
{
    let Some(here) = position_of(fault) else {
        let fault_notes = notes_without_place(alloc, fault)?;
        return Ok(fault_notes);
    };
    let lines = Lines::of(alloc, text)?;
    let FaultNotes { place, notes } = match place_of(text, here) {
        Some(at) => notes_at(alloc, text, at, fault)?,
        None => notes_without_place(alloc, fault)?,
    };
    Ok(FaultNotes {
        place: kept(&lines, place, here.line),
        notes,
    })
}
