//! Notes on the first fault of a text.

ghost use Rattle.std.specs.Prelude.{◌≡◌, ◌≤◌, length, IfOk, IfSome};
ghost use Rattle.msc_parser.specs.Parsing.{HasParseFault};
ghost use Rattle.msc_notes.specs.Behind.{AreParseNotes};
ghost use Rattle.msc_notes.specs.Faults.{lexical_place, parse_place};

use crate::grammar::{expected_notes, unsupported_notes};
use crate::lexical::lexical_notes;
use crate::note::{FaultNotes, Note};
use listed::Listed;
use msc_lexer::LexFault;
use msc_parser::ParseFault;
use std::alloc::{AllocError, Global};

/// The place of a lexical fault, if it has one.
fn lexical_place(fault: LexFault) -> Option<usize>
    ensures { result ≡ lexical_place fault }
{
    match fault {
        LexFault::BadByte(at)
        | LexFault::OpenNote(at)
        | LexFault::OpenText(at)
        | LexFault::LongName(at) => Some(at),
        LexFault::TooLong | LexFault::Memory => None,
    }
}

/// The place of a fault of a text, if it has one.
fn place(fault: ParseFault) -> Option<usize>
    ensures { result ≡ parse_place fault }
{
    match fault {
        ParseFault::Lex(fault) => lexical_place(fault),
        ParseFault::Unsupported(at, _) | ParseFault::Expected(at, _) => Some(at),
        ParseFault::Memory => None,
    }
}

/// The notes on a fault of a text.
fn notes(alloc: Global, text: &[u8], fault: ParseFault) -> Result<Vec<Note>, AllocError>
    ensures { IfOk result (λ notes. HasParseFault text.now fault
        → AreParseNotes text.now fault notes.items) }
{
    match fault {
        ParseFault::Lex(fault) => lexical_notes(alloc, text, fault),
        ParseFault::Unsupported(at, _) => unsupported_notes(alloc, text, at),
        ParseFault::Expected(at, what) => {
            if at > text.len() {
                return Ok(Vec::new(alloc));
            }
            expected_notes(alloc, text, at, what)
        }
        ParseFault::Memory => Ok(Vec::new(alloc)),
    }
}

/// The place, if a text of `len` bytes has it.
fn kept(place: Option<usize>, len: usize) -> Option<usize>
    ensures inside { IfSome result (λ at. at ≤ len) }
    ensures same { IfSome place (λ at. at ≤ len) → result ≡ place }
{
    match place {
        Some(at) if at <= len => Some(at),
        _ => None,
    }
}

/// The place of the first fault of a text, and the notes on it. The only error is want of memory.
pub fn tell_parse(alloc: Global, text: &[u8], fault: ParseFault) -> Result<FaultNotes, AllocError>
    ensures place { IfOk result (λ told. HasParseFault text.now fault
        → told.place ≡ parse_place fault) }
    ensures inside { IfOk result (λ told. IfSome told.place (λ at. at ≤ length text.now)) }
    ensures notes { IfOk result (λ told. HasParseFault text.now fault
        → AreParseNotes text.now fault told.notes) }
{
    Ok(FaultNotes {
        place: kept(place(fault), text.len()),
        notes: Listed::from_vec(notes(alloc, text, fault)?),
    })
}
