//! Notes on a diagram of more scenarios than the limit.

ghost use Rattle.std.specs.Prelude.{◌≡◌, None, IfOk};

use crate::hints::{hint, worded};
use listed::Listed;
use msc_mermaid::{Closer, Cross, Diagram, Fate, ImportFault, Kind, Placed, Statement, diagram_of};
use msc_notes::{FaultNotes, Note, Tag};
use msc_scenarios::{SCENARIO_LIMIT, scenarios};
use std::alloc::{AllocError, Global};

/// The blocks around a statement: their number, and the number of the outermost loop among them.
#[derive(Clone, Copy)]
struct Around {
    depth: usize,
    outermost: Option<usize>,
}

impl Around {
    /// The blocks around the statement that follows.
    fn behind(self, statement: &Statement) -> Around {
        let Around { depth, outermost } = self;
        match statement {
            Statement::Begins(kind) => {
                let depth = depth.saturating_add(1);
                let is_first = outermost.is_none() && matches!(kind, Kind::Loop);
                Around {
                    depth,
                    outermost: if is_first { Some(depth) } else { outermost },
                }
            }
            Statement::Closes(Closer::End) => Around {
                depth: depth.saturating_sub(1),
                outermost: outermost.filter(|at| *at != depth),
            },
            _ => self,
        }
    }
}

/// Whether an arrow is in a loop.
fn has_rounds(statements: &[Placed]) -> bool {
    let mut around = Around {
        depth: 0,
        outermost: None,
    };
    for placed in statements {
        if around.outermost.is_some() && matches!(placed.statement, Statement::Says(_)) {
            return true;
        }
        around = around.behind(&placed.statement);
    }
    false
}

/// Whether an arrow takes a choice for its cross.
fn has_cross(statements: &[Placed]) -> bool {
    statements.iter().any(|placed| match &placed.statement {
        Statement::Says(arrow) => matches!(arrow.fate, Fate::Either),
        _ => false,
    })
}

/// The hint on the limit that is enough for `count` scenarios.
fn limit_hint(alloc: Global, count: usize) -> Result<Vec<u8>, AllocError> {
    let mut digits = itoa::Buffer::new();
    let number = Vec::from_slice(alloc, digits.format(count).as_bytes())?;
    let mut words = Vec::from_slice(alloc, b"there are ")?;
    words.extend_from_slice(number.as_slice())?;
    words.extend_from_slice(b": --limit ")?;
    words.extend_from_slice(number.as_slice())?;
    words.extend_from_slice(b" checks them all")?;
    Ok(words)
}

/// The hints that make the scenarios of a diagram fewer, or the limit high enough.
fn notes_of(alloc: Global, diagram: &Diagram, rounds: &[usize]) -> Result<Vec<Note>, AllocError> {
    let mut notes = Vec::new(alloc);
    let count = scenarios(alloc, diagram, rounds)?;
    if count <= SCENARIO_LIMIT {
        notes.push(worded(Tag::Hint, limit_hint(alloc, count)?))?;
    }
    if rounds.len() > 1 && has_rounds(diagram.statements.as_slice()) {
        hint(
            alloc,
            &mut notes,
            b"--rounds 2 gives each loop two rounds only",
        )?;
    }
    if has_cross(diagram.statements.as_slice()) {
        let words = b"--cross arrives, or --cross lost, fixes each cross";
        hint(alloc, &mut notes, words)?;
    }
    Ok(notes)
}

/// The notes on a diagram of more scenarios than the limit, if loops go these numbers of rounds.
/// The only error is want of memory.
pub fn tell_scenarios(
    alloc: Global,
    text: &[u8],
    cross: Option<Cross>,
    rounds: &[usize],
) -> Result<FaultNotes, AllocError>
    ensures { IfOk result (λ fault_notes. fault_notes.place ≡ None) }
{
    let notes = match diagram_of(alloc, cross, text) {
        Ok(diagram) => notes_of(alloc, &diagram, rounds)?,
        Err(ImportFault::Memory) => return Err(AllocError),
        Err(_) => Vec::new(alloc),
    };
    Ok(FaultNotes {
        place: None,
        notes: Listed::from_vec(notes),
    })
}
