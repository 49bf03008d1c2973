//! The marks of a diagram, if they are used.

ghost use Rattle.std.specs.Prelude.{◌≡◌, IfOk, None, Some};
ghost use Rattle.msc_answer.specs.ArrowMarks.{IsRefusedMark, ReadsArrowMarks};

use crate::ending::Refusal;
use msc_arrow_marks::{DiagramMarks, FaultyMark};
use msc_mermaid::Diagram;
use msc_place::Position;
use msc_scenario_marks::position_at;
use std::alloc::{AllocError, Global};

/// A faulty mark of a diagram, and its position.
#[derive(Clone, Copy)]
pub struct RefusedMark {
    pub fault: FaultyMark,
    pub position: Position,
}

/// A faulty mark of a diagram of this text.
fn refused_mark(alloc: Global, text: &[u8], fault: FaultyMark) -> Result<RefusedMark, AllocError>
    ensures { IfOk result (IsRefusedMark text.now fault) }
{
    Ok(RefusedMark {
        fault,
        position: position_at(alloc, text, fault.span.first)?,
    })
}

/// The marks of a diagram of this text, if they are used. An error is the first faulty one.
pub fn marks_of_diagram(
    alloc: Global,
    accept: bool,
    text: &[u8],
    diagram: &Diagram,
) -> Result<Option<DiagramMarks>, Refusal<'static>>
    ensures { ReadsArrowMarks accept text.now diagram.now result }
{
    if !accept {
        return Ok(None);
    }
    let marks = DiagramMarks::of(alloc, text, diagram)?;
    match marks.faults.as_slice().first() {
        Some(fault) => Err(Refusal::ArrowMark(refused_mark(alloc, text, *fault)?)),
        None => Ok(Some(marks)),
    }
}
