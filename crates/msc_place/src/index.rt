//! Positions of many places of one text.

ghost use Rattle.std.specs.Prelude.{◌≡◌, ◌≤◌, length, IfOk};
ghost use Rattle.msc_place.specs.Marks.{AreMarks};
ghost use Rattle.msc_place.specs.Positions.{IsPosition};

use crate::position::Position;
use std::alloc::{AllocError, Global};
use std::marker::Model;

/// The distance of two neighbouring places whose positions are kept, in bytes.
pub(crate) const STEP: usize = 256;

/// A text with the positions of some of its places, so that no position is counted from the text's
/// beginning on. Contracts see the text.
#[derive(Drop)]
pub struct Lines<'t> {
    text: &'t [u8],
    marks: Vec<Position>,
}

impl<'t> Model for Lines<'t> {
    ghost use Rattle.std.specs.Prelude.{ℕ, List};
    ghost use Rattle.msc_place.specs.Marks.{AreMarks};

    ghost Value = { List ℕ };

    ghost view = { λ l. l.text.now };

    ghost invariant = { λ l. AreMarks l.text.now l.marks.items };
}

/// The positions of all places of a text that are multiples of the step.
fn marks_of(alloc: Global, text: &[u8]) -> Result<Vec<Position>, AllocError>
    ensures { IfOk result (λ marks. AreMarks text.now marks.items) }
{
    let mut here = Position { line: 1, column: 1 };
    let mut marks = Vec::with_capacity(alloc, text.len() / STEP + 1)?;
    marks.push(here)?;
    for k in 0..text.len() / STEP {
        here = here.moved(&text[k * STEP..k * STEP + STEP]);
        marks.push(here)?;
    }
    Ok(marks)
}

impl<'t> Lines<'t> {
    /// The lines of a text. The only error is want of memory.
    pub fn of(alloc: Global, text: &'t [u8]) -> Result<Lines<'t>, AllocError>
        ensures { IfOk result (λ lines. lines ≡ text.entry.now) }
    {
        let marks = marks_of(alloc, text)?;
        Ok(Lines { text, marks })
    }

    /// The text. It takes no memory.
    pub fn text(&self) -> &'t [u8]
        ensures { result.now ≡ self.entry.now }
    {
        self.text
    }

    /// The line and the column of a place, as [`Position::of`] has them. It takes no memory, and
    /// its time does not grow with the text.
    pub fn position(&self, at: usize) -> Position
        requires { at ≤ length self.now }
        ensures { IsPosition self.now at result.line result.column }
    {
        let k = at / STEP;
        self.marks[k].moved(&self.text[k * STEP..at])
    }
}
