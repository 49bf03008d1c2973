//! The part of a diagram that was read: its statements and comments, one by one.

ghost use Rattle.std.specs.Prelude.{◌≡◌, IfOk};
ghost use Rattle.msc_mermaid.specs.Gives.{Gives};
ghost use Rattle.msc_mermaid.specs.Outlines.{span_of};
ghost use Rattle.msc_mermaid.specs.Reading.{Leaves, is_arrow, listed, noted, read_one};
ghost use Rattle.msc_mermaid.specs.Reading.{shown_length};
ghost use Rattle.msc_mermaid.specs.Reading.{shown_span, told, untold, with_comment};

use crate::fault::ImportFault;
use crate::outline::{Outline, span_of};
use crate::saying::{Mode, Said, said_at};
use crate::statement::{Cross, Diagram, Placed, Span, Statement};
use listed::Listed;
use msc_place::Position;
use std::alloc::{AllocError, Global};
use std::marker::Model;

/// The beginning of a statement: its position, and the number of bytes of the text before it.
#[derive(Clone, Copy)]
pub(crate) struct StatementStart {
    pub here: Position,
    pub first: usize,
}

/// The number of bytes of the label of an arrow, or of the shown name of a line.
fn shown_length(statement: &Statement) -> usize
    ensures { result ≡ shown_length statement.now }
{
    match statement {
        Statement::Declares(_, Some(shown)) => shown.as_slice().len(),
        Statement::Says(arrow) => arrow.label.as_slice().len(),
        _ => 0,
    }
}

/// The bytes of the label or shown name, if the statement has the bytes `whole` and `tail` of them
/// are left from the label or name on.
fn shown_span(whole: Span, tail: usize, statement: &Statement) -> Span
    ensures { result ≡ shown_span whole tail statement.now }
{
    span_of(whole.past.saturating_sub(tail), shown_length(statement))
}

/// Whether it is an arrow.
fn is_arrow(statement: &Statement) -> bool
    ensures { result ≡ is_arrow statement.now }
{
    matches!(statement, Statement::Says(_))
}

/// The part that was read so far: the lines that end with the next arrow, the number of arrows, the
/// lines and the open blocks, the statements, and the comments.
#[derive(Drop)]
pub(crate) struct Reader {
    dying: Vec<Listed<u8>>,
    arrows: usize,
    outline: Outline,
    said: Vec<Placed>,
    comments: Vec<Span>,
}

impl Model for Reader {
    ghost use Rattle.std.specs.Prelude.{◌≤◌, length};
    ghost use Rattle.msc_mermaid.specs.Reading.{Read};

    ghost Value = { Read };

    ghost view = { λ r.
        record {
          dying = r.dying.items;
          arrows = r.arrows;
          outline = r.outline;
          said = r.said.items;
          comments = r.comments.items;
        } };

    // Each arrow is a statement.
    ghost invariant = { λ r. r.arrows ≤ length r.said.items };
}

impl Reader {
    /// The state before any statement.
    pub(crate) fn new(alloc: Global) -> Self
        ensures { result ≡ untold }
    {
        Reader {
            dying: Vec::new(alloc),
            arrows: 0,
            outline: Outline::new(alloc),
            said: Vec::new(alloc),
            comments: Vec::new(alloc),
        }
    }

    /// The diagram, if no block is open.
    #[tactic(auto, unfolding(crate::specs::Reading::told))]
    pub(crate) fn finish(self) -> Result<Diagram, ImportFault>
        ensures { Gives (λ x. x) result (told self) }
    {
        let Reader {
            dying,
            arrows: _,
            outline,
            said,
            comments,
        } = self;
        drop(dying);
        let (lines, names) = outline.finish()?;
        Ok(Diagram {
            lines,
            names,
            statements: Listed::from_vec(said),
            comments: Listed::from_vec(comments),
        })
    }

    /// Lists one more comment, which has these bytes.
    pub(crate) fn list_comment(&mut self, whole: Span) -> Result<(), AllocError>
        ensures { IfOk result (λ _. self.new ≡ with_comment whole self.old) }
    {
        self.comments.push(whole)?;
        Ok(())
    }

    /// Lists one more statement, which has this beginning and these bytes and is taken in already.
    fn list(
        &mut self,
        here: Position,
        whole: Span,
        tail: usize,
        statement: Statement,
    ) -> Result<(), AllocError>
        ensures { IfOk result
            (λ _. self.new ≡ listed self.old here whole tail statement self.old.outline) }
    {
        let arrow = is_arrow(&statement);
        let shown = shown_span(whole, tail, &statement);
        self.said.push(Placed {
            line: here.line,
            column: here.column,
            number: self.arrows + 1,
            statement,
            whole,
            shown,
        })?;
        if arrow {
            self.dying.clear();
            self.arrows += 1;
        }
        Ok(())
    }

    /// Notes a statement, which has this beginning and these bytes.
    #[tactic(auto, unfolding(crate::specs::Reading::noted))]
    fn note(
        &mut self,
        alloc: Global,
        here: Position,
        whole: Span,
        said: Said,
    ) -> Result<(), ImportFault>
        ensures { Leaves result self.new (noted self.old here whole said) }
    {
        match said {
            Said::Nothing => Ok(()),
            Said::Dies(name) => {
                self.dying.push(name)?;
                Ok(())
            }
            Said::Statement(statement, tails) => {
                let name = whole.past.saturating_sub(tails.name);
                self.outline
                    .lay(alloc, here, whole.first, name, &statement)?;
                self.list(here, whole, tails.shown, statement)?;
                Ok(())
            }
        }
    }

    /// Reads one statement, which begins here.
    #[tactic(auto, unfolding(crate::specs::Reading::read_one))]
    pub(crate) fn read_one(
        &mut self,
        alloc: Global,
        cross: Option<Cross>,
        spot: StatementStart,
        bytes: &[u8],
    ) -> Result<(), ImportFault>
        ensures { Leaves result self.new (read_one cross spot bytes.now self.old) }
    {
        let mode = Mode {
            cross,
            dying: self.dying.as_slice(),
        };
        let said = said_at(alloc, mode, spot.here, bytes)?;
        self.note(alloc, spot.here, span_of(spot.first, bytes.len()), said)
    }
}
