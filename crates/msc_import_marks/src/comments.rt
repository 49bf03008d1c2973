//! The marks of a diagram as comments of the events of a scenario.

ghost use Rattle.std.specs.Prelude.{◌≡◌, ℕ, IfOk, List, find, map, option_map};
ghost use Rattle.msc_arrow_marks.specs.Accepting.{spoken_arrow};
ghost use Rattle.msc_import_marks.specs.Comments.{comment_text, event_comment, is_of, mark_at};
ghost use Rattle.msc_import_marks.specs.Comments.{mark_comments, mark_of};

use crate::comment::comment_text;
use crate::met::{MetArrow, statement_at};
use listed::Listed;
use msc_arrow_marks::{ArrowMark, SpokenArrow, spoken_arrows};
use msc_import::EventSpans;
use msc_mermaid::Placed;
use std::alloc::{AllocError, Global};

/// Whether a mark belongs to this statement.
fn is_of(statement: usize, mark: &ArrowMark) -> bool
    ensures { result ≡ is_of statement mark.now }
{
    match mark.arrow {
        Some(arrow) => arrow == statement,
        None => false,
    }
}

/// The mark of a statement, if it has one.
fn mark_at(marks: &[ArrowMark], statement: usize) -> Option<&ArrowMark>
    ensures { option_map (λ mark. mark.now) result ≡ mark_at marks.now statement }
{
    marks.iter().find(|mark| is_of(statement, mark))
}

/// The mark of the arrow of an event, if it has one.
fn mark_of<'m>(
    marks: &'m [ArrowMark],
    statements: &[Placed],
    event: &EventSpans,
) -> Option<&'m ArrowMark>
    ensures { option_map (λ mark. mark.now) result ≡ mark_of marks.entry.now statements.now event.now }
{
    match statement_at(statements, event.statement) {
        Some(statement) => mark_at(marks, statement),
        None => None,
    }
}

/// The comment of an event, if its arrow has a mark.
fn event_comment(
    alloc: Global,
    marks: &[ArrowMark],
    statements: &[Placed],
    arrows: &[SpokenArrow],
    met: &[MetArrow],
    event: &EventSpans,
) -> Result<Option<Listed<u8>>, AllocError>
    ensures { (text : List ℕ) → arrows.now ≡ map (spoken_arrow text) statements.now
        → IfOk result (λ comment. comment
        ≡ event_comment text marks.now statements.now met.now event.now) }
{
    let Some(mark) = mark_of(marks, statements, event) else {
        return Ok(None);
    };
    let text = comment_text(alloc, arrows, met, &mark.said)?;
    Ok(Some(Listed::from_vec(text)))
}

/// The comments of the events of a scenario, by the marks of the diagram of this text and with these
/// statements: that
/// of an event is the mark of its arrow, if it has one. `met` are the arrows that the scenario
/// meets.
pub(crate) fn mark_comments(
    alloc: Global,
    text: &[u8],
    marks: &[ArrowMark],
    statements: &[Placed],
    met: &[MetArrow],
    events: &[EventSpans],
) -> Result<Vec<Option<Listed<u8>>>, AllocError>
    ensures { IfOk result (λ comments. comments.items
        ≡ mark_comments text.now marks.now statements.now met.now events.now) }
{
    let arrows = spoken_arrows(alloc, text, statements)?;
    let mut comments = Vec::with_capacity(alloc, events.len())?;
    for event in events {
        let comment = event_comment(alloc, marks, statements, arrows.as_slice(), met, event)?;
        comments.push(comment)?;
    }
    Ok(comments)
}
