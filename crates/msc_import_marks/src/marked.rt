//! The text of an import with the marks of its diagram.

ghost use Rattle.std.specs.Prelude.{◌≡◌, IfOk};
ghost use Rattle.msc_arrow_marks.specs.Marks.{found_in};
ghost use Rattle.msc_import_marks.specs.Marked.{scenario_comments, IsCommentedText, IsMarkedBy};
ghost use Rattle.msc_import_marks.specs.Marked.{IsMarkedText};

use crate::commented::commented;
use crate::comments::mark_comments;
use crate::met::met_arrows;
use listed::Listed;
use msc_arrow_marks::{ArrowMark, DiagramMarks};
use msc_import::{EventSpans, Own};
use msc_mermaid::Diagram;
use msc_place::Places;
use msc_scenarios::Walker;
use std::alloc::{AllocError, Global};

/// A scenario of a diagram: its choices, and what an arrow to oneself is; and the places of its
/// events in the text.
#[derive(Clone, Copy)]
pub struct DrawnScenario<'s> {
    pub diagram: &'s Diagram,
    pub choices: &'s [usize],
    pub own: Own,
    pub events: &'s [EventSpans],
}

/// The comments of the events of a scenario, by these marks of its diagram.
fn scenario_comments(
    alloc: Global,
    text: &[u8],
    marks: &[ArrowMark],
    drawn: DrawnScenario<'_>,
) -> Result<Vec<Option<Listed<u8>>>, AllocError>
    ensures { IfOk result (λ comments. comments.items ≡ scenario_comments text.now marks.now drawn.entry) }
{
    let statements = drawn.diagram.statements.as_slice();
    let walker = Walker::through(alloc, drawn.diagram, drawn.choices)?;
    let met = met_arrows(alloc, drawn.own, statements, walker.steps())?;
    mark_comments(alloc, text, marks, statements, met.as_slice(), drawn.events)
}

/// A chart's text with these comments of its events.
fn with_comments(
    alloc: Global,
    text: &[u8],
    comments: &[Option<Listed<u8>>],
) -> Result<Vec<u8>, AllocError>
    ensures { IfOk result (λ out. IsCommentedText text.now comments.now out.items) }
{
    let places = Places::of(alloc, text)?;
    places.known();
    commented(alloc, &places, comments)
}

/// A chart's text with these marks.
fn with_these(
    alloc: Global,
    text: &[u8],
    marks: &[ArrowMark],
    drawn: DrawnScenario<'_>,
    chart: Vec<u8>,
) -> Result<Vec<u8>, AllocError>
    ensures { IfOk result (λ out. IsMarkedBy text.now marks.now drawn.entry chart.items out.items) }
{
    if marks.is_empty() {
        return Ok(chart);
    }
    let comments = scenario_comments(alloc, text, marks, drawn)?;
    with_comments(alloc, chart.as_slice(), comments.as_slice())
}

/// The text of the chart of a scenario with the marks of its diagram, which stands in this text: the
/// comment of an event is the mark of its arrow. Marks that cannot be read, and a second one of an
/// arrow, are left out. `chart` is the canonical text of the chart. An error is a growth of memory
/// that was refused.
pub fn with_marks(
    alloc: Global,
    text: &[u8],
    drawn: DrawnScenario<'_>,
    chart: Vec<u8>,
) -> Result<Vec<u8>, AllocError>
    ensures { IfOk result (λ out. IsMarkedText text.now drawn.entry chart.items out.items) }
{
    let found = DiagramMarks::of(alloc, text, drawn.diagram)?;
    with_these(alloc, text, found.marks.as_slice(), drawn, chart)
}
