//! The queues that a text names itself: in the comment after a chart's name, or in a comment line of
//! a diagram.

ghost use Rattle.std.specs.Prelude.{◌≡◌, IfOk, drop};
ghost use Rattle.msc_links.specs.Comments.{Reading};
ghost use Rattle.msc_answer.specs.Own.{IsOwnAt, IsOwnBy, IsReadAs, IsSilent, SaysIf, SaysInChart};
ghost use Rattle.msc_answer.specs.Own.{ShowsInChart, ShowsInDiagram, said_in, said_on_line};
ghost use Rattle.msc_answer.specs.Spans.{bytes_at};

use crate::ending::Refusal;
use msc_import::TextSpans;
use msc_links::{LinkFault, OwnFault, OwnQueues, own_queues_of_chart};
use msc_mark::chart_comment;
use msc_mermaid::Span;
use msc_place::Position;
use msc_report::Fault;
use msc_scenario_marks::position_at;
use std::alloc::{AllocError, Global};

/// The place of a comment in which a text names its queues.
#[derive(Clone, Copy)]
pub struct OwnPlace {
    /// The number of bytes of the text before it.
    pub at: usize,
    /// What a refusal shows of it: in a chart this number, in a diagram its line.
    pub number: usize,
    /// Its line and column.
    pub position: Position,
}

/// The queues that a text names itself, and the place of its comment.
#[derive(Drop)]
pub(crate) struct OwnComment<'t> {
    pub place: OwnPlace,
    pub queues: OwnQueues<'t>,
}

/// Why a command line and a text give no queues.
#[derive(Clone, Copy)]
pub enum LinkRefusal<'w> {
    /// A rule of the command line is faulty. It is the first such rule.
    Given(LinkFault<'w>),
    /// A rule of the text is faulty, in the comment at this place. It is the first such rule.
    Text(LinkFault<'w>, OwnPlace),
    /// The comment at this place begins as one that names queues, and cannot be read.
    Unclear(OwnPlace),
}

/// How a refusal shows a place in a chart.
fn place_in_chart(text: &[u8], at: usize) -> OwnPlace
    ensures { ShowsInChart text.now at result }
{
    OwnPlace {
        at,
        number: at,
        position: Position::of(text, at.min(text.len())),
    }
}

/// How a refusal shows a place in a diagram.
fn place_in_diagram(alloc: Global, text: &[u8], at: usize) -> Result<OwnPlace, AllocError>
    ensures { IfOk result (ShowsInDiagram text.now at) }
{
    let position = position_at(alloc, text, at)?;
    Ok(OwnPlace {
        at,
        number: position.line,
        position,
    })
}

/// What a comment says of queues, by how it was read and how its place is shown.
fn own_at<'t>(
    place: OwnPlace,
    answer: Result<Option<OwnQueues<'t>>, OwnFault>,
) -> Result<Option<OwnComment<'t>>, Refusal<'t>>
    ensures { (reading : Reading) → IsReadAs reading answer.entry → IsOwnAt place reading result }
{
    match answer {
        Ok(None) => Ok(None),
        Ok(Some(queues)) => Ok(Some(OwnComment { place, queues })),
        Err(OwnFault::Expected) => Err(Refusal::Link(LinkRefusal::Unclear(place))),
        Err(OwnFault::Memory) => Err(Refusal::Fault(Fault::Memory)),
    }
}

/// What the text of a chart says of its queues.
fn own_in_chart<'t>(alloc: Global, text: &'t [u8]) -> Result<Option<OwnComment<'t>>, Refusal<'t>>
    ensures { IsOwnBy (SaysInChart text.entry.now) (ShowsInChart text.entry.now) result }
{
    let Some(comment) = chart_comment(alloc, text)? else {
        return Ok(None);
    };
    let answer = own_queues_of_chart(alloc, comment.bytes);
    own_at(place_in_chart(text, comment.at), answer)
}

/// What the text of a chart says of its queues, if it is asked for them.
pub(crate) fn own_of_chart<'t>(
    alloc: Global,
    asked: bool,
    text: &'t [u8],
) -> Result<Option<OwnComment<'t>>, Refusal<'t>>
    ensures { IsOwnBy (SaysIf asked (SaysInChart text.entry.now)) (ShowsInChart text.entry.now)
        result }
{
    if asked {
        own_in_chart(alloc, text)
    } else {
        Ok(None)
    }
}

/// Whether the text of a chart says nothing of its queues. An error is that what it says cannot be
/// read, or a growth of memory that was refused.
pub fn chart_is_silent<'t>(alloc: Global, text: &'t [u8]) -> Result<bool, Refusal<'t>>
    ensures { IfOk result (IsSilent (SaysInChart text.entry.now)) }
{
    Ok(own_in_chart(alloc, text)?.is_none())
}

/// The bytes of a text in a span, or none if the text is shorter.
pub(crate) fn bytes_at<'t>(text: &'t [u8], span: Span) -> &'t [u8]
    ensures { result.now ≡ bytes_at text.entry.now span }
{
    if span.first <= span.past && span.past <= text.len() {
        &text[span.first..span.past]
    } else {
        b""
    }
}

/// The bytes after the two percent signs of a comment line.
pub(crate) fn after_signs(line: &[u8]) -> &[u8]
    ensures { result.now ≡ drop 2 line.now }
{
    if line.len() < 2 {
        return &[];
    }
    &line[2..]
}

/// What a comment line of a diagram says of its queues.
fn own_on_line<'t>(
    alloc: Global,
    text: &'t [u8],
    comment: Span,
) -> Result<Option<OwnComment<'t>>, Refusal<'t>>
    ensures { IsOwnBy (λ said. said ≡ said_on_line text.entry.now comment)
        (ShowsInDiagram text.entry.now) result }
{
    let answer = own_queues_of_chart(alloc, after_signs(bytes_at(text, comment)));
    if let Ok(None) = answer {
        return Ok(None);
    }
    own_at(place_in_diagram(alloc, text, comment.first)?, answer)
}

/// What a diagram with these comment lines says of its queues.
fn own_in_diagram<'t>(
    alloc: Global,
    text: &'t [u8],
    comments: &[Span],
) -> Result<Option<OwnComment<'t>>, Refusal<'t>>
    ensures { IsOwnBy (λ said. said ≡ said_in text.entry.now comments.now)
        (ShowsInDiagram text.entry.now) result }
{
    for comment in comments {
        let own = own_on_line(alloc, text, *comment)?;
        if own.is_some() {
            return Ok(own);
        }
    }
    Ok(None)
}

/// Whether a diagram with these comment lines says nothing of its queues. An error is that what it
/// says cannot be read, or a growth of memory that was refused.
pub fn diagram_is_silent<'t>(
    alloc: Global,
    text: &'t [u8],
    comments: &[Span],
) -> Result<bool, Refusal<'t>>
    ensures { IfOk result (IsSilent (λ said. said ≡ said_in text.entry.now comments.now)) }
{
    Ok(own_in_diagram(alloc, text, comments)?.is_none())
}

/// What a diagram whose names and comments have these places says of its queues, if it is asked for
/// them.
pub(crate) fn own_of_diagram<'t>(
    alloc: Global,
    asked: bool,
    text: &'t [u8],
    spans: &TextSpans,
) -> Result<Option<OwnComment<'t>>, Refusal<'t>>
    ensures { IsOwnBy (SaysIf asked (λ said. said ≡ said_in text.entry.now spans.now.comments))
        (ShowsInDiagram text.entry.now) result }
{
    if asked {
        own_in_diagram(alloc, text, spans.comments.as_slice())
    } else {
        Ok(None)
    }
}
