//! The places of the names of lines, of the labels of arrows, of their statements and of comments
//! in a text.

ghost use Rattle.std.specs.Prelude.{◌≡◌, ◌++◌, map, IfOk, OnOk};
ghost use Rattle.std.specs.List.{flat_map};
ghost use Rattle.msc_import.specs.Plans.{seen};
ghost use Rattle.msc_import.specs.Places.{shown_at, shows, site_of, sites_in, sites_of};

use crate::plan::{Plan, Planned};
use listed::Listed;
use msc_mermaid::{Diagram, Placed, Span, Statement};
use std::alloc::{AllocError, Global};

/// The place of an event's statement in the text, that of the label of its arrow, which may be
/// empty, and the rounds of the loops around the arrow, outermost first, from 1.
#[derive(Drop)]
pub struct EventSpans {
    pub statement: Span,
    pub label: Span,
    pub rounds: Listed<usize>,
}

/// The place of the first name of each line in the text, that of its first shown name, if it has
/// one, the sites of the events, in their order, and the places of the diagram's comments.
#[derive(Drop)]
pub struct TextSpans {
    pub names: Listed<Span>,
    pub shown: Listed<Option<Span>>,
    pub events: Listed<EventSpans>,
    pub comments: Listed<Span>,
}

/// The site of an event.
fn site_of(alloc: Global, event: Planned) -> Result<EventSpans, AllocError>
    ensures { IfOk result (λ site. site ≡ site_of (seen event.entry)) }
{
    let Planned { message, side: _ } = event;
    let rounds = Vec::from_slice(alloc, message.rounds.as_slice())?;
    Ok(EventSpans {
        statement: message.statement,
        label: message.label,
        rounds: Listed::from_vec(rounds),
    })
}

/// Appends the sites of these events.
fn put_spans(
    alloc: Global,
    spans: &mut Vec<EventSpans>,
    events: &[Planned],
) -> Result<(), AllocError>
    ensures { OnOk result
        (spans.new.items ≡ spans.old.items ++ map (λ e. site_of (seen e)) events.now) }
{
    for event in events {
        spans.push(site_of(alloc, *event)?)?;
    }
    Ok(())
}

/// The sites of the events on all lines.
pub(crate) fn sites_in(alloc: Global, plans: &[Plan]) -> Result<Vec<EventSpans>, AllocError>
    ensures { IfOk result (λ v. v.items ≡ flat_map sites_in plans.now) }
{
    let mut spans = Vec::new(alloc);
    for plan in plans {
        put_spans(alloc, &mut spans, plan.events())?;
    }
    Ok(spans)
}

/// Whether a statement gives a line a shown name.
fn shows(ident: &[u8], statement: &Statement) -> bool
    ensures { result ≡ shows ident.now statement.now }
{
    match statement {
        Statement::Declares(other, Some(_)) => other.as_slice() == ident,
        _ => false,
    }
}

/// The place of the first shown name of a line.
fn shown_at(ident: &[u8], statements: &[Placed]) -> Option<Span>
    ensures { result ≡ shown_at ident.now statements.now }
{
    for placed in statements {
        if shows(ident, &placed.statement) {
            return Some(placed.shown);
        }
    }
    None
}

/// The places of the first shown names of lines.
fn all_shown(
    alloc: Global,
    lines: &[Listed<u8>],
    statements: &[Placed],
) -> Result<Vec<Option<Span>>, AllocError>
    ensures { IfOk result (λ v.
        v.items ≡ map (λ ident. shown_at ident statements.now) lines.now) }
{
    let mut shown = Vec::new(alloc);
    for line in lines {
        shown.push(shown_at(line.as_slice(), statements))?;
    }
    Ok(shown)
}

/// The places of names, labels and comments of a diagram and of these events.
pub(crate) fn sites_of(
    alloc: Global,
    diagram: &Diagram,
    events: Vec<EventSpans>,
) -> Result<TextSpans, AllocError>
    ensures { IfOk result (λ s. s ≡ sites_of diagram.now events.items) }
{
    let shown = all_shown(
        alloc,
        diagram.lines.as_slice(),
        diagram.statements.as_slice(),
    )?;
    let names = Vec::from_slice(alloc, diagram.names.as_slice())?;
    let comments = Vec::from_slice(alloc, diagram.comments.as_slice())?;
    Ok(TextSpans {
        names: Listed::from_vec(names),
        shown: Listed::from_vec(shown),
        events: Listed::from_vec(events),
        comments: Listed::from_vec(comments),
    })
}
