//! The events that are named on a command line.
//!
//! In a chart `:LINE` is the first event whose statement begins on the line. In a diagram an arrow
//! begins there, which has two events; two names together tell which: the two events are on one
//! line, and the second is an input, if there are such events.

ghost use Rattle.std.specs.Prelude.{◌≡◌, IfOk, MatchOption, None};
ghost use Rattle.msc_answer.specs.Naming.{AreNamed, AreTwoOrFault, HasNoLead, HasNoPair};
ghost use Rattle.msc_answer.specs.Naming.{HasNoPairIn, HasNoSecond, IsLead, IsLeastPair};
ghost use Rattle.msc_answer.specs.Naming.{IsLeastPairIn, IsLeastSecond, IsNamed, IsNamedIn};
ghost use Rattle.msc_answer.specs.Naming.{begins_on, can_lead, can_mean, can_pair};

use crate::text_chart::TextChart;
use msc_chart::{Chart, Event};
use msc_import::Imported;
use msc_place::{Lines, Places, Position};
use msc_report::{EventName, NamedFault};
use std::alloc::{AllocError, Global};

/// Whether the arrow of an event begins on a line, by the positions of the arrows.
fn begins_on(positions: &[Position], line: u32, e: Event) -> bool
    ensures { result ≡ begins_on positions.now line e }
{
    match positions.get(e as usize) {
        Some(position) => position.line == line as usize,
        None => false,
    }
}

/// Whether a name in a diagram can mean an event: the one with its number, or one of an arrow that
/// begins on its line.
fn can_mean(positions: &[Position], name: EventName, e: Event) -> bool
    ensures { result ≡ can_mean positions.now name e }
{
    match name {
        EventName::Number(number) => number == e,
        EventName::Line(line) => begins_on(positions, line, e),
    }
}

/// Whether two names can mean these two events of a chart, which are on one line, and of which the
/// second is an input.
fn can_pair(
    positions: &[Position],
    chart: &Chart,
    first: EventName,
    second: EventName,
    e: Event,
    f: Event,
) -> bool
    ensures { result ≡ can_pair positions.now chart.now first second e f }
{
    e < chart.events()
        && f < chart.events()
        && e != f
        && can_mean(positions, first, e)
        && can_mean(positions, second, f)
        && chart.instance_of(e) == chart.instance_of(f)
        && !chart.is_controlled(f)
}

/// Whether an event of a chart is the one that a name means by itself in a diagram: the one with its
/// number, or an output or action of an arrow that begins on its line.
fn can_lead(positions: &[Position], chart: &Chart, name: EventName, e: Event) -> bool
    ensures { result ≡ can_lead positions.now chart.now name e }
{
    if e >= chart.events() {
        return false;
    }
    match name {
        EventName::Number(number) => number == e,
        EventName::Line(line) => begins_on(positions, line, e) && chart.is_controlled(e),
    }
}

/// The second event of the least pair whose first event is `e`, if there is one.
fn second_with(
    positions: &[Position],
    chart: &Chart,
    first: EventName,
    second: EventName,
    e: Event,
) -> Option<Event>
    ensures { MatchOption result (HasNoSecond positions.now chart.now first second e)
        (IsLeastSecond positions.now chart.now first second e) }
{
    if !can_mean(positions, first, e) {
        return None;
    }
    for f in 0..chart.events() {
        if can_pair(positions, chart, first, second, e, f) {
            return Some(f);
        }
    }
    None
}

/// The least pair of events that two names can mean in a diagram, if there is one.
fn pair_in(
    imported: &Imported,
    chart: &Chart,
    first: EventName,
    second: EventName,
) -> Option<(Event, Event)>
    ensures { MatchOption result (HasNoPairIn imported.now.places chart.now first second)
        (λ p. IsLeastPairIn imported.now.places chart.now first second p.0 p.1) }
{
    let positions = imported.places.as_slice();
    for e in 0..chart.events() {
        if let Some(f) = second_with(positions, chart, first, second, e) {
            return Some((e, f));
        }
    }
    None
}

/// The least pair of events that two names can mean, if the text is a diagram and has one.
fn pair_of(
    source: &TextChart<'_, '_>,
    first: EventName,
    second: EventName,
) -> Option<(Event, Event)>
    ensures { MatchOption result (HasNoPair source.now first second)
        (λ p. IsLeastPair source.now first second p.0 p.1) }
{
    match source.imported() {
        None => None,
        Some(imported) => pair_in(imported, source.chart(), first, second),
    }
}

/// The event that a name means by itself in a diagram, if there is one.
fn lead_named(imported: &Imported, chart: &Chart, name: EventName) -> Option<Event>
    ensures { MatchOption result (HasNoLead imported.now.places chart.now name)
        (IsLead imported.now.places chart.now name) }
{
    let positions = imported.places.as_slice();
    for e in 0..chart.events() {
        if can_lead(positions, chart, name, e) {
            return Some(e);
        }
    }
    None
}

/// The first event whose statement begins on a line of a chart, if there is one.
fn event_at_line(
    alloc: Global,
    source: &TextChart<'_, '_>,
    line: u32,
) -> Result<Option<Event>, AllocError>
    requires { source.now.imported ≡ None }
    ensures { IfOk result (IsNamedIn source.now.text source.now.chart (EventName.Line line)) }
{
    source.facts();
    source.chart().facts();
    let places = Places::of(alloc, source.text())?;
    let lines = Lines::of(alloc, source.text())?;
    match places.event_at_line(&lines, line as usize) {
        Some(e) => Ok(Some(e as Event)),
        None => Ok(None),
    }
}

/// The event with a name in a chart, if there is one.
fn event_in_chart(
    alloc: Global,
    source: &TextChart<'_, '_>,
    name: EventName,
) -> Result<Option<Event>, AllocError>
    requires { source.now.imported ≡ None }
    ensures { IfOk result (IsNamedIn source.now.text source.now.chart name) }
{
    match name {
        EventName::Number(e) if e < source.chart().events() => Ok(Some(e)),
        EventName::Number(_) => Ok(None),
        EventName::Line(line) => event_at_line(alloc, source, line),
    }
}

/// The event that a name means by itself, if there is one.
fn event_named(
    alloc: Global,
    source: &TextChart<'_, '_>,
    name: EventName,
) -> Result<Option<Event>, AllocError>
    ensures { IfOk result (IsNamed source.now name) }
{
    match source.imported() {
        None => event_in_chart(alloc, source, name),
        Some(imported) => Ok(lead_named(imported, source.chart(), name)),
    }
}

/// The two events that these names mean by themselves, or why they are not two events.
fn two_named(
    alloc: Global,
    source: &TextChart<'_, '_>,
    first: EventName,
    second: EventName,
) -> Result<Result<(Event, Event), NamedFault>, AllocError>
    ensures { IfOk result (AreTwoOrFault source.now first second) }
{
    let Some(e) = event_named(alloc, source, first)? else {
        return Ok(Err(NamedFault::NoEvent(first)));
    };
    let Some(f) = event_named(alloc, source, second)? else {
        return Ok(Err(NamedFault::NoEvent(second)));
    };
    if e == f {
        return Ok(Err(NamedFault::OneEvent(first, second)));
    }
    Ok(Ok((e, f)))
}

/// The two events with these names, or why they are not two events: the least pair that they can
/// mean in a diagram, otherwise those that each of them means by itself.
pub(crate) fn pair_named(
    alloc: Global,
    source: &TextChart<'_, '_>,
    first: EventName,
    second: EventName,
) -> Result<Result<(Event, Event), NamedFault>, AllocError>
    ensures { IfOk result (AreNamed source.now first second) }
{
    match pair_of(source, first, second) {
        Some(pair) => Ok(Ok(pair)),
        None => two_named(alloc, source, first, second),
    }
}
