//! The parts of a chart, from the events of a draft without faults.

ghost use Rattle.std.specs.Prelude.{◌≡◌, ◌<◌, ◌≤◌, ℕ, map, length, cond, IfOk};
ghost use Rattle.std.specs.Option.{option_copied};
ghost use Rattle.msc_chart.specs.Events.{instances_of};
ghost use Rattle.msc_chart.specs.Charting.{end_place, partner_of, event_of, events_from};
ghost use Rattle.msc_chart.specs.Charting.{messages_from, texts_of};
ghost use Rattle.msc_chart.specs.Faults.{IsTwice};
ghost use Rattle.msc_chart.specs.Lists.{StandsAt};
ghost use Rattle.msc_chart.specs.Tables.{numbers_of, partners_of};
ghost use Rattle.msc_chart.specs.Views.{end_view, event_view, mark_view};

use crate::EVENT_LIMIT;
use crate::end::{DraftEvent, Mark, MessageEnd};
use crate::event::{ChartEvent, EventKind};
use crate::message::Message;
use indexmap::IndexSet;
use listed::Listed;
use msc_lexer::TEXT_LIMIT;
use msc_parser::{Draft, Label, Name};
use std::alloc::{AllocError, Global};

/// The place of an end among all events, or the number of events.
fn place<'d>(places: &IndexSet<Mark<'d>>, end: MessageEnd<'d>) -> usize
    ensures place { result ≡ end_place (map mark_view places.now.keys) (end_view end.entry) }
    ensures within { result ≤ length places.now.keys }
{
    places
        .get_index_of(&Mark::OfMessage(end))
        .unwrap_or(places.len())
}

/// The event at the other end of the message of event `e`, which has this mark, or the number of
/// all events if there is none. An action is its own other end.
fn partner<'d>(places: &IndexSet<Mark<'d>>, e: u32, mark: &Mark<'d>) -> u32
    requires { length places.now.keys ≤ TEXT_LIMIT }
    ensures { result ≡ partner_of (map mark_view places.now.keys) e (mark_view mark.entry.now) }
{
    match mark {
        Mark::OfMessage(end) => place(places, end.other()) as u32,
        Mark::Action(_, _) => e,
    }
}

/// The partners of all events.
pub(crate) fn partners<'d>(
    alloc: Global,
    places: &IndexSet<Mark<'d>>,
) -> Result<Vec<u32>, AllocError>
    requires { length places.now.keys ≤ TEXT_LIMIT }
    ensures { IfOk result (λ partners.
        partners.items ≡ partners_of (map mark_view places.now.keys)) }
{
    let marks = places.as_slice();
    let mut partners = Vec::with_capacity(alloc, marks.len())?;
    for (e, mark) in marks.iter().enumerate() {
        partners.push(partner(places, e as u32, mark))?;
    }
    Ok(partners)
}

/// The number of outputs before each end of a message, the number of actions before each action,
/// and last the number of all outputs.
fn numbers(alloc: Global, marks: &[Mark]) -> Result<Vec<u32>, AllocError>
    requires { length marks.now ≤ EVENT_LIMIT }
    ensures { IfOk result (λ numbers. numbers.items ≡ numbers_of (map mark_view marks.now)) }
{
    let mut numbers = Vec::with_capacity(alloc, marks.len() + 1)?;
    let mut outputs = 0;
    let mut actions = 0;
    for mark in marks {
        match mark {
            Mark::OfMessage(end) => {
                numbers.push(outputs)?;
                if end.sends {
                    outputs += 1;
                }
            }
            Mark::Action(_, _) => {
                numbers.push(actions)?;
                actions += 1;
            }
        }
    }
    numbers.push(outputs)?;
    Ok(numbers)
}

/// The kind of an end.
fn kind_of(sends: bool) -> EventKind
    ensures { result ≡ cond sends EventKind.Output EventKind.Input }
{
    if sends {
        EventKind::Output
    } else {
        EventKind::Input
    }
}

/// The output of the message of event `e`, an end of a message with this partner.
fn output_of(sends: bool, e: u32, partner: u32) -> u32
    ensures { result ≡ cond sends e partner }
{
    if sends { e } else { partner }
}

/// Event `e` of a chart, made of this event of a draft.
fn charted<'d>(
    e: u32,
    event: &DraftEvent<'d>,
    marks: &[Mark<'d>],
    partners: &[u32],
    numbers: &[u32],
) -> ChartEvent
    requires within { e < length marks.now }
    requires own { StandsAt (map mark_view marks.now) e (event_view event.now).act }
    requires once { (k : ℕ) → IsTwice (map mark_view marks.now) k → ⊥ }
    requires partners { partners.now ≡ partners_of (map mark_view marks.now) }
    requires numbers { numbers.now ≡ numbers_of (map mark_view marks.now) }
    ensures { result ≡ event_of (map mark_view marks.now) e (event_view event.entry.now) }
{
    let partner = partners[e as usize];
    let (kind, subject) = match marks[e as usize] {
        Mark::OfMessage(end) => (
            kind_of(end.sends),
            numbers[output_of(end.sends, e, partner) as usize],
        ),
        Mark::Action(_, _) => (EventKind::Local, numbers[e as usize]),
    };
    ChartEvent {
        line: event.line,
        segment: event.segment,
        kind,
        partner,
        subject,
    }
}

/// The events of the chart, if no end of a message occurs twice.
pub(crate) fn chart_events<'d>(
    alloc: Global,
    events: &[DraftEvent<'d>],
    places: &IndexSet<Mark<'d>>,
    partners: &[u32],
) -> Result<Vec<ChartEvent>, AllocError>
    requires few { length places.now.keys ≤ EVENT_LIMIT }
    requires acts { map mark_view places.now.keys ≡ map (λ x. x.act) (map event_view events.now) }
    requires once { (e : ℕ) → IsTwice (map mark_view places.now.keys) e → ⊥ }
    requires partners { partners.now ≡ partners_of (map mark_view places.now.keys) }
    ensures { IfOk result (λ chart.
        chart.items ≡ events_from (map mark_view places.now.keys) 0 (map event_view events.now)) }
{
    let marks = places.as_slice();
    let numbers = numbers(alloc, marks)?;
    let mut chart = Vec::with_capacity(alloc, marks.len())?;
    for (e, event) in events.iter().enumerate() {
        chart.push(charted(e as u32, event, marks, partners, numbers.as_slice()))?;
    }
    Ok(chart)
}

/// The names of the instances.
fn instance_names(alloc: Global, draft: &Draft) -> Result<Listed<Name>, AllocError>
    ensures { IfOk result (λ names. names ≡ instances_of draft.now) }
{
    let mut names = Vec::new(alloc);
    for section in draft.sections() {
        names.push(Name::from_slice(alloc, section.decl.name.as_slice())?)?;
    }
    Ok(Listed::from_vec(names))
}

/// The name of the chart, and the names of its instances.
pub(crate) fn names(alloc: Global, draft: &Draft) -> Result<(Name, Listed<Name>), AllocError>
    ensures chart { IfOk result (λ names. names.0 ≡ draft.now.name) }
    ensures instances { IfOk result (λ names. names.1 ≡ instances_of draft.now) }
{
    let chart = Name::from_slice(alloc, draft.name())?;
    let instances = instance_names(alloc, draft)?;
    Ok((chart, instances))
}

/// The message number of an output, as a name with its own memory.
pub(crate) fn owned_number(alloc: Global, number: Option<&[u8]>) -> Result<Option<Name>, AllocError>
    ensures { IfOk result (λ r. r ≡ option_copied number.entry) }
{
    match number {
        Some(number) => Ok(Some(Name::from_slice(alloc, number)?)),
        None => Ok(None),
    }
}

/// The messages, by their outputs.
fn messages<'d>(alloc: Global, marks: &[Mark<'d>]) -> Result<Listed<Message>, AllocError>
    requires { length marks.now ≤ EVENT_LIMIT }
    ensures { IfOk result (λ messages. messages ≡ messages_from 0 (map mark_view marks.now)) }
{
    let mut messages = Vec::new(alloc);
    for (e, mark) in marks.iter().enumerate() {
        if let Mark::OfMessage(end) = mark {
            if end.sends {
                messages.push(Message {
                    name: Name::from_slice(alloc, end.name)?,
                    number: owned_number(alloc, end.number)?,
                    output: e as u32,
                })?;
            }
        }
    }
    Ok(Listed::from_vec(messages))
}

/// The texts of the actions.
fn texts<'d>(alloc: Global, marks: &[Mark<'d>]) -> Result<Listed<Label>, AllocError>
    ensures { IfOk result (λ texts. texts ≡ texts_of (map mark_view marks.now)) }
{
    let mut texts = Vec::new(alloc);
    for mark in marks {
        if let Mark::Action(_, text) = mark {
            texts.push(Label::from_vec(text.bytes.to_vec(alloc)?))?;
        }
    }
    Ok(Listed::from_vec(texts))
}

/// The messages, by their outputs, and the texts of the actions.
pub(crate) fn subjects<'d>(
    alloc: Global,
    marks: &[Mark<'d>],
) -> Result<(Listed<Message>, Listed<Label>), AllocError>
    requires { length marks.now ≤ EVENT_LIMIT }
    ensures messages { IfOk result (λ r. r.0 ≡ messages_from 0 (map mark_view marks.now)) }
    ensures texts { IfOk result (λ r. r.1 ≡ texts_of (map mark_view marks.now)) }
{
    let messages = messages(alloc, marks)?;
    let texts = texts(alloc, marks)?;
    Ok((messages, texts))
}
