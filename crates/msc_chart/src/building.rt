//! From a draft to the events of its chart.

ghost use Rattle.std.specs.Prelude.{◌≡◌, ◌≤◌, map, length, IfOk, IfErr, OnOk};
ghost use Rattle.std.specs.Map.Iter.{deref};
ghost use Rattle.msc_chart.specs.Building.{IsClearBelow, IsFirstOrMemory};
ghost use Rattle.msc_chart.specs.Events.{instances_of, acts_of, events_of};
ghost use Rattle.msc_chart.specs.Charts.{IsLinearOrder};
ghost use Rattle.msc_chart.specs.Drawings.{chart_events};
ghost use Rattle.msc_chart.specs.Tables.{partners_of};
ghost use Rattle.msc_chart.specs.Views.{event_view, mark_view, marks_from};
ghost use Rattle.msc_chart.specs.Faults.{IsFaultless, IsFirstFault};

use crate::charting::{chart_events, partners};
use crate::check::{
    are_too_many, are_too_many_actions, unknown_address, unknown_header, unmatched,
};
use crate::end::{DraftEvent, Mark, events_of};
use crate::event::{ChartEvent, Event};
use crate::fault::ChartFault;
use crate::linear::linear_order;
use crate::numbering::numbered;
use crate::{EVENT_LIMIT, INSTANCE_LIMIT};
use indexmap::IndexSet;
use msc_lexer::TEXT_LIMIT;
use msc_parser::Draft;
use std::alloc::{AllocError, Global};

/// The names of the sections, in their order.
fn section_names<'d>(alloc: Global, draft: &'d Draft) -> Result<Vec<&'d [u8]>, AllocError>
    ensures { IfOk result (λ names. map deref names.items ≡ instances_of draft.entry.now) }
{
    let mut names = Vec::new(alloc);
    for section in draft.sections() {
        names.push(section.decl.name.as_slice())?;
    }
    Ok(names)
}

/// The marks of the events.
fn marks_of<'d>(alloc: Global, events: &[DraftEvent<'d>]) -> Result<Vec<Mark<'d>>, AllocError>
    requires { length events.now ≤ TEXT_LIMIT }
    ensures value { IfOk result (λ marks. marks.items ≡ marks_from 0 events.now) }
    ensures each { IfOk result (λ marks. length marks.items ≡ length events.now) }
{
    let mut marks = Vec::with_capacity(alloc, events.len())?;
    for (e, event) in events.iter().enumerate() {
        marks.push(event.act.mark(e as u32))?;
    }
    Ok(marks)
}

/// The instances by number, if the draft has none of the faults that concern their names.
fn instances<'d>(alloc: Global, draft: &'d Draft) -> Result<IndexSet<&'d [u8]>, ChartFault>
    ensures names { IfOk result (λ names. map deref names.keys ≡ instances_of draft.entry.now) }
    ensures few { OnOk result (length draft.entry.now.sections ≤ INSTANCE_LIMIT) }
    ensures clear { OnOk result (IsClearBelow draft.entry.now 4) }
    ensures fault { IfErr result (IsFirstOrMemory draft.entry.now) }
{
    if draft.sections().len() > INSTANCE_LIMIT as usize {
        return Err(ChartFault::TooManyInstances);
    }
    let names = section_names(alloc, draft)?;
    let (numbers, repeat) = numbered(alloc, names.as_slice())?;
    if let Some(i) = repeat {
        return Err(ChartFault::TwiceInstance(i as u32));
    }
    if let Some(k) = unknown_header(draft.header(), &numbers) {
        return Err(ChartFault::HeaderWithoutBody(k as u32));
    }
    Ok(numbers)
}

/// Refuses an end of a message whose address is no instance's name.
fn refuse_unknown_address<'d>(
    draft: &Draft,
    instances: &IndexSet<&'d [u8]>,
    marks: &[Mark<'d>],
) -> Result<(), ChartFault>
    requires names { map deref instances.now.keys ≡ instances_of draft.now }
    requires acts { map mark_view marks.now ≡ acts_of draft.now }
    requires few { length marks.now ≤ TEXT_LIMIT }
    requires clear { IsClearBelow draft.now 4 }
    ensures clear { OnOk result (IsClearBelow draft.now 5) }
    ensures fault { IfErr result (IsFirstFault draft.now) }
{
    match unknown_address(marks, instances) {
        Some(e) => Err(ChartFault::UnknownAddress(e as u32)),
        None => Ok(()),
    }
}

/// Refuses more messages, or more actions, than a chart may have.
fn refuse_too_many(draft: &Draft, marks: &[Mark]) -> Result<(), ChartFault>
    requires acts { map mark_view marks.now ≡ acts_of draft.now }
    requires clear { IsClearBelow draft.now 5 }
    ensures few { OnOk result (length marks.now ≤ EVENT_LIMIT) }
    ensures clear { OnOk result (IsClearBelow draft.now 7) }
    ensures fault { IfErr result (IsFirstFault draft.now) }
{
    if are_too_many(marks) {
        return Err(ChartFault::TooManyMessages);
    }
    if are_too_many_actions(marks) {
        return Err(ChartFault::TooManyActions);
    }
    Ok(())
}

/// Refuses an end of a message without its other end, outputs first.
fn refuse_unmatched(draft: &Draft, marks: &[Mark], partners: &[u32]) -> Result<(), ChartFault>
    requires acts { map mark_view marks.now ≡ acts_of draft.now }
    requires partners { partners.now ≡ partners_of (map mark_view marks.now) }
    requires few { length marks.now ≤ EVENT_LIMIT }
    requires clear { IsClearBelow draft.now 8 }
    ensures clear { OnOk result (IsClearBelow draft.now 10) }
    ensures fault { IfErr result (IsFirstFault draft.now) }
{
    if let Some(e) = unmatched(marks, partners, true) {
        return Err(ChartFault::UnmatchedOut(e as u32));
    }
    if let Some(e) = unmatched(marks, partners, false) {
        return Err(ChartFault::UnmatchedIn(e as u32));
    }
    Ok(())
}

/// The marks of the events by place, if the draft has no fault up to a repeated end of a message.
fn places<'d>(
    alloc: Global,
    draft: &Draft,
    instances: &IndexSet<&'d [u8]>,
    events: &[DraftEvent<'d>],
) -> Result<IndexSet<Mark<'d>>, ChartFault>
    requires names { map deref instances.now.keys ≡ instances_of draft.now }
    requires events { map event_view events.now ≡ events_of draft.now }
    requires few { length events.now ≤ TEXT_LIMIT }
    requires clear { IsClearBelow draft.now 4 }
    ensures acts { IfOk result (λ places. map mark_view places.keys ≡ acts_of draft.now) }
    ensures few { IfOk result (λ places. length places.keys ≤ EVENT_LIMIT) }
    ensures clear { OnOk result (IsClearBelow draft.now 8) }
    ensures fault { IfErr result (IsFirstOrMemory draft.now) }
{
    let kept = marks_of(alloc, events)?;
    let marks = kept.as_slice();
    refuse_unknown_address(draft, instances, marks)?;
    refuse_too_many(draft, marks)?;
    let (places, repeat) = numbered(alloc, marks)?;
    match repeat {
        Some(e) => Err(ChartFault::TwiceEvent(e as u32)),
        None => Ok(places),
    }
}

/// The events of a draft, and their marks by place, if the draft has no fault up to a repeated end
/// of a message.
fn placed_events<'d>(
    alloc: Global,
    draft: &'d Draft,
) -> Result<(Vec<DraftEvent<'d>>, IndexSet<Mark<'d>>), ChartFault>
    ensures events { IfOk result (λ r. map event_view r.0.items ≡ events_of draft.entry.now) }
    ensures acts { IfOk result (λ r. map mark_view r.1.keys ≡ acts_of draft.entry.now) }
    ensures few { IfOk result (λ r. length r.1.keys ≤ EVENT_LIMIT) }
    ensures clear { OnOk result (IsClearBelow draft.entry.now 8) }
    ensures fault { IfErr result (IsFirstOrMemory draft.entry.now) }
{
    let names = instances(alloc, draft)?;
    let events = events_of(alloc, draft)?;
    let places = places(alloc, draft, &names, events.as_slice())?;
    Ok((events, places))
}

/// The partners of the events, if every end of a message has its other end.
fn matched_partners<'d>(
    alloc: Global,
    draft: &Draft,
    places: &IndexSet<Mark<'d>>,
) -> Result<Vec<u32>, ChartFault>
    requires acts { map mark_view places.now.keys ≡ acts_of draft.now }
    requires few { length places.now.keys ≤ EVENT_LIMIT }
    requires clear { IsClearBelow draft.now 8 }
    ensures value { IfOk result (λ partners.
        partners.items ≡ partners_of (map mark_view places.now.keys)) }
    ensures clear { OnOk result (IsClearBelow draft.now 10) }
    ensures fault { IfErr result (IsFirstOrMemory draft.now) }
{
    let partners = partners(alloc, places)?;
    refuse_unmatched(draft, places.as_slice(), partners.as_slice())?;
    Ok(partners)
}

/// The events of the chart, and a linear order of them, made of these events of a draft, if there
/// is no fault.
fn ordered_events<'d>(
    alloc: Global,
    draft: &Draft,
    drawn: &[DraftEvent<'d>],
    places: &IndexSet<Mark<'d>>,
) -> Result<(Vec<ChartEvent>, Vec<Event>), ChartFault>
    requires drawn { map event_view drawn.now ≡ events_of draft.now }
    requires acts { map mark_view places.now.keys ≡ acts_of draft.now }
    requires few { length places.now.keys ≤ EVENT_LIMIT }
    requires clear { IsClearBelow draft.now 8 }
    ensures events { IfOk result (λ r. r.0.items ≡ chart_events draft.now) }
    ensures order { IfOk result (λ r. IsLinearOrder r.0.items r.1.items) }
    ensures faultless { OnOk result (IsFaultless draft.now) }
    ensures fault { IfErr result (IsFirstOrMemory draft.now) }
{
    let partners = matched_partners(alloc, draft, places)?;
    let events = chart_events(alloc, drawn, places, partners.as_slice())?;
    let order = linear_order(alloc, events.as_slice(), draft.sections().len())?;
    Ok((events, order))
}

/// The events of the chart, a linear order of them, and the marks of the draft's events by place,
/// if there is no fault.
pub(crate) fn lawful_events<'d>(
    alloc: Global,
    draft: &'d Draft,
) -> Result<(Vec<ChartEvent>, Vec<Event>, IndexSet<Mark<'d>>), ChartFault>
    ensures events { IfOk result (λ r. r.0.items ≡ chart_events draft.entry.now) }
    ensures order { IfOk result (λ r. IsLinearOrder r.0.items r.1.items) }
    ensures acts { IfOk result (λ r. map mark_view r.2.keys ≡ acts_of draft.entry.now) }
    ensures few { IfOk result (λ r. length r.2.keys ≤ EVENT_LIMIT) }
    ensures faultless { OnOk result (IsFaultless draft.entry.now) }
    ensures fault { IfErr result (IsFirstOrMemory draft.entry.now) }
{
    let (drawn, places) = placed_events(alloc, draft)?;
    let (events, order) = ordered_events(alloc, draft, drawn.as_slice(), &places)?;
    Ok((events, order, places))
}
