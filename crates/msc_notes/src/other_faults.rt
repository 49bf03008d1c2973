//! The further faults of a draft, after its first one, and the notes on them.

ghost use Rattle.std.specs.Prelude.{IfOk};
ghost use Rattle.msc_notes.specs.AllFaults.{AreFurther};
ghost use Rattle.msc_notes.specs.Putting.{IsPartWithout};

use crate::alike::End;
use crate::chart::tell_chart;
use crate::event::{OwnEvent, events_of};
use crate::near::Lonely;
use crate::note::FaultNotes;
use crate::standing::{ends_of, faults, is_listed};
use listed::Listed;
use msc_chart::ChartFault;
use msc_parser::Draft;
use msc_place::Places;
use std::alloc::{AllocError, Global};

/// The greatest number of further faults that are printed.
pub const FURTHER_LIMIT: usize = 20;

/// A further fault, and the notes on it.
#[derive(Drop)]
pub struct NotedFault {
    pub fault: ChartFault,
    pub told: FaultNotes,
}

/// The further faults of a draft: their number, and the first of them, at most [`FURTHER_LIMIT`].
#[derive(Drop)]
pub struct FurtherFaults {
    pub count: usize,
    pub first: Listed<NotedFault>,
}

/// The event of a fault, if it is a fault of an event.
fn event_of(fault: ChartFault) -> Option<u32> {
    match fault {
        ChartFault::UnknownAddress(e)
        | ChartFault::TwiceEvent(e)
        | ChartFault::UnmatchedOut(e)
        | ChartFault::UnmatchedIn(e) => Some(e),
        _ => None,
    }
}

/// Whether the event was named.
fn is_named(named: &[bool], e: usize) -> bool {
    named.get(e).copied().unwrap_or(false)
}

/// Whether an event that was named may have been meant as the other end of event `e`.
fn is_told_there<'d>(
    events: &[OwnEvent<'d>],
    outputs: &Lonely<'d>,
    named: &[bool],
    e: u32,
) -> bool {
    match events.get(e as usize).and_then(|event| End::of(event)) {
        Some(end) => match outputs.near(&end) {
            Some(f) => is_named(named, f),
            None => false,
        },
        None => false,
    }
}

/// Whether the fault is new: no earlier fault named its event, nor the output that may have been
/// meant as the other end of an input. Its event is then named.
fn is_news<'d>(
    events: &[OwnEvent<'d>],
    outputs: &Lonely<'d>,
    named: &mut [bool],
    fault: ChartFault,
) -> bool {
    let Some(e) = event_of(fault) else {
        return true;
    };
    if is_named(named, e as usize) {
        return false;
    }
    if let ChartFault::UnmatchedIn(e) = fault
        && is_told_there(events, outputs, named, e)
    {
        return false;
    }
    if let Some(slot) = named.get_mut(e as usize) {
        *slot = true;
    }
    true
}

/// The new faults among these, without the first one.
fn others<'d>(
    alloc: Global,
    events: &[OwnEvent<'d>],
    all: &[ChartFault],
    first: ChartFault,
) -> Result<Vec<ChartFault>, AllocError>
    ensures { IfOk result (λ further. IsPartWithout first further.items all.now) }
{
    let ends = ends_of(alloc, events)?;
    let outputs = Lonely::of(alloc, events, &ends, true)?;
    let mut named = vec![in alloc; false; events.len()]?;
    let mut further = Vec::new(alloc);
    for fault in all {
        if is_news(events, &outputs, &mut named, *fault) && *fault != first {
            further.push(*fault)?;
        }
    }
    Ok(further)
}

/// The further faults after the first fault of a draft, which is one of [`faults`], in their order.
/// Two sorts are left out: a fault of an event that has one with a lower number, and that of an
/// input without an output if one of the faults is about an output that may have been meant for it.
/// The only error is want of memory.
pub fn further(
    alloc: Global,
    draft: &Draft,
    first: ChartFault,
) -> Result<Vec<ChartFault>, AllocError>
    ensures { IfOk result (λ further. AreFurther draft.now first further.items) }
{
    if !is_listed(first) {
        return Ok(Vec::new(alloc));
    }
    let all = faults(alloc, draft)?;
    let events = events_of(alloc, draft)?;
    others(alloc, events.as_slice(), all.as_slice(), first)
}

/// The notes on the further faults after the first fault of a draft. `places` are those of the
/// draft's text. The only error is want of memory.
pub fn tell_further(
    alloc: Global,
    draft: &Draft,
    places: &Places,
    first: ChartFault,
) -> Result<FurtherFaults, AllocError> {
    let further = further(alloc, draft, first)?;
    let mut told = Vec::new(alloc);
    for fault in further.iter().take(FURTHER_LIMIT) {
        told.push(NotedFault {
            fault: *fault,
            told: tell_chart(alloc, draft, places, *fault)?,
        })?;
    }
    Ok(FurtherFaults {
        count: further.len(),
        first: Listed::from_vec(told),
    })
}
