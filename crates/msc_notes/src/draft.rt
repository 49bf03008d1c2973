//! Names and first occurrences in a draft.

ghost use Rattle.std.specs.Prelude.{◌≡◌, map, MatchOption};
ghost use Rattle.msc_chart.specs.Events.{same_name};
ghost use Rattle.msc_notes.specs.Events.{act_view};
ghost use Rattle.msc_notes.specs.FaultNotes.{HasNoMessageAt, HasNoneNamed, IsFirstLike};
ghost use Rattle.msc_notes.specs.FaultNotes.{IsFirstNamed};

use crate::alike::{End, first_end};
use crate::event::OwnEvent;
use msc_parser::Section;
use std::alloc::{AllocError, Global};

/// Whether a section has this name.
fn is_named(section: &Section, name: &[u8]) -> bool
    ensures { result ≡ same_name section.now.decl.name name.now }
{
    section.decl.name.as_slice() == name
}

/// The first section with a name.
pub(crate) fn first_section(sections: &[Section], name: &[u8]) -> Option<usize>
    ensures { MatchOption result (HasNoneNamed sections.now name.now)
        (IsFirstNamed sections.now name.now) }
{
    for (i, section) in sections.iter().enumerate() {
        if is_named(section, name) {
            return Some(i);
        }
    }
    None
}

/// The first event with the kind and key of event `e`.
pub(crate) fn first_event(events: &[OwnEvent], e: usize) -> Option<usize>
    ensures { MatchOption result (HasNoMessageAt (map act_view events.now) e)
        (IsFirstLike (map act_view events.now) e) }
{
    match events.get(e) {
        Some(event) => match End::of(event) {
            Some(end) => first_end(events, &end),
            None => None,
        },
        None => None,
    }
}

/// The number that a name is, if it is one in its printed form.
fn number_in(name: &[u8]) -> Option<usize> {
    let mut number: usize = 0;
    for byte in name {
        if !byte.is_ascii_digit() || (number == 0 && *byte == b'0') {
            return None;
        }
        let digit = usize::from(byte.saturating_sub(b'0'));
        number = number.checked_mul(10)?.checked_add(digit)?;
    }
    Some(number)
}

/// The number that is the message instance name of an event with this message name, if there is
/// one.
fn number_of(event: &OwnEvent, name: &[u8]) -> Option<usize> {
    let signal = event.signal()?;
    if signal.name.as_slice() != name {
        return None;
    }
    match &signal.number {
        Some(number) => number_in(number.as_slice()),
        None => None,
    }
}

/// The least number from 2 on that is the message instance name of no event with this message name.
fn free_number(alloc: Global, events: &[OwnEvent], name: &[u8]) -> Result<usize, AllocError> {
    let most = events.len().saturating_add(2);
    let mut taken = vec![in alloc; false; most]?;
    for event in events {
        if let Some(number) = number_of(event, name)
            && let Some(slot) = taken.get_mut(number)
        {
            *slot = true;
        }
    }
    let free = (2..most).find(|number| !taken.get(*number).copied().unwrap_or(false));
    Ok(free.unwrap_or(most))
}

/// What tells two messages of one name apart: the name, and the least number from 2 on that is the
/// message instance name of no event with it.
pub(crate) fn apart_hint(
    alloc: Global,
    events: &[OwnEvent],
    name: &[u8],
) -> Result<Vec<u8>, AllocError> {
    let mut digits = itoa::Buffer::new();
    let number = free_number(alloc, events, name)?;
    let mut hint = Vec::from_slice(alloc, name)?;
    hint.extend_from_slice(b", ")?;
    hint.extend_from_slice(digits.format(number).as_bytes())?;
    hint.extend_from_slice(b" tells them apart")?;
    Ok(hint)
}
