//! Ends of messages, and which are alike.

ghost use Rattle.std.specs.Prelude.{◌≡◌, Option, option_map, map, MatchOption};
ghost use Rattle.std.specs.Option.{option_copied};
ghost use Rattle.msc_chart.specs.Events.{address_of, end_of, is_end, other_end, same_end};
ghost use Rattle.msc_chart.specs.Events.{same_name};
ghost use Rattle.msc_chart.specs.Events.{same_number};
ghost use Rattle.msc_notes.specs.Events.{act_view, end_in, end_view};
ghost use Rattle.msc_notes.specs.FaultNotes.{IsFirstEnd, HasNoEnd};

use crate::event::OwnEvent;
use msc_parser::{Direction, Signal, Statement};

/// An end of a message, with its names in the draft.
#[derive(Clone, Copy, PartialEq, Eq, Hash)]
pub(crate) struct End<'d> {
    pub sends: bool,
    pub sender: &'d [u8],
    pub receiver: &'d [u8],
    pub name: &'d [u8],
    pub number: Option<&'d [u8]>,
}

/// The end of a message in a statement of the instance `own`.
fn end_of<'d>(own: &'d [u8], signal: &'d Signal) -> End<'d>
    ensures { end_view result ≡ end_of own.entry.now signal.entry.now }
{
    let address = signal.address.as_slice();
    let name = signal.name.as_slice();
    let number = match &signal.number {
        Some(number) => Some(number.as_slice()),
        None => None,
    };
    match signal.direction {
        Direction::Output => End {
            sends: true,
            sender: own,
            receiver: address,
            name,
            number,
        },
        Direction::Input => End {
            sends: false,
            sender: address,
            receiver: own,
            name,
            number,
        },
    }
}

/// Whether both are one name.
fn same_name(a: &[u8], b: &[u8]) -> bool
    ensures { result ≡ same_name a.now b.now }
{
    a == b
}

/// Whether both are one name, or none.
fn same_number(a: Option<&[u8]>, b: Option<&[u8]>) -> bool
    ensures { result ≡ same_number (option_copied a.entry) (option_copied b.entry) }
{
    match (a, b) {
        (Some(a), Some(b)) => same_name(a, b),
        (None, None) => true,
        _ => false,
    }
}

impl<'d> End<'d> {
    /// The end of a message that an event is, if it is one.
    pub fn of(event: &OwnEvent<'d>) -> Option<End<'d>>
        ensures { option_map end_view result ≡ end_in event.now }
    {
        match event.statement {
            Statement::Message(signal) => Some(end_of(event.own, signal)),
            Statement::Action(_) => None,
        }
    }

    /// The other end of the same message.
    pub fn other(&self) -> End<'d>
        ensures { end_view result ≡ other_end (end_view self.entry.now) }
    {
        End {
            sends: !self.sends,
            ..*self
        }
    }

    /// The name in its address.
    pub fn address(&self) -> &'d [u8]
        ensures { result.now ≡ address_of (end_view self.entry.now) }
    {
        if self.sends {
            self.receiver
        } else {
            self.sender
        }
    }
}

/// Whether two ends are equal.
fn same_end(a: &End, b: &End) -> bool
    ensures { result ≡ same_end (end_view a.now) (end_view b.now) }
{
    a.sends == b.sends
        && same_name(a.sender, b.sender)
        && same_name(a.receiver, b.receiver)
        && same_name(a.name, b.name)
        && same_number(a.number, b.number)
}

/// Whether an event is this end.
fn is_end(event: &OwnEvent, end: &End) -> bool
    ensures { result ≡ is_end (end_view end.now) (act_view event.now) }
{
    match End::of(event) {
        Some(other) => same_end(end, &other),
        None => false,
    }
}

/// The first event that is this end.
pub(crate) fn first_end(events: &[OwnEvent], end: &End) -> Option<usize>
    ensures { MatchOption result (HasNoEnd (map act_view events.now) (end_view end.now))
        (IsFirstEnd (map act_view events.now) (end_view end.now)) }
{
    for (f, event) in events.iter().enumerate() {
        if is_end(event, end) {
            return Some(f);
        }
    }
    None
}

/// Whether both events are the two ends of one message.
pub(crate) fn are_partners(a: &OwnEvent, b: &OwnEvent) -> bool {
    match End::of(a) {
        Some(end) => is_end(b, &end.other()),
        None => false,
    }
}
