//! The event that a fault is about, as sentences name it.

ghost use Rattle.std.specs.Prelude.{◌≡◌, ◌++◌, IfOk, Some, map, option_map, slice_get};
ghost use Rattle.std.specs.String.{string_bytes};
ghost use Rattle.msc_notes.specs.Events.{own_view};
ghost use Rattle.msc_refusals.specs.Ends.{end_in, event_of, identified, is_output, number_part};
ghost use Rattle.msc_refusals.specs.Ends.{plain_end, said_at, said_of, signal_said, AreLent, IsLent};

use msc_chart::ChartFault;
use msc_fault_words::MessageEnd;
use msc_notes::OwnEvent;
use msc_parser::{Direction, Signal};
use msc_spoken::shown;
use std::alloc::{AllocError, Global};

/// An end of a message, as sentences name it.
#[derive(Drop)]
pub(crate) struct EndWords {
    sends: bool,
    message: String,
    owner: String,
    address: String,
}

impl EndWords {
    /// The end, lent.
    pub fn lent(&self) -> MessageEnd<'_>
        ensures { IsLent (plain_end self.entry.now) result }
    {
        MessageEnd {
            sends: self.sends,
            message: self.message.as_str(),
            owner: self.owner.as_str(),
            address: self.address.as_str(),
        }
    }
}

/// Whether an event of this direction is an output.
pub(crate) fn is_output(direction: Direction) -> bool
    ensures { result ≡ is_output direction }
{
    match direction {
        Direction::Output => true,
        Direction::Input => false,
    }
}

/// The identifier of a message with a number.
#[tactic(auto, unfolding(crate::specs::Ends::number_part))]
fn with_number(alloc: Global, name: &str, number: &str) -> Result<String, AllocError>
    ensures { IfOk result (λ said. string_bytes said ≡ name.now ++ number_part number.now) }
{
    format!(in alloc; "{name}, {number}")
}

/// The identifier of the message of an event.
fn identified(alloc: Global, signal: &Signal) -> Result<String, AllocError>
    ensures { IfOk result (λ said. string_bytes said ≡ identified signal.now.name signal.now.number) }
{
    let name = shown(alloc, signal.name.as_slice())?;
    match &signal.number {
        Some(number) => {
            let number = shown(alloc, number.as_slice())?;
            with_number(alloc, name.as_str(), number.as_str())
        }
        None => Ok(name),
    }
}

/// An end of a message, of an instance with this name.
fn signal_said(alloc: Global, own: &[u8], signal: &Signal) -> Result<EndWords, AllocError>
    ensures { IfOk result (λ end. plain_end end ≡ signal_said own.now signal.now) }
{
    let message = identified(alloc, signal)?;
    let owner = shown(alloc, own)?;
    let address = shown(alloc, signal.address.as_slice())?;
    Ok(EndWords {
        sends: is_output(signal.direction),
        message,
        owner,
        address,
    })
}

/// An event, if it is an end of a message.
fn end_in(alloc: Global, event: &OwnEvent<'_>) -> Result<Option<EndWords>, AllocError>
    ensures { IfOk result (λ end. option_map plain_end end ≡ end_in (own_view event.now)) }
{
    match event.signal() {
        Some(signal) => Ok(Some(signal_said(alloc, event.own, signal)?)),
        None => Ok(None),
    }
}

/// The event of a fault of a message.
fn event_of(fault: ChartFault) -> Option<u32>
    ensures { result ≡ event_of fault }
{
    match fault {
        ChartFault::TwiceEvent(e) | ChartFault::UnmatchedOut(e) | ChartFault::UnmatchedIn(e) => {
            Some(e)
        }
        _ => None,
    }
}

/// Event `e`, if it is there and an end of a message.
fn said_at(alloc: Global, events: &[OwnEvent<'_>], e: u32) -> Result<Option<EndWords>, AllocError>
    ensures { IfOk result (λ end. option_map plain_end end
        ≡ said_at (slice_get (map own_view events.now) e)) }
{
    match events.get(e as usize) {
        Some(event) => end_in(alloc, event),
        None => Ok(None),
    }
}

/// The event of a fault among these, if it is a fault of a message.
pub(crate) fn said_of(
    alloc: Global,
    events: &[OwnEvent<'_>],
    fault: ChartFault,
) -> Result<Option<EndWords>, AllocError>
    ensures { IfOk result (λ end. option_map plain_end end
        ≡ said_of (map own_view events.now) fault) }
{
    match event_of(fault) {
        Some(e) => said_at(alloc, events, e),
        None => Ok(None),
    }
}

/// An end, lent, if there is one.
pub(crate) fn lent(end: &Option<EndWords>) -> Option<MessageEnd<'_>>
    ensures { AreLent (option_map plain_end end.entry.now) result }
{
    match end {
        Some(end) => Some(end.lent()),
        None => None,
    }
}
