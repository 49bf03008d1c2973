//! The places of a settled queue: the entries that were claimed, in the order of all senders.

ghost use Rattle.std.specs.Prelude.{◌≡◌, ◌≤◌, [], Some, true, vec_len, vec_capacity};
ghost use Rattle.msc_fifo.specs.Entries.{sender_of};
ghost use Rattle.msc_fifo.specs.Settlement.{message_of};
ghost use Rattle.msc_fifo.specs.Settling.{AreShownIn};
ghost use Rattle.msc_fifo.specs.Views.{IsTicketOf, knows};

use crate::entry::Entry;
use crate::rule::{Row, Ticket};
use crate::steps::read;

/// A place of a queue: a message or an end mark, and the clock of the place.
#[derive(Clone, Copy, Debug, PartialEq, Eq)]
pub struct Place {
    /// The number of the sender, from 0.
    pub sender: u32,
    /// The message, or nothing for the end mark.
    pub message: Option<u32>,
    /// The clock, 0 for an end mark.
    pub clock: u64,
}

impl Place {
    /// The place with this entry and this clock; without an entry it is never read.
    pub(crate) fn of(entry: Option<Entry>, clock: u64) -> Place
        ensures { (e : Entry) → entry ≡ Some e
            → result ≡ record { sender = sender_of e; message = message_of e; clock = clock } }
    {
        match entry {
            Some(Entry::Message(sender, m)) => Place {
                sender,
                message: Some(m),
                clock,
            },
            Some(Entry::Ended(sender)) => Place {
                sender,
                message: None,
                clock,
            },
            None => Place {
                sender: 0,
                message: None,
                clock,
            },
        }
    }
}

/// The places that were claimed, in the room made for them.
pub(crate) fn read_places(
    row: &Row,
    ticket: &mut Ticket,
    claimed: u64,
    mut places: Vec<Place>,
) -> Vec<Place>
    requires seat { IsTicketOf row.now ticket.old }
    requires inlet { (knows ticket.old).gets ≡ true }
    requires fits { claimed ≤ row.now.shared.key }
    requires empty { places.items ≡ [] }
    requires room { claimed ≤ vec_capacity places }
    ensures count { vec_len result ≡ claimed }
    ensures places { AreShownIn (knows ticket.old).senders result.items }
{
    for k in 0..claimed as usize {
        places.push_reserved(read(row, ticket, k));
    }
    places
}
