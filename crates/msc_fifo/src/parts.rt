//! Taking in the outlets of a queue that is settled.

ghost use Rattle.std.specs.Prelude.{◌≡◌, ◌≤◌, [], All, length, map, true, vec_capacity};
ghost use Rattle.msc_fifo.specs.Views.{IsTicketOf, knows};
ghost use Rattle.msc_fifo.specs.Settling.{AreSendersOf};
ghost use Rattle.msc_fifo.specs.Parts.{ArePartsOf};

use crate::accounts::Room;
use crate::outlet::Outlet;
use crate::rule::{Row, Ticket};

/// The rest of an outlet whose ticket was taken in, and room for its account.
#[derive(Drop)]
pub(crate) struct Part {
    pub sender: u32,
    pub put: Vec<u32>,
    pub closed: bool,
    pub room: Room,
}

/// Takes in the outlets' tickets from the last to the first, and keeps the rest of the outlets in
/// their order.
pub(crate) fn gather_parts(
    row: &Row,
    ticket: &mut Ticket,
    mut outlets: Vec<Outlet>,
    mut rooms: Vec<Room>,
    parts: &mut Vec<Part>,
)
    requires seat { IsTicketOf row.now ticket.old }
    requires queue { All (λ o. o.queue.table ≡ ticket.old.table_id) outlets.items }
    requires inlet { ((knows ticket.old).gets ≡ true) × ((knows ticket.old).senders ≡ []) }
    requires rooms { rooms.items ≡ map (λ o. length o.put) outlets.items }
    requires parts { (parts.old.items ≡ []) × (length outlets.items ≤ vec_capacity parts.old) }
    ensures seat { IsTicketOf row.now ticket.new }
    ensures view { knows ticket.new ≡ record (knows ticket.old) {
      room = (knows ticket.new).room;
      senders = (knows ticket.new).senders;
    } }
    ensures senders { AreSendersOf outlets.items (knows ticket.new).senders }
    ensures parts { ArePartsOf outlets.items parts.new.items }
    ensures capacity { vec_capacity parts.new ≡ vec_capacity parts.old }
{
    if let Some(outlet) = outlets.pop() {
        let room = rooms.pop().unwrap();
        gather_parts(row, ticket, outlets, rooms, parts);
        parts.push_reserved(outlet.part(row, ticket, room));
    }
}
