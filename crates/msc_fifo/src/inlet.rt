//! The end of the one receiver.
//!
//! Next to the queue's words, it keeps the list of the entries that it got, and a ticket whose view
//! is that list with the clocks that it read. Contracts see an `InletState`.

ghost use Rattle.std.specs.Prelude.{◌≡◌, ◌<◌, ◌≤◌, ◌+◌, ◌++◌, [], ℕ, All, map, max, length};
ghost use Rattle.std.specs.Prelude.{vec_len, vec_capacity};
ghost use Rattle.std.specs.Arc.{arc_value};
ghost use Rattle.msc_fifo.specs.Entries.{ends_in, entries_of, idle_after, IsOrderly};
ghost use Rattle.msc_fifo.specs.Ends.{new_inlet, unended_in, AreOutletsOf, Clocked, IsSameInlet};
ghost use Rattle.msc_fifo.specs.Settlement.{HasAccount, IsSettled};
ghost use Rattle.msc_fifo.specs.Views.{receives, IsTicketOf, knows};

use crate::accounts::{Account, Room, Settled};
use crate::entry::{Entry, Taken};
use crate::outlet::Outlet;
use crate::parts::{Part, gather_parts};
use crate::places::{Place, read_places};
use crate::rule::{Shelf, Ticket};
use crate::steps::{count, learn, look};
use std::marker::Model;

/// The end of the one receiver of a queue. Only [`queue`](crate::queue) makes it.
#[derive(Drop)]
pub struct Inlet {
    row: Shelf,
    ticket: Ticket,
    /// The number of senders of the queue.
    senders: u32,
    /// The entries that were taken, with room for all that may be put.
    got: Vec<Entry>,
    /// The number of senders without an end mark among these.
    unended: u32,
    /// The number of takes in a row that have found nothing since then, as contracts see it.
    idle: u32,
}

impl Model for Inlet {
    ghost use Rattle.std.specs.Prelude.{◌≡◌, ◌<◌, ◌≤◌, vec_capacity};
    ghost use Rattle.std.specs.Arc.{arc_value};
    ghost use Rattle.msc_fifo.specs.Views.{Receives, IsTicketOf, knows};
    ghost use Rattle.msc_fifo.specs.Entries.{unended_of, IsOrderly};
    ghost use Rattle.msc_fifo.specs.Ends.{InletState};

    ghost Value = { InletState };

    ghost view = { λ e. record {
      queue = record { table = e.ticket.table_id };
      senders = e.senders;
      got = e.got.items;
      clocks = e.ticket.me.0.clocks;
      idle = e.idle;
    } };

    ghost invariant = { λ e.
        IsTicketOf (arc_value e.row) e.ticket
        × Receives (knows e.ticket) (arc_value e.row).shared.key e.senders e.got.items
        × IsOrderly e.senders e.got.items
        × (e.unended ≡ unended_of e.senders e.got.items)
        × (0 < e.senders)
        × ((arc_value e.row).shared.key ≤ vec_capacity e.got) };
}

impl Inlet {
    /// A new inlet, whose list has the room of `got`.
    pub(crate) fn new(row: Shelf, ticket: Ticket, senders: u32, got: Vec<Entry>) -> Inlet
        requires seat { IsTicketOf (arc_value row) ticket }
        requires view { (room : ℕ)
            × (knows ticket ≡ receives (arc_value row).shared.key room senders [] []) }
        requires room { (arc_value row).shared.key ≤ vec_capacity got }
        requires empty { got.items ≡ [] }
        requires some { 0 < senders }
        ensures { result ≡ new_inlet (record { table = ticket.table_id }) senders }
    {
        Inlet {
            row,
            ticket,
            senders,
            got,
            unended: senders,
            idle: 0,
        }
    }

    /// Settles the queue, in the room that was made: takes in the outlets' tickets, reads the claim
    /// word and the places, and returns the accounts made from the lists of the ends.
    pub(crate) fn settle(
        self,
        outlets: Vec<Outlet>,
        rooms: Vec<Room>,
        mut parts: Vec<Part>,
        mut senders: Vec<Account>,
        places: Vec<Place>,
    ) -> Settled
        requires outlets { AreOutletsOf self outlets.items }
        requires rooms { rooms.items ≡ map (λ o. length o.put) outlets.items }
        requires parts { (parts.items ≡ []) × (length outlets.items ≤ vec_capacity parts) }
        requires senders { vec_len senders ≡ length outlets.items }
        requires places { (places.items ≡ [])
            × (self.queue.table.words ≤ vec_capacity places + vec_capacity places + 2) }
        ensures count { vec_len result.senders ≡ self.senders }
        ensures accounts { All (HasAccount result.senders.items self.got) outlets.items }
        ensures places { IsSettled self outlets.items result.places.items }
        ensures orderly { IsOrderly self.senders self.got }
    {
        let Inlet {
            row,
            mut ticket,
            got,
            ..
        } = self;
        gather_parts(&row, &mut ticket, outlets, rooms, &mut parts);
        let claimed = count(&row, &mut ticket);
        let places = read_places(&row, &mut ticket, claimed, places);
        while let Some(part) = parts.pop() {
            let Part {
                sender,
                put,
                closed,
                room,
            } = part;
            senders[sender as usize] = room.account(got.as_slice(), sender, put, closed);
        }
        Settled { senders, places }
    }

    /// Takes the first entry of the queue: a message or an end mark, each with its sender, or
    /// nothing. A message raises the clock that is handed in to that of its place. It takes no
    /// memory, and does not wait for an entry.
    pub fn take(&mut self, clock: u64) -> Taken
        ensures got { self.new.got ≡ self.old.got ++ entries_of result }
        ensures clocks { Clocked self.old clock result self.new }
        ensures even { length self.old.clocks ≡ length self.old.got }
        ensures idle { self.new.idle ≡ idle_after self.old.idle result }
        ensures same { IsSameInlet self.old self.new }
        ensures orderly { IsOrderly self.new.senders self.new.got }
        ensures unended { unended_in self.new + ends_in result ≡ unended_in self.old }
    {
        let place = self.got.len();
        if place >= self.places() {
            return self.nothing();
        }
        match look(&self.row, &mut self.ticket, place) {
            Some(Entry::Message(sender, m)) => {
                let found = learn(&self.row, &mut self.ticket, place);
                self.got.push_reserved(Entry::Message(sender, m));
                self.idle = 0;
                Taken::Message(sender, m, place as u32, later(clock, found))
            }
            Some(Entry::Ended(sender)) => {
                self.got.push_reserved(Entry::Ended(sender));
                self.unended -= 1;
                self.idle = 0;
                Taken::Ended(sender)
            }
            None => self.nothing(),
        }
    }

    /// The number of places of the queue.
    pub(crate) fn places(&self) -> usize
        ensures { self.now.queue.table.words ≡ result + result + 2 }
    {
        (self.row.word_count() - 2) / 2
    }

    /// Counts a take that found nothing.
    fn nothing(&mut self) -> Taken
        ensures answer { result ≡ Taken.Nothing }
        ensures state { self.new
            ≡ record self.old { idle = idle_after self.old.idle Taken.Nothing } }
        ensures orderly { IsOrderly self.new.senders self.new.got }
    {
        self.idle = self.idle.saturating_add(1);
        Taken::Nothing
    }

    /// The number of senders whose end mark the inlet has not got. It takes no memory.
    pub fn unended(&self) -> u32
        ensures count { result ≡ unended_in self.now }
        ensures orderly { IsOrderly self.now.senders self.now.got }
        ensures some { 0 < self.now.senders }
    {
        self.unended
    }
}

/// The later of two clocks.
fn later(one: u64, other: u64) -> u64
    ensures { result ≡ max one other }
{
    if one < other { other } else { one }
}
