//! The end of a sender.
//!
//! Next to the queue's words, it keeps the list of the messages that it put, and a ticket whose
//! view is that list and its claims. So the rule of the words determines which of them are not yet
//! taken (`specs/Views`). Contracts see an `OutletState`.

ghost use Rattle.std.specs.Prelude.{◌≡◌, ◌↔◌, ◌+◌, ◌<◌, ◌≤◌, [], ◌∷◌, ◌++◌, ℕ, true, false, length};
ghost use Rattle.std.specs.Prelude.{Err, OnOk, OnErr, IfOk, IsOk, IsTrue, vec_capacity};
ghost use Rattle.std.specs.Arc.{arc_value};
ghost use Rattle.msc_fifo.specs.declared.entry.Entry.TheVariants as entry;
ghost use Rattle.msc_fifo.specs.Claims.{claim};
ghost use Rattle.msc_fifo.specs.Ends.{greatest_clock, new_outlet, HasRoom, IsSameOutlet, IsSpent};
ghost use Rattle.msc_fifo.specs.Ends.{IsSpentClock};
ghost use Rattle.msc_fifo.specs.Views.{outlet_view, new_sender, IsTicketOf, knows};
ghost use Rattle.msc_fifo.specs.Settling.{HandsOver};
ghost use Rattle.msc_fifo.specs.Parts.{IsPartOf};

use crate::SENDER_LIMIT;
use crate::accounts::Room;
use crate::entry::Entry;
use crate::fault::SendFault;
use crate::parts::Part;
use crate::rule::{Row, Shelf, Ticket};
use crate::steps::{join, put, put_mark};
use std::marker::{Brand, Model};

/// The place and the clock of a message that was put.
#[derive(Clone, Copy, Debug, PartialEq, Eq)]
pub struct Sent {
    /// Its place in the queue, from 0, in the order of all senders.
    pub place: u32,
    /// The clock of the place: above the clock that was handed in.
    pub clock: u64,
}

/// The end of one sender of a queue. Only [`queue`](crate::queue) makes it.
#[derive(Drop)]
pub struct Outlet {
    row: Shelf,
    ticket: Ticket,
    /// The number of the sender, from 0.
    sender: u32,
    /// The number of messages that may be put in all.
    quota: u32,
    /// The messages that were put, with room for the quota.
    put: Vec<u32>,
    /// Whether the end mark was put.
    closed: bool,
}

impl Model for Outlet {
    ghost use Rattle.std.specs.Prelude.{◌≡◌, ◌<◌, ◌≤◌, vec_len, vec_capacity};
    ghost use Rattle.std.specs.Arc.{arc_value};
    ghost use Rattle.msc_fifo.specs.Lists.{Each};
    ghost use Rattle.msc_fifo.specs.declared.TheConstants.{SENDER_LIMIT};
    ghost use Rattle.msc_fifo.specs.Views.{claims_in, outlet_view, resting, IsProper, IsTicketOf};
    ghost use Rattle.msc_fifo.specs.Views.{knows, left_of};
    ghost use Rattle.msc_fifo.specs.Ends.{OutletState};

    ghost Value = { OutletState };

    ghost view = { λ o. record {
      queue = record { table = o.ticket.table_id };
      sender = o.sender;
      quota = o.quota;
      put = o.put.items;
      closed = o.closed;
      claims = claims_in o.ticket.me.0.senders;
    } };

    ghost invariant = { λ o.
        IsTicketOf (arc_value o.row) o.ticket
        × (knows o.ticket ≡ outlet_view (left_of o.quota o.put.items o.closed) (resting
        (arc_value o.row).shared.key o.sender o.put.items o.closed
        (claims_in (knows o.ticket).senders)))
        × (vec_len o.put ≤ o.quota)
        × (o.quota ≤ vec_capacity o.put)
        × Each IsProper (claims_in (knows o.ticket).senders)
        × (o.sender < SENDER_LIMIT) };
}

impl Outlet {
    /// A new outlet, with room for its quota.
    pub(crate) fn new(row: Shelf, ticket: Ticket, sender: u32, quota: u32, put: Vec<u32>) -> Outlet
        requires seat { IsTicketOf (arc_value row) ticket }
        requires view { knows ticket
            ≡ outlet_view (quota + 1) (new_sender (arc_value row).shared.key sender) }
        requires sender { sender < SENDER_LIMIT }
        requires empty { put.items ≡ [] }
        requires room { quota ≤ vec_capacity put }
        ensures { result ≡ new_outlet (record { table = ticket.table_id }) sender quota }
    {
        Outlet {
            row,
            ticket,
            sender,
            quota,
            put,
            closed: false,
        }
    }

    /// The number of messages that were put.
    pub(crate) fn messages(&self) -> usize
        ensures { result ≡ length self.now.put }
    {
        self.put.len()
    }

    /// Hands its ticket over to the inlet's, and keeps the rest.
    pub(crate) fn part(self, row: &Row, ticket: &mut Ticket, room: Room) -> Part
        requires seat { IsTicketOf row.now ticket.old }
        requires queue { self.queue.table ≡ ticket.old.table_id }
        requires inlet { (knows ticket.old).gets ≡ true }
        requires room { length self.put ≤ room }
        ensures seat { IsTicketOf row.now ticket.new }
        ensures view { HandsOver self (knows ticket.old) (knows ticket.new) }
        ensures part { IsPartOf self result }
    {
        let Outlet {
            row: _,
            ticket: own,
            sender,
            put,
            closed,
            ..
        } = self;
        join(row, ticket, own);
        Part {
            sender,
            put,
            closed,
            room,
        }
    }

    /// Puts message `m` at the back of the queue, unless the outlet is closed, has put its quota or
    /// gets the greatest clock. It offers the given clock plus one; the place's clock is at least
    /// every offer for it or an earlier place. A refusal hands the message back and changes
    /// nothing. It takes no memory.
    pub fn send(&mut self, m: u32, clock: u64) -> Result<Sent, SendFault>
        ensures accepted { IsOk result → HasRoom self.old }
        ensures going { IsOk result → clock < greatest_clock }
        ensures room { HasRoom self.old → clock < greatest_clock → IsOk result }
        // A closed outlet is reported as such, even if its quota or the clock is spent.
        ensures closed { (result ≡ Err (SendFault.Closed m)) ↔ IsTrue self.old.closed }
        ensures full { (result ≡ Err (SendFault.Full m)) ↔ IsSpent self.old }
        ensures spent { (result ≡ Err (SendFault.ClockSpent m))
            ↔ (HasRoom self.old × IsSpentClock clock) }
        ensures put { OnOk result (self.new.put ≡ self.old.put ++ m ∷ []) }
        ensures claims { IfOk result (λ s. self.new.claims ≡ self.old.claims
            ++ claim s.place (entry.Message self.old.sender m) (clock + 1) s.clock ∷ []) }
        ensures above { IfOk result (λ s. clock < s.clock) }
        ensures opened { OnOk result (self.new.closed ≡ false) }
        ensures err { OnErr result (self.new ≡ self.old) }
        ensures same { IsSameOutlet self.old self.new }
        ensures within { length self.new.put ≤ self.new.quota }
    {
        if self.closed {
            return Err(SendFault::Closed(m));
        }
        if self.put.len() == self.quota as usize {
            return Err(SendFault::Full(m));
        }
        if clock == u64::MAX {
            return Err(SendFault::ClockSpent(m));
        }
        let entry = Entry::Message(self.sender, m);
        let offer = clock + 1;
        let (place, clock) = put::<Brand>(&self.row, &mut self.ticket, entry, offer);
        self.put.push_reserved(m);
        Ok(Sent {
            place: place as u32,
            clock,
        })
    }

    /// Puts the end mark at the back of the queue, unless the outlet is closed: a second close
    /// changes nothing. It takes no memory.
    pub fn close(&mut self)
        ensures closed { IsTrue self.new.closed }
        ensures put { self.new.put ≡ self.old.put }
        ensures claims { self.old.closed ≡ false → (place : ℕ) × (self.new.claims
            ≡ self.old.claims ++ claim place (entry.Ended self.old.sender) 0 0 ∷ []) }
        ensures again { IsTrue self.old.closed → self.new ≡ self.old }
        ensures same { IsSameOutlet self.old self.new }
    {
        if self.closed {
            return;
        }
        let entry = Entry::Ended(self.sender);
        put_mark::<Brand>(&self.row, &mut self.ticket, entry);
        self.closed = true;
    }

    /// The number of messages of the quota that were not yet put. It takes no memory.
    pub fn left(&self) -> u32
        ensures { length self.now.put + result ≡ self.now.quota }
    {
        self.quota - self.put.len() as u32
    }

    /// Whether the outlet is closed. It takes no memory.
    pub fn is_closed(&self) -> bool
        ensures { result ≡ self.now.closed }
    {
        self.closed
    }
}
