//! The rule of a queue: a row of shared words under a rule of this crate's own.
//!
//! Word 0, the claim word, counts the places that were claimed; word 1, the clock word, is the
//! greatest offer; words 2k + 2 and 2k + 3 are the entry and the clock of place k, and are 0 before
//! they are stored. Each end holds a ticket, a token of no bytes, whose view is the knowledge of
//! that end. The rule (`specs/World`, `specs/Views`) requires of the words and of all views that
//! nothing is lost, repeated or reordered, and that a clock is at least each offer up to its place.
//! `specs/Moves` has the result of each step. Each step keeps the rule, whatever the other threads
//! did before (`proofs/OutletSteps`, `proofs/InletSteps`). The steps themselves are in `steps`.

ghost use Rattle.std.specs.Prelude.{ℕ};

use crate::claim::Claim;
use crate::entry::Entry;
use atomic_table::{Join, Play, Seat, Split, Table, TableRule};
use std::alloc::Global;
use std::collections::LinkedList;
use std::marker::{Brand, PhantomData};
use std::sync::Arc;

/// The facts on a sender. No value of it is made: only the rule uses it.
pub struct Sender {
    /// Its number.
    pub from: u64,
    /// The number of places of the queue.
    pub places: u64,
    /// The messages that it put.
    pub put: LinkedList<u64>,
    /// Whether it put its end mark.
    pub closed: bool,
    /// Its claims whose entries are stored.
    pub claims: LinkedList<Claim>,
    /// The claim whose entry is not stored yet, if there is one.
    pub pending: LinkedList<Claim>,
    /// All its offers.
    pub offers: LinkedList<u64>,
    /// The offer for the next place that it claims.
    pub ready: u64,
    /// The value that it stored as the clock of the place whose entry is not stored yet.
    pub shown: u64,
}

/// The knowledge of a ticket. No value of it is made: only the rule uses it.
pub struct TicketView {
    /// Whether it is the inlet's.
    pub gets: bool,
    /// The inlet: the number of senders that it has made.
    pub made: u64,
    /// The inlet: the number of places of the queue.
    pub places: u64,
    /// The inlet: the entries that it got.
    pub got: LinkedList<Entry>,
    /// The inlet: the clocks of these places.
    pub clocks: LinkedList<u64>,
    /// The number of places that may still be claimed with it.
    pub room: u64,
    /// An outlet: its sender. The inlet: the senders whose tickets it has taken in.
    pub senders: LinkedList<Sender>,
}

/// The rule of the row, for this number of places.
pub struct InOrder;

impl TableRule<(), TicketView, usize> for InOrder {
    ghost use Rattle.std.specs.Prelude.{[]};
    ghost use Rattle.msc_fifo.specs.Views.{Kept, receives};

    ghost holds = { Kept };

    ghost first = { λ places. receives places places 0 [] [] };
}

/// The entry of a claim, only in proofs. A call at `Brand` picks it.
pub trait Said {
    ghost use Rattle.msc_fifo.specs.declared.entry.Entry.{Entry};

    ghost item: { Entry };
}

impl Said for Brand {
    ghost use Rattle.msc_fifo.specs.declared.entry.Entry.TheVariants.{Ended};

    ghost item = { Ended 0 };
}

/// The number of places that an outlet may claim, only in proofs. A call at `Brand` picks it.
pub trait Due {
    ghost room: { ℕ };
}

impl Due for Brand {
    ghost room = { 0 };
}

/// An outlet raises the clock word to its offer.
pub struct Offers;

impl Play<(), TicketView> for Offers {
    ghost use Rattle.msc_fifo.specs.Moves.{OffersIt};

    ghost then = { OffersIt };
}

/// An outlet claims the next place.
pub struct Claims<W> {
    said: PhantomData<W>,
}

impl<W: Said> Play<(), TicketView> for Claims<W> {
    ghost use Rattle.msc_fifo.specs.Moves.{ClaimsIt};

    ghost then = { ClaimsIt W.item };
}

/// An outlet reads the clock word for the place that it claimed.
pub struct Dates;

impl Play<(), TicketView> for Dates {
    ghost use Rattle.msc_fifo.specs.Moves.{DatesIt};

    ghost then = { DatesIt };
}

/// An outlet stores the clock of its place.
pub struct Shows;

impl Play<(), TicketView> for Shows {
    ghost use Rattle.msc_fifo.specs.Moves.{ShowsIt};

    ghost then = { ShowsIt };
}

/// An outlet stores the entry of its place.
pub struct Stores;

impl Play<(), TicketView> for Stores {
    ghost use Rattle.msc_fifo.specs.Moves.{StoresIt};

    ghost then = { StoresIt };
}

/// The inlet reads the next place.
pub struct Looks;

impl Play<(), TicketView> for Looks {
    ghost use Rattle.msc_fifo.specs.Moves.{LooksAt};

    ghost then = { LooksAt };
}

/// The inlet reads the clock of the place whose message it took.
pub struct Learns;

impl Play<(), TicketView> for Learns {
    ghost use Rattle.msc_fifo.specs.Moves.{LearnsIt};

    ghost then = { LearnsIt };
}

/// The inlet reads the entry of a place, once it has taken in the outlets' tickets.
pub struct ReadsEntry;

impl Play<(), TicketView> for ReadsEntry {
    ghost use Rattle.msc_fifo.specs.Moves.{ReadsItsEntry};

    ghost then = { ReadsItsEntry };
}

/// The inlet reads the clock of a place, once it has taken in the outlets' tickets.
pub struct ReadsClock;

impl Play<(), TicketView> for ReadsClock {
    ghost use Rattle.msc_fifo.specs.Moves.{ReadsItsClock};

    ghost then = { ReadsItsClock };
}

/// The inlet reads the claim word, once it has taken in the outlets' tickets.
pub struct Settles;

impl Play<(), TicketView> for Settles {
    ghost use Rattle.msc_fifo.specs.Moves.{SettlesIt};

    ghost then = { SettlesIt };
}

/// The inlet makes the next sender, which may claim this number of places.
pub struct NextSender<D> {
    due: PhantomData<D>,
}

impl<D: Due> Split<TicketView> for NextSender<D> {
    ghost use Rattle.std.specs.Prelude.{◌+◌, ◌-◌};
    ghost use Rattle.msc_fifo.specs.Views.{outlet_view, new_sender, receives};

    ghost left = { λ v. receives v.places (v.room - D.room) (v.made + 1) v.got v.clocks };

    ghost right = { λ v. outlet_view D.room (new_sender v.places v.made) };
}

/// The inlet takes in the knowledge of an outlet.
pub struct TakesIn;

impl Join<TicketView> for TakesIn {
    ghost use Rattle.msc_fifo.specs.Views.{beside, nobody};

    ghost both = { beside };

    ghost spent = { nobody };
}

/// The part of the rule that an end of a queue holds.
pub type Ticket = Seat<(), TicketView>;

/// The words of a queue.
pub type Row = Table<(), TicketView, usize, InOrder, Global>;

/// The words, as each end holds them.
pub type Shelf = Arc<Row, Global>;
