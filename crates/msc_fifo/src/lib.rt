//! Queues between threads: several senders, one receiver, first in, first out, with clocks.
//!
//! [`queue`] makes the ends of a queue: an [`Outlet`] for each sender and one [`Inlet`]. Each end
//! may move to a thread of its own. A sender puts messages up to its quota and at last an end mark;
//! the receiver takes them. Nothing is lost, nothing comes twice, and messages of one sender come
//! in the order in which it put them. Once all ends are together again, [`settle`] returns for each
//! sender the messages that it put, those that were taken and those that are left, and the places
//! of the queue: the order in which the entries of all senders were put and taken.
//!
//! Clocks are after Lamport (1978). A sender hands in a clock with its message and gets that of the
//! message's place, which is above it and at least that of earlier entries; the receiver hands in a
//! clock and gets the greater of it and the place's.
//!
//! Senders and places are numbered from 0. A message is a number that the queue does not interpret.
//! Contracts see an outlet as its queue, sender number, quota, the list put, whether it is closed
//! and its claims, and an inlet as its queue, number of senders, the list got, the clocks of these
//! places and a count of takes that found nothing (`specs/Ends`). They hold for any threads that
//! hold the ends, and no call waits for another thread.
//!
//! Limits: [`SENDER_LIMIT`] senders, and [`QUOTA_LIMIT`] messages in all quotas. [`queue`] makes
//! all room, so only [`settle`] takes memory later.
//!
//! # Choices
//!
//! - A queue has a slot for each entry that will ever come. So a claim is one `fetch_add`, no step
//!   is tried again, and each call returns. A bounded channel waits in its calls, may refuse an
//!   entry although there is room, and does not show the order of all senders. A lock needs the
//!   bound `Wait`, which no signature here has.
//! - A sender reads the clock after its claim, and stores the slot's clock before the entry.
//!   Otherwise it could miss an offer, and the inlet could take 0 for the clock.
//! - No end keeps claims or clocks: contracts see them in the views of tickets. So [`settle`] reads
//!   the slots themselves. With a list of claims, `bench/queues` took half as long again.
//! - Clauses go field by field, and only "unchanged" compares whole ends. So an end may keep more.
//! - An [`Entry`] is in a queue, and a [`Taken`] is the result of a take, with the slot and the
//!   taker's clock.
//! - `specs/Lists` defines `Each`, which takes lists apart member by member, and `Occurs` as
//!   `msc_chart` does: this crate does not depend on charts.
#![tactic(auto)]

mod accounts;
mod claim;
mod entry;
mod fault;
mod inlet;
pub mod laws;
mod making;
mod outlet;
mod parts;
mod places;
mod rule;
mod settling;
mod steps;

pub use accounts::{Account, Settled};
pub use claim::Claim;
pub use entry::{Entry, Taken};
pub use fault::{QueueFault, SendFault};
pub use inlet::Inlet;
pub use making::queue;
pub use outlet::{Outlet, Sent};
pub use places::Place;
pub use settling::settle;

/// The greatest number of senders of a queue.
pub const SENDER_LIMIT: usize = 32;

/// The greatest sum of the quotas of a queue, in messages.
pub const QUOTA_LIMIT: usize = 1_024;
