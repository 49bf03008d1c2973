//! The messages that each sender of a settled queue put, those of them that were taken, and those
//! that are left.

ghost use Rattle.std.specs.Prelude.{◌≡◌, ◌≤◌, ◌++◌, [], ℕ, List, length, vec_capacity, IfOk};
ghost use Rattle.msc_fifo.specs.Entries.{messages_of};

use crate::entry::Entry;
use crate::places::Place;
use listed::Listed;
use std::alloc::{AllocError, Global};
use std::marker::Model;

/// The account of one sender, in messages: those that it put are those that were taken, followed by
/// those that are left.
#[derive(Drop)]
pub struct Account {
    /// The messages that the sender put, in order.
    pub put: Listed<u32>,
    /// The messages of it that the receiver took, in order.
    pub taken: Listed<u32>,
    /// The messages that nobody took.
    pub left: Listed<u32>,
    /// Whether the sender had closed its outlet.
    pub closed: bool,
}

impl Account {
    /// An empty account. It takes no memory.
    pub(crate) fn blank(alloc: Global) -> Account {
        Account {
            put: Listed::from_vec(Vec::new(alloc)),
            taken: Listed::from_vec(Vec::new(alloc)),
            left: Listed::from_vec(Vec::new(alloc)),
            closed: false,
        }
    }
}

/// A settled queue.
#[derive(Drop)]
pub struct Settled {
    /// The account of each sender, by its number.
    pub senders: Vec<Account>,
    /// The places 0, 1 and so on that were claimed.
    pub places: Vec<Place>,
}

/// Room for the account of a sender that put this number of messages. Contracts see the number.
#[derive(Drop)]
pub(crate) struct Room {
    messages: usize,
    taken: Vec<u32>,
    left: Vec<u32>,
}

impl Model for Room {
    ghost use Rattle.std.specs.Prelude.{◌≡◌, ◌≤◌, ℕ, [], vec_capacity};

    ghost Value = { ℕ };

    ghost view = { λ r. r.messages };

    ghost invariant = { λ r.
        (r.taken.items ≡ [])
        × (r.left.items ≡ [])
        × (r.messages ≤ vec_capacity r.taken)
        × (r.messages ≤ vec_capacity r.left) };
}

impl Room {
    /// Room for `messages` messages.
    pub(crate) fn new(alloc: Global, messages: usize) -> Result<Room, AllocError>
        ensures { IfOk result (λ r. r ≡ messages) }
    {
        let taken = Vec::with_capacity(alloc, messages)?;
        let left = Vec::with_capacity(alloc, messages)?;
        Ok(Room {
            messages,
            taken,
            left,
        })
    }

    /// The account of a sender that put these messages, if the receiver got these entries. It takes
    /// no memory.
    pub(crate) fn account(self, got: &[Entry], sender: u32, put: Vec<u32>, closed: bool) -> Account
        requires room { length put.items ≤ self }
        requires prefix { (rest : List ℕ) × (put.items ≡ messages_of sender got.now ++ rest) }
        ensures put { result.put ≡ put.items }
        ensures taken { result.taken ≡ messages_of sender got.now }
        ensures left { put.items ≡ messages_of sender got.now ++ result.left }
        ensures closed { result.closed ≡ closed }
    {
        let Room { taken, left, .. } = self;
        let taken = pick(got, sender, taken);
        let left = copy(&put[taken.len()..], left);
        Account {
            put: Listed::from_vec(put),
            taken: Listed::from_vec(taken),
            left: Listed::from_vec(left),
            closed,
        }
    }
}

/// The messages of a sender, in the room made for them.
fn pick(got: &[Entry], sender: u32, mut room: Vec<u32>) -> Vec<u32>
    requires empty { room.items ≡ [] }
    requires room { length (messages_of sender got.now) ≤ vec_capacity room }
    ensures { result.items ≡ messages_of sender got.now }
{
    for entry in got {
        match *entry {
            Entry::Message(from, m) => {
                if from == sender {
                    room.push_reserved(m);
                }
            }
            Entry::Ended(_) => {}
        }
    }
    room
}

/// A copy, in the room made for it.
fn copy(messages: &[u32], mut room: Vec<u32>) -> Vec<u32>
    requires empty { room.items ≡ [] }
    requires room { length messages.now ≤ vec_capacity room }
    ensures { result.items ≡ messages.now }
{
    for m in messages {
        room.push_reserved(*m);
    }
    room
}
