//! Settling a queue, once its ends are together again: the messages that each sender put, those
//! that were taken and those that are left, and the entry of each place.

ghost use Rattle.std.specs.Prelude.{◌≡◌, length, map, vec_len, All, IfOk, IfErr};
ghost use Rattle.msc_fifo.specs.Ends.{AreOutletsOf};
ghost use Rattle.msc_fifo.specs.Entries.{IsOrderly};
ghost use Rattle.msc_fifo.specs.Settlement.{HasAccount, IsSettled};

use crate::accounts::{Account, Room, Settled};
use crate::inlet::Inlet;
use crate::outlet::Outlet;
use std::alloc::{AllocError, Global};

/// Settles a queue: an account for each sender, by its number, and the places that were claimed.
/// The list holds each outlet of the inlet's queue once and no other, in any order, open or closed.
/// All room is made before anything is changed: if memory is refused, all ends come back as they
/// were.
pub fn settle(
    alloc: Global,
    inlet: Inlet,
    outlets: Vec<Outlet>,
) -> Result<Settled, (AllocError, Inlet, Vec<Outlet>)>
    requires { AreOutletsOf inlet outlets.items }
    ensures count { IfOk result (λ s. vec_len s.senders ≡ inlet.senders) }
    ensures accounts { IfOk result (λ s. All (HasAccount s.senders.items inlet.got) outlets.items) }
    ensures places { IfOk result (λ s. IsSettled inlet outlets.items s.places.items) }
    ensures orderly { IfOk result (λ _. IsOrderly inlet.senders inlet.got) }
    ensures inlet { IfErr result (λ e. e.1 ≡ inlet) }
    ensures outlets { IfErr result (λ e. e.2.items ≡ outlets.items) }
{
    let Ok(rooms) = rooms(alloc, outlets.as_slice()) else {
        return Err((AllocError, inlet, outlets));
    };
    let Ok(parts) = Vec::with_capacity(alloc, outlets.len()) else {
        return Err((AllocError, inlet, outlets));
    };
    let Ok(blanks) = blanks(alloc, outlets.len()) else {
        return Err((AllocError, inlet, outlets));
    };
    let Ok(places) = Vec::with_capacity(alloc, inlet.places()) else {
        return Err((AllocError, inlet, outlets));
    };
    Ok(inlet.settle(outlets, rooms, parts, blanks, places))
}

/// Room for the account of each outlet.
fn rooms(alloc: Global, outlets: &[Outlet]) -> Result<Vec<Room>, AllocError>
    ensures { IfOk result (λ r. r.items ≡ map (λ o. length o.put) outlets.now) }
{
    let mut rooms = Vec::with_capacity(alloc, outlets.len())?;
    for outlet in outlets {
        rooms.push_reserved(Room::new(alloc, outlet.messages())?);
    }
    Ok(rooms)
}

/// `count` empty accounts.
fn blanks(alloc: Global, count: usize) -> Result<Vec<Account>, AllocError>
    ensures { IfOk result (λ r. vec_len r ≡ count) }
{
    let mut blanks = Vec::with_capacity(alloc, count)?;
    for _ in 0..count {
        blanks.push_reserved(Account::blank(alloc));
    }
    Ok(blanks)
}
