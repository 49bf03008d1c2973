//! Making a queue: all its ends, with all the room that they will need.

ghost use Rattle.std.specs.Prelude.{◌≡◌, ◌↔◌, ◌<◌, ◌≤◌, ◌+◌, ◌-◌, [], length, sum, Err, IfOk, OnOk};
ghost use Rattle.std.specs.Prelude.{MatchOption};
ghost use Rattle.std.specs.Arc.{arc_value};
ghost use Rattle.msc_fifo.specs.World.{most_places};
ghost use Rattle.msc_fifo.specs.Views.{receives, queue_id, IsTicketOf, knows};
ghost use Rattle.msc_fifo.specs.Ends.{new_outlet, new_outlets, new_inlet, AreOutletsOf, IsTooLarge};

use crate::fault::QueueFault;
use crate::inlet::Inlet;
use crate::outlet::Outlet;
use crate::rule::{Due, Row, Shelf, Ticket};
use crate::steps::deal;
use crate::{QUOTA_LIMIT, SENDER_LIMIT};
use std::alloc::{AllocError, Global};
use std::marker::Brand;
use std::sync::Arc;

/// A new queue: an outlet for each quota, in order, of the senders 0, 1 and so on, and one inlet. A
/// quota is the number of messages that its sender may put, and may be 0; the end mark has a place
/// besides. All room that the ends need is made here.
pub fn queue(alloc: Global, quotas: &[u32]) -> Result<(Vec<Outlet>, Inlet), QueueFault>
    ensures no_sender { (result ≡ Err QueueFault.NoSender) ↔ (quotas.now ≡ []) }
    ensures too_large { (result ≡ Err QueueFault.TooLarge) ↔ IsTooLarge quotas.now }
    ensures inlet { IfOk result (λ r. r.1 ≡ new_inlet r.1.queue (length quotas.now)) }
    ensures outlets { IfOk result (λ r. r.0.items ≡ new_outlets r.1.queue 0 quotas.now) }
    // So the ends may be settled at any time, if they are kept together.
    ensures whole { IfOk result (λ r. AreOutletsOf r.1 r.0.items) }
{
    if quotas.is_empty() {
        return Err(QueueFault::NoSender);
    }
    if quotas.len() > SENDER_LIMIT {
        return Err(QueueFault::TooLarge);
    }
    let Some(messages) = total(quotas) else {
        return Err(QueueFault::TooLarge);
    };
    match ends(alloc, quotas, messages) {
        Ok(made) => Ok(made),
        Err(AllocError) => Err(QueueFault::Memory),
    }
}

/// The sum of the quotas, unless it is too large.
fn total(quotas: &[u32]) -> Option<usize>
    ensures { MatchOption result (QUOTA_LIMIT < sum quotas.now)
        (λ n. (n ≡ sum quotas.now) × (n ≤ QUOTA_LIMIT)) }
{
    let mut sum: usize = 0;
    for quota in quotas {
        sum += *quota as usize;
        if sum > QUOTA_LIMIT {
            return None;
        }
    }
    Some(sum)
}

/// The ends of a queue with room for `messages` messages and an end mark for each sender.
fn ends(alloc: Global, quotas: &[u32], messages: usize) -> Result<(Vec<Outlet>, Inlet), AllocError>
    requires some { 0 < length quotas.now }
    requires few { length quotas.now ≤ SENDER_LIMIT }
    requires sum { messages ≡ sum quotas.now }
    requires room { messages ≤ QUOTA_LIMIT }
    ensures inlet { IfOk result (λ r. r.1 ≡ new_inlet r.1.queue (length quotas.now)) }
    ensures outlets { IfOk result (λ r. r.0.items ≡ new_outlets r.1.queue 0 quotas.now) }
{
    let places = messages + quotas.len();
    let got = Vec::with_capacity(alloc, places)?;
    let (row, mut ticket) = row(alloc, places)?;
    let outlets = outlets(alloc, &row, &mut ticket, quotas)?;
    let inlet = Inlet::new(row, ticket, quotas.len() as u32, got);
    Ok((outlets, inlet))
}

/// The outlets of all senders, in order, each with room for its quota.
fn outlets(
    alloc: Global,
    row: &Shelf,
    ticket: &mut Ticket,
    quotas: &[u32],
) -> Result<Vec<Outlet>, AllocError>
    requires seat { IsTicketOf (arc_value row.now) ticket.old }
    requires view { knows ticket.old
        ≡ receives (arc_value row.now).shared.key (knows ticket.old).room 0 [] [] }
    requires room { (knows ticket.old).room ≡ sum quotas.now + length quotas.now }
    requires few { length quotas.now ≤ SENDER_LIMIT }
    ensures seat { OnOk result (IsTicketOf (arc_value row.now) ticket.new) }
    ensures view { OnOk result (knows ticket.new ≡ receives (arc_value row.now).shared.key
        (knows ticket.new).room (length quotas.now) [] []) }
    ensures outlets { IfOk result
        (λ o. o.items ≡ new_outlets (queue_id (arc_value row.now)) 0 quotas.now) }
{
    let mut outlets = Vec::with_capacity(alloc, quotas.len())?;
    let mut number = 0;
    for quota in quotas {
        outlets.push_reserved(outlet::<Brand>(alloc, row, ticket, number, *quota)?);
        number += 1;
    }
    Ok(outlets)
}

/// The words of a queue with `places` places, all empty, and the inlet's ticket.
fn row(alloc: Global, places: usize) -> Result<(Shelf, Ticket), AllocError>
    requires { places ≤ most_places }
    ensures seat { IfOk result (λ r. IsTicketOf (arc_value r.0) r.1) }
    ensures places { IfOk result (λ r. (arc_value r.0).shared.key ≡ places) }
    ensures view { IfOk result (λ r. knows r.1 ≡ receives places places 0 [] []) }
{
    let words = Vec::from_elem(alloc, 0u64, places + places + 2)?;
    let (row, ticket) = Row::of_words(alloc, words.as_slice(), &places)?;
    let Ok(shelf) = Arc::new(alloc, row) else {
        return Err(AllocError);
    };
    Ok((shelf, ticket))
}

/// The outlet of the next sender, with room for its quota. Its ticket is cut from the inlet's.
fn outlet<D: Due>(
    alloc: Global,
    row: &Shelf,
    ticket: &mut Ticket,
    number: u32,
    quota: u32,
) -> Result<Outlet, AllocError>
    requires due { D.room ≡ quota + 1 }
    requires seat { IsTicketOf (arc_value row.now) ticket.old }
    requires view { knows ticket.old
        ≡ receives (arc_value row.now).shared.key (knows ticket.old).room number [] [] }
    requires enough { quota + 1 ≤ (knows ticket.old).room }
    requires number { number < SENDER_LIMIT }
    ensures seat { IsTicketOf (arc_value row.now) ticket.new }
    ensures view { OnOk result (knows ticket.new ≡ receives (arc_value row.now).shared.key
        ((knows ticket.old).room - (quota + 1)) (number + 1) [] []) }
    ensures outlet { IfOk result (λ o. o ≡ new_outlet (queue_id (arc_value row.now)) number quota) }
{
    let own = Arc::try_clone(row)?;
    let put = Vec::with_capacity(alloc, quota as usize)?;
    let seat = deal::<D>(row, ticket);
    Ok(Outlet::new(own, seat, number, quota, put))
}
