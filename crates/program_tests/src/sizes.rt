//! The greatest size of a queue: larger ones are refused, and the largest is filled and emptied.

ghost use Rattle.std.specs.Prelude.{◌≤◌};

use crate::host::Host;
use msc_fifo::{Inlet, Outlet, QueueFault, SendFault, Taken, queue, settle};

/// Quotas, and why no queue has them, or none if a queue has them.
const LIMITS: &[(&[u32], Option<QueueFault>)] = &[
    (&[], Some(QueueFault::NoSender)),
    (&[1024, 1], Some(QueueFault::TooLarge)),
    (&[1025], Some(QueueFault::TooLarge)),
    (&[u32::MAX, u32::MAX], Some(QueueFault::TooLarge)),
    (&[0; 33], Some(QueueFault::TooLarge)),
    (&[0], None),
    (&[1], None),
    (&[1024], None),
    (&[1023, 1], None),
    (&[32; 32], None),
];

/// Whether these outlets are open and have these quotas left.
fn are_open(outlets: &[Outlet], quotas: &[u32]) -> bool {
    for (outlet, quota) in outlets.iter().zip(quotas) {
        if outlet.left() != *quota || outlet.is_closed() {
            return false;
        }
    }
    outlets.len() == quotas.len()
}

/// Whether there is a queue with these quotas, and a new one is open, empty and can be settled.
fn is_new(rt: &impl Host, quotas: &[u32]) -> bool {
    let (outlets, inlet) = queue(rt.alloc(), quotas).expect(rt, "a queue");
    let known = are_open(&outlets, quotas) && inlet.unended() as usize == quotas.len();
    match settle(rt.alloc(), inlet, outlets) {
        Ok(settled) => {
            known && settled.senders.len() == quotas.len() && settled.places.is_empty()
        }
        Err(_) => false,
    }
}

/// Whether a queue with these quotas is new, or is refused with this fault.
fn is_made(rt: &impl Host, quotas: &[u32], refusal: Option<QueueFault>) -> bool {
    match refusal {
        Some(_) => queue(rt.alloc(), quotas).err() == refusal,
        None => is_new(rt, quotas),
    }
}

#[test]
fn limits(rt: HostRuntime) {
    for &(quotas, refusal) in LIMITS {
        assert!(rt; is_made(&rt, quotas, refusal), "{quotas:?}");
    }
}

/// Puts the messages 0 to 31 of a sender and closes. Returns whether each was sent, and no more.
fn fills(outlet: &mut Outlet) -> bool {
    let mut all = true;
    for m in 0..32 {
        all &= outlet.send(m, 0).is_ok();
    }
    all &= outlet.send(32, 0) == Err(SendFault::Full(32));
    outlet.close();
    all
}

/// Takes the messages 0 to 31 of a sender, and its end mark. Returns whether each was found.
fn empties(inlet: &mut Inlet, sender: u32) -> bool
    requires { sender ≤ 31 }
{
    let mut all = true;
    for m in 0..32 {
        all &= inlet.take(0) == Taken::Message(sender, m, sender * 33 + m, 1);
    }
    all & (inlet.take(0) == Taken::Ended(sender))
}

/// Whether the largest queue takes all that may be put into it, and returns it.
fn is_filled_and_emptied(rt: &impl Host) -> bool {
    let (mut outlets, mut inlet) = queue(rt.alloc(), &[32; 32]).expect(rt, "a queue");
    let mut all = true;
    for outlet in outlets.iter_mut() {
        all &= fills(outlet);
    }
    for sender in 0..32 {
        all &= inlet.unended() == 32 - sender;
        all &= empties(&mut inlet, sender);
    }
    all && inlet.unended() == 0 && inlet.take(0) == Taken::Nothing
}

#[test]
fn the_largest_queue_is_filled_and_emptied(rt: HostRuntime) {
    assert!(rt; is_filled_and_emptied(&rt));
}
