//! Ends of queues whose other ends are gone.

use crate::host::Host;
use crate::queues::pair;
use msc_fifo::{Sent, Taken};

/// Whether a sender puts and closes if all other ends are gone.
fn is_put_without_receiver(rt: &impl Host) -> bool {
    let (mut zero, one, inlet) = pair(rt, 1, 1);
    drop(one);
    drop(inlet);
    let is_put = zero.send(5, 0) == Ok(Sent { place: 0, clock: 1 });
    zero.close();
    is_put
}

/// Whether the receiver takes the messages that were put if all senders are gone.
fn is_taken_without_senders(rt: &impl Host) -> bool {
    let (mut zero, one, mut inlet) = pair(rt, 1, 1);
    let is_put = zero.send(5, 3) == Ok(Sent { place: 0, clock: 4 });
    drop(zero);
    drop(one);
    let is_taken = inlet.take(0) == Taken::Message(0, 5, 0, 4);
    is_put && is_taken && inlet.take(0) == Taken::Nothing
}

#[test]
fn ends_that_are_gone_hold_up_nobody(rt: HostRuntime) {
    assert!(rt; is_put_without_receiver(&rt));
    assert!(rt; is_taken_without_senders(&rt));
}
