//! Gates that make instances wait for each other, so that an execution shows which of them ran at
//! the same time, and gates that stop them.

use crate::alone::Never;
use crate::host::{Parallel, chart_of};
use crate::together::{PATIENCE, Wanted, is_execution};
use example_charts::{RELAY, TWO_SENDERS};
use msc_chart::{Chart, Event, LinkKind, Queues};
use msc_fifo::Account;
use msc_instance::{End, Execution, Gate, run_chart};
use std::sync::atomic::{AtomicBool, AtomicU64, Ordering};
use std::thread;

/// The number of times that a gate looks for another instance.
const TURNS: u64 = 1_000_000_000;

/// The gate at which the outputs of `two_senders` wait for each other.
#[derive(Drop)]
struct Meeting {
    first: AtomicBool,
    last: AtomicBool,
    asked: AtomicU64,
}

/// Waits until one has come, and returns whether it has.
fn comes(one: &AtomicBool) -> bool {
    for _ in 0..TURNS {
        if one.load(Ordering::SeqCst) {
            return true;
        }
        thread::yield_now();
    }
    false
}

/// Notes that one has come, and waits until the other has.
fn meets(one: &AtomicBool, other: &AtomicBool) -> bool {
    one.store(true, Ordering::SeqCst);
    comes(other)
}

impl Gate for Meeting {
    ghost use Rattle.std.specs.Prelude.{false, true};

    ghost is_open = { false };

    ghost lets = { λ _ _ _. true };

    fn at(&self, _instance: u32, event: Event) -> bool {
        self.asked.fetch_add(1, Ordering::SeqCst);
        match event {
            0 => meets(&self.first, &self.last),
            3 => meets(&self.last, &self.first),
            _ => true,
        }
    }
}

/// The ends of the instances of `two_senders` if the first message is taken first, and if the
/// second is.
const MET: [Wanted; 2] = [
    (
        &[End::Finished, End::Finished, End::Finished],
        &[&[0], &[1, 2], &[3]],
    ),
    (
        &[End::Finished, End::Finished, End::Finished],
        &[&[0], &[2, 1], &[3]],
    ),
];

/// Whether the instances of a chart end in one of these ways, and the gate is called four times.
fn meet_in(rt: &impl Parallel, chart: &Chart, queues: Queues) -> bool {
    let gate = Meeting {
        first: AtomicBool::new(false),
        last: AtomicBool::new(false),
        asked: AtomicU64::new(0),
    };
    let execution = run_chart(rt, rt.alloc(), chart, queues, &gate, PATIENCE).expect(
        rt,
        "an execution",
    );
    let is_met = is_execution(&execution, MET[0]) || is_execution(&execution, MET[1]);
    is_met && gate.asked.load(Ordering::SeqCst) == 4
}

/// Whether the instances of `two_senders` do.
fn meet(rt: &impl Parallel, queues: Queues) -> bool {
    meet_in(rt, &chart_of(rt, TWO_SENDERS), queues)
}

#[test]
fn outputs_that_wait_for_each_other(rt: HostRuntime) {
    for kind in LinkKind::ALL {
        let queues = Queues::Uniform(kind);
        assert!(rt; meet(&rt, queues), "{kind:?}");
    }
}

/// The gate that refuses one event of `relay`, and allows the second message to b only once the
/// first was sent, so that b takes them in one order under each architecture.
#[derive(Drop)]
struct InOrder {
    never: Event,
    first: AtomicBool,
}

impl Gate for InOrder {
    ghost use Rattle.std.specs.Prelude.{false, nat_eq, not};

    ghost is_open = { false };

    ghost lets = { λ gate _ event. not (nat_eq event gate.never) };

    fn at(&self, _instance: u32, event: Event) -> bool {
        if event == 2 {
            self.first.store(true, Ordering::SeqCst);
        }
        let may_go = event != 5 || comes(&self.first);
        may_go && event != self.never
    }
}

/// The execution of a chart under an architecture and the gate that refuses this event.
fn stopped_in(rt: &impl Parallel, chart: &Chart, queues: Queues, event: Event) -> Execution {
    let gate = InOrder {
        never: event,
        first: AtomicBool::new(false),
    };
    run_chart(rt, rt.alloc(), chart, queues, &gate, PATIENCE).expect(rt, "an execution")
}

/// The execution of `relay`.
fn stopped_at(rt: &impl Parallel, queues: Queues, event: Event) -> Execution {
    stopped_in(rt, &chart_of(rt, RELAY), queues, event)
}

/// An event of `relay` that the gate refuses, and the ends of the three instances.
const STOPPED: &[(Event, Wanted)] = &[
    (
        0,
        (
            &[End::Stopped, End::Starved, End::Starved],
            &[&[], &[], &[]],
        ),
    ),
    (
        1,
        (
            &[End::Stopped, End::Starved, End::Starved],
            &[&[0], &[2], &[]],
        ),
    ),
    (
        2,
        (
            &[End::Finished, End::Stopped, End::Finished],
            &[&[0, 1], &[2], &[4, 5]],
        ),
    ),
    (
        3,
        (
            &[End::Finished, End::Stopped, End::Finished],
            &[&[0, 1], &[2, 3], &[4, 5]],
        ),
    ),
    (
        4,
        (
            &[End::Finished, End::Starved, End::Stopped],
            &[&[0, 1], &[2], &[4]],
        ),
    ),
    (
        5,
        (
            &[End::Finished, End::Starved, End::Stopped],
            &[&[0, 1], &[2], &[4]],
        ),
    ),
];

/// Whether these are the ends of the instances of `relay`.
fn is_stopped_at(rt: &impl Parallel, queues: Queues, event: Event, wanted: Wanted) -> bool {
    is_execution(&stopped_at(rt, queues, event), wanted)
}

#[test]
fn a_gate_that_says_no_to_an_event(rt: HostRuntime) {
    for &(event, wanted) in STOPPED {
        for kind in LinkKind::ALL {
            let queues = Queues::Uniform(kind);
            let is = is_stopped_at(&rt, queues, event, wanted);
            assert!(rt; is, "{event} {kind:?}");
        }
    }
}

/// Whether the account is closed, and has these messages put, none taken, and all of them left.
fn is_untaken(account: &Account, put: &[u32]) -> bool {
    account.closed
        && account.put.as_slice() == put
        && account.taken.as_slice().is_empty()
        && account.left.as_slice() == put
}

/// Whether an execution has first the mailbox of instance 1, to which the last sender has put these
/// messages, and none was taken.
fn is_left_in_mailbox(execution: &Execution, put: &[u32]) -> bool {
    match execution.queues.first() {
        Some((1, mailbox)) => match mailbox.senders.last() {
            Some(account) => is_untaken(account, put),
            None => false,
        },
        _ => false,
    }
}

/// Whether it has if the gate refuses the first input of `relay`.
fn is_left(rt: &impl Parallel, put: &[u32]) -> bool {
    is_left_in_mailbox(&stopped_at(rt, Queues::MAILBOX, 2), put)
}

#[test]
fn what_nobody_takes_is_left_in_the_mailbox(rt: HostRuntime) {
    assert!(rt; is_left(&rt, &[2]));
}

/// In this chart x waits for a message from z, and b for the message that x sends then.
const HELD_UP: &[u8] = b"msc t; instance x; in p from z; in s from b; out r to b; endinstance; \
instance b; out s to x; in r from x; endinstance; instance z; out p to x; endinstance; endmsc;";

/// The ends of the instances of `held_up` if z may not send. No instance uses up its patience: b
/// closes its outlet as soon as it has sent, and so x sees that all its senders have ended.
const HELD: Wanted = (
    &[End::Starved, End::Starved, End::Stopped],
    &[&[1], &[3], &[]],
);

/// Whether these are the ends of the instances of a chart if the gate refuses event 5.
fn are_held_in(rt: &impl Parallel, chart: &Chart) -> bool {
    let execution = run_chart(rt, rt.alloc(), chart, Queues::PAIR, &Never(5), PATIENCE).expect(
        rt,
        "an execution",
    );
    is_execution(&execution, HELD)
}

/// Whether these are the ends of the instances of `held_up`.
fn are_held(rt: &impl Parallel) -> bool {
    are_held_in(rt, &chart_of(rt, HELD_UP))
}

#[test]
fn who_has_sent_all_closes_its_outlets(rt: HostRuntime) {
    assert!(rt; are_held(&rt));
}
