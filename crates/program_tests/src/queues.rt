//! Queues in one thread and in three. The clauses are proved; these tests cover the results that no
//! clause fixes: that messages are found, that calls succeed with ample memory, and threads.

ghost use Rattle.std.specs.Prelude.{◌≡◌, ◌≤◌};
ghost use Rattle.msc_fifo.specs.Ends.{new_inlet, new_outlet, IsSameInlet, IsSameOutlet};

use crate::host::{Host, Parallel};
use msc_fifo::{Inlet, Outlet, SendFault, Sent, Settled, Taken, queue, settle};
use std::marker::Model;
use std::thread;

/// The greatest number of takes of a thread.
const MOST_TAKES: u32 = 1_000_000_000;

/// The ends of a queue of two senders.
#[derive(Drop)]
struct Ends {
    zero: Outlet,
    one: Outlet,
    inlet: Inlet,
}

impl Model for Ends {
    ghost use Rattle.std.specs.Prelude.{◌≡◌};

    ghost Value = { Unit {0} };

    ghost view = { λ e. tt };

    ghost invariant = { λ e.
        (e.inlet.senders ≡ 2)
        × ((e.zero.queue ≡ e.inlet.queue) × (e.zero.sender ≡ 0))
        × ((e.one.queue ≡ e.inlet.queue) × (e.one.sender ≡ 1)) };
}

/// A call on one of the ends, and its result.
enum Call {
    /// A sender puts a message with a clock, at a place with a clock.
    Put(u32, u32, u64, u32, u64),
    /// A sender tries to put a message with a clock, and is refused.
    Refuse(u32, u32, u64, SendFault),
    /// A sender closes its outlet.
    Close(u32),
    /// A sender has this number of messages left, and is closed or open.
    Left(u32, u32, bool),
    /// A take with a clock.
    Take(u64, Taken),
    /// This number of senders have not ended.
    Unended(u32),
}

/// The data of an account: put, taken, left, and whether the outlet was closed.
type Shown<'a> = (&'a [u32], &'a [u32], &'a [u32], bool);

/// Calls on the ends of a queue with these quotas, and the settled queue after them.
struct Row {
    quotas: (u32, u32),
    calls: &'static [Call],
    zero: Shown<'static>,
    one: Shown<'static>,
    places: &'static [(u32, Option<u32>, u64)],
}

/// The ends of a new queue of two senders.
pub(crate) fn pair(rt: &impl Host, first: u32, second: u32) -> (Outlet, Outlet, Inlet)
    ensures zero { result.0 ≡ new_outlet result.2.queue 0 first }
    ensures one { result.1 ≡ new_outlet result.2.queue 1 second }
    ensures inlet { result.2 ≡ new_inlet result.2.queue 2 }
{
    let (mut outlets, inlet) = queue(rt.alloc(), &[first, second]).expect(rt, "a queue");
    let one = outlets.pop().unwrap();
    let zero = outlets.pop().unwrap();
    (zero, one, inlet)
}

impl Ends {
    /// The ends of a new queue with these quotas.
    fn new(rt: &impl Host, quotas: (u32, u32)) -> Ends {
        let (zero, one, inlet) = pair(rt, quotas.0, quotas.1);
        Ends { zero, one, inlet }
    }

    /// Makes a call, and returns whether its result is right.
    fn answers(&mut self, call: &Call) -> bool {
        match *call {
            Call::Put(0, m, handed, place, clock) => {
                self.zero.send(m, handed) == Ok(Sent { place, clock })
            }
            Call::Put(_, m, handed, place, clock) => {
                self.one.send(m, handed) == Ok(Sent { place, clock })
            }
            Call::Refuse(0, m, handed, fault) => self.zero.send(m, handed) == Err(fault),
            Call::Refuse(_, m, handed, fault) => self.one.send(m, handed) == Err(fault),
            Call::Close(0) => {
                self.zero.close();
                true
            }
            Call::Close(_) => {
                self.one.close();
                true
            }
            Call::Left(0, left, closed) => {
                self.zero.left() == left && self.zero.is_closed() == closed
            }
            Call::Left(_, left, closed) => {
                self.one.left() == left && self.one.is_closed() == closed
            }
            Call::Take(clock, want) => self.inlet.take(clock) == want,
            Call::Unended(want) => self.inlet.unended() == want,
        }
    }

    /// Makes calls as long as their results are right, and returns whether all are.
    fn answers_all(&mut self, calls: &[Call]) -> bool {
        for call in calls {
            if !self.answers(call) {
                return false;
            }
        }
        true
    }

    /// Settles the queue, with the outlets in the other order. If memory is refused, it does so
    /// once more with the ends that are handed back.
    fn settled(self, rt: &impl Host) -> Settled {
        let Ends { zero, one, inlet } = self;
        let mut outlets = Vec::with_capacity(rt.alloc(), 2).expect(rt, "memory");
        outlets.push_reserved(one);
        outlets.push_reserved(zero);
        match settle(rt.alloc(), inlet, outlets) {
            Ok(settled) => settled,
            Err((_, inlet, outlets)) => match settle(rt.alloc(), inlet, outlets) {
                Ok(settled) => settled,
                Err((fault, _, _)) => panic!(rt; "accounts: {fault:?}"),
            },
        }
    }
}

/// Whether these are the data of the account of a sender.
fn is_shown(settled: &Settled, sender: usize, shown: &Shown) -> bool {
    let Some(account) = settled.senders.get(sender) else {
        return false;
    };
    account.put.as_slice() == shown.0
        && account.taken.as_slice() == shown.1
        && account.left.as_slice() == shown.2
        && account.closed == shown.3
}

/// Whether the places have these senders, messages and clocks.
fn are_placed(settled: &Settled, places: &[(u32, Option<u32>, u64)]) -> bool {
    for (place, (sender, message, clock)) in settled.places.iter().zip(places) {
        if place.sender != *sender || place.message != *message || place.clock != *clock {
            return false;
        }
    }
    settled.places.len() == places.len()
}

/// Whether this is the settled queue after the calls of a row.
fn is_settled(settled: &Settled, row: &Row) -> bool {
    let are_shown = is_shown(settled, 0, &row.zero) && is_shown(settled, 1, &row.one);
    are_shown && settled.senders.len() == 2 && are_placed(settled, row.places)
}

/// Whether the results of the calls of a row are right, and then this is the settled queue.
fn is_as_said(rt: &impl Host, row: &Row) -> bool {
    let mut ends = Ends::new(rt, row.quotas);
    if !ends.answers_all(row.calls) {
        return false;
    }
    is_settled(&ends.settled(rt), row)
}

/// Two senders fill their quotas and close, and all is taken.
const ONE_THREAD: Row = Row {
    quotas: (2, 1),
    calls: &[
        Call::Put(0, 10, 0, 0, 1),
        Call::Put(0, 11, 0, 1, 1),
        Call::Refuse(0, 12, 0, SendFault::Full(12)),
        Call::Put(1, 20, 0, 2, 1),
        Call::Close(0),
        Call::Refuse(0, 13, 0, SendFault::Closed(13)),
        Call::Take(0, Taken::Message(0, 10, 0, 1)),
        Call::Take(0, Taken::Message(0, 11, 1, 1)),
        Call::Take(0, Taken::Message(1, 20, 2, 1)),
        Call::Take(0, Taken::Ended(0)),
        Call::Unended(1),
        Call::Take(0, Taken::Nothing),
        Call::Close(1),
        Call::Take(0, Taken::Ended(1)),
        Call::Unended(0),
        Call::Take(0, Taken::Nothing),
    ],
    zero: (&[10, 11], &[10, 11], &[], true),
    one: (&[20], &[20], &[], true),
    places: &[
        (0, Some(10), 1),
        (0, Some(11), 1),
        (1, Some(20), 1),
        (0, None, 0),
        (1, None, 0),
    ],
};

/// The same, settled after the first take.
const SETTLED_AFTER_THE_FIRST_TAKE: Row = Row {
    quotas: (2, 1),
    calls: &[
        Call::Put(0, 10, 0, 0, 1),
        Call::Put(0, 11, 0, 1, 1),
        Call::Refuse(0, 12, 0, SendFault::Full(12)),
        Call::Put(1, 20, 0, 2, 1),
        Call::Close(0),
        Call::Refuse(0, 13, 0, SendFault::Closed(13)),
        Call::Take(0, Taken::Message(0, 10, 0, 1)),
    ],
    zero: (&[10, 11], &[10], &[11], true),
    one: (&[20], &[], &[20], false),
    places: &[
        (0, Some(10), 1),
        (0, Some(11), 1),
        (1, Some(20), 1),
        (0, None, 0),
    ],
};

/// Clocks are raised by offers and by places; a fault of the clock is the last one.
const CLOCKS: Row = Row {
    quotas: (2, 1),
    calls: &[
        Call::Put(0, 10, 0, 0, 1),
        Call::Put(1, 20, 5, 1, 6),
        Call::Put(0, 11, 1, 2, 6),
        Call::Refuse(0, 12, u64::MAX, SendFault::Full(12)),
        Call::Close(1),
        Call::Refuse(1, 21, u64::MAX, SendFault::Closed(21)),
        Call::Take(0, Taken::Message(0, 10, 0, 1)),
        Call::Take(1, Taken::Message(1, 20, 1, 6)),
        Call::Take(9, Taken::Message(0, 11, 2, 9)),
        Call::Take(9, Taken::Ended(1)),
        Call::Take(9, Taken::Nothing),
    ],
    zero: (&[10, 11], &[10, 11], &[], false),
    one: (&[20], &[20], &[], true),
    places: &[
        (0, Some(10), 1),
        (1, Some(20), 6),
        (0, Some(11), 6),
        (1, None, 0),
    ],
};

/// A second close changes nothing, and the end mark has a place besides the quota.
const A_SECOND_CLOSE: Row = Row {
    quotas: (2, 0),
    calls: &[
        Call::Put(0, u32::MAX, 0, 0, 1),
        Call::Left(0, 1, false),
        Call::Close(0),
        Call::Close(0),
        Call::Close(1),
        Call::Left(0, 1, true),
        Call::Left(1, 0, true),
        Call::Take(0, Taken::Message(0, u32::MAX, 0, 1)),
        Call::Take(0, Taken::Ended(0)),
        Call::Take(0, Taken::Ended(1)),
        Call::Take(0, Taken::Nothing),
    ],
    zero: (&[u32::MAX], &[u32::MAX], &[], true),
    one: (&[], &[], &[], true),
    places: &[(0, Some(u32::MAX), 1), (0, None, 0), (1, None, 0)],
};

/// The greatest clock is refused, and changes nothing; one less is not.
const THE_GREATEST_CLOCKS: Row = Row {
    quotas: (1, 0),
    calls: &[
        Call::Refuse(0, 7, u64::MAX, SendFault::ClockSpent(7)),
        Call::Left(0, 1, false),
        Call::Put(0, 7, u64::MAX - 1, 0, u64::MAX),
        Call::Left(0, 0, false),
    ],
    zero: (&[7], &[], &[7], false),
    one: (&[], &[], &[], false),
    places: &[(0, Some(7), u64::MAX)],
};

/// The rows above.
const ROWS: &[&Row] = &[
    &ONE_THREAD,
    &SETTLED_AFTER_THE_FIRST_TAKE,
    &CLOCKS,
    &A_SECOND_CLOSE,
    &THE_GREATEST_CLOCKS,
];

#[test]
fn one_thread(rt: HostRuntime) {
    for &row in ROWS {
        assert!(rt; is_as_said(&rt, row), "{:?}", row.quotas);
    }
}

/// Sends the hundred messages from `first` on, and closes.
fn send_all(mut outlet: Outlet, first: u32) -> Outlet
    requires { first ≤ 1000 }
    ensures { IsSameOutlet outlet result }
{
    for m in first..first + 100 {
        let _ = outlet.send(m, 0);
    }
    outlet.close();
    outlet
}

/// Takes until all senders have ended.
fn take_all(mut inlet: Inlet) -> Inlet
    ensures { IsSameInlet inlet result }
{
    for _ in 0..MOST_TAKES {
        if inlet.unended() == 0 {
            break;
        }
        if inlet.take(0) == Taken::Nothing {
            thread::yield_now();
        }
    }
    inlet
}

/// Two threads send and a third one takes; all ends come back.
fn in_three_threads(rt: &impl Parallel, ends: Ends) -> Ends {
    let Ends { zero, one, inlet } = ends;
    let (zero, (one, inlet)) = thread::join(
        rt,
        move || send_all(zero, 0),
        move || thread::join(rt, move || send_all(one, 1000), move || take_all(inlet)),
    );
    Ends { zero, one, inlet }
}

/// The hundred messages from `first` on.
fn hundred(rt: &impl Host, first: u32) -> Vec<u32>
    requires { first ≤ 1000 }
{
    let mut all = Vec::new(rt.alloc());
    for m in first..first + 100 {
        all.push(m).expect(rt, "memory");
    }
    all
}

/// Whether the accounts of two senders show that a hundred messages of each were put and taken.
fn are_hundreds(rt: &impl Host, settled: &Settled) -> bool {
    let (low, high) = (hundred(rt, 0), hundred(rt, 1000));
    let low = (low.as_slice(), low.as_slice(), [].as_slice(), true);
    let high = (high.as_slice(), high.as_slice(), [].as_slice(), true);
    is_shown(settled, 0, &low) && is_shown(settled, 1, &high)
}

/// Whether two threads put a hundred messages each, a third takes them, and all is settled.
fn are_taken(rt: &impl Parallel) -> bool {
    let ends = in_three_threads(rt, Ends::new(rt, (100, 100)));
    let are_ended = ends.inlet.unended() == 0;
    let settled = ends.settled(rt);
    are_ended && are_hundreds(rt, &settled) && settled.places.len() == 202
}

#[test]
fn three_threads(rt: HostRuntime) {
    assert!(rt; are_taken(&rt));
}
