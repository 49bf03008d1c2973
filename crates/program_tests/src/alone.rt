//! Instances that run one by one in the thread of the test.

use crate::host::{Host, chart_of};
use example_charts::{ONE_MESSAGE, RELAY, TWO_SENDERS};
use msc_chart::{Chart, Event, Queues};
use msc_instance::{AlwaysOpen, End, Gate, InstanceEnds, run_instance, wire};

/// The gate that refuses one event.
#[derive(Clone, Copy)]
pub struct Never(pub Event);

impl Gate for Never {
    ghost use Rattle.std.specs.Prelude.{false, nat_eq, not};

    ghost is_open = { false };

    ghost lets = { λ gate _ event. not (nat_eq event gate.0) };

    fn at(&self, _instance: u32, event: Event) -> bool {
        event != self.0
    }
}

/// How an instance ends, and its log.
type Left<'a> = (End, &'a [Event]);

/// Whether this is the end of an instance with these ends and patience 3; false if there are no
/// ends, or they do not fit.
fn is_left<G: Gate>(
    rt: &impl Host,
    chart: &Chart,
    i: u32,
    ends: Option<InstanceEnds>,
    gate: &G,
    wanted: Left,
) -> bool {
    is_left_after(rt, chart, i, ends, gate, 3, wanted)
}

/// The same with another patience.
fn is_left_after<G: Gate>(
    rt: &impl Host,
    chart: &Chart,
    i: u32,
    ends: Option<InstanceEnds>,
    gate: &G,
    patience: u32,
    wanted: Left,
) -> bool {
    let Some(ends) = ends else {
        return false;
    };
    if i >= chart.instances() || !ends.fits(chart, i) {
        return false;
    }
    let (start, end) = chart.line(i);
    let Ok(log) = Vec::with_capacity(rt.alloc(), end.saturating_sub(start) as usize) else {
        panic!(rt; "memory");
    };
    let left = run_instance(chart, i, ends, gate, patience, log);
    left.end == wanted.0 && left.log.as_slice() == wanted.1
}

/// Whether the last outlet accepts a message with a clock.
pub fn is_put(ends: &mut InstanceEnds, m: u32, clock: u64) -> bool {
    match ends.outlets.last_mut() {
        Some((_, outlet)) => outlet.send(m, clock).is_ok(),
        None => false,
    }
}

/// The act of the sender of `one_message` before its receiver runs.
#[derive(Clone, Copy, Debug)]
enum Before {
    Nothing,
    /// It is stopped by its gate.
    Stops,
    /// It sends the message, and finishes.
    Sends,
    /// Its outlet gets a message of no chart.
    Strays,
}

/// Whether the sender of `one_message` does this.
fn does(rt: &impl Host, chart: &Chart, ends: Option<InstanceEnds>, before: Before) -> bool {
    match before {
        Before::Nothing => true,
        Before::Stops => is_left(rt, chart, 0, ends, &Never(0), (End::Stopped, &[])),
        Before::Sends => is_left(rt, chart, 0, ends, &AlwaysOpen, (End::Finished, &[0])),
        Before::Strays => match ends {
            Some(mut ends) => is_put(&mut ends, 5, 0),
            None => false,
        },
    }
}

/// Whether this is the end of the receiver of a chart of one message after that.
fn is_received_in(rt: &impl Host, chart: &Chart, before: Before, wanted: Left) -> bool {
    let mut ends = wire(rt.alloc(), chart, Queues::PAIR).expect(rt, "ends");
    let takes = ends.pop();
    let is_done = does(rt, chart, ends.pop(), before);
    is_done && is_left(rt, chart, 1, takes, &AlwaysOpen, wanted)
}

/// Whether this is the end of the receiver of `one_message` after that.
fn is_received(rt: &impl Host, before: Before, wanted: Left) -> bool {
    is_received_in(rt, &chart_of(rt, ONE_MESSAGE), before, wanted)
}

/// The act of the sender of `one_message`, and the end of its receiver after it.
const RECEIVED: &[(Before, Left)] = &[
    (Before::Nothing, (End::Impatient, &[])),
    (Before::Stops, (End::Starved, &[])),
    (Before::Sends, (End::Finished, &[1])),
    (Before::Strays, (End::Foreign(5), &[])),
];

#[test]
fn what_comes_of_one_message(rt: HostRuntime) {
    for &(before, wanted) in RECEIVED {
        assert!(rt; is_received(&rt, before, wanted), "{before:?}");
    }
}

/// Whether the last of three instances, which takes a message with the last clock but one, stops
/// before it sends.
fn is_spent_in(rt: &impl Host, chart: &Chart) -> bool {
    let mut ends = wire(rt.alloc(), chart, Queues::MAILBOX).expect(rt, "ends");
    let is_sent = match ends.first_mut() {
        Some(sends) => is_put(sends, 1, u64::MAX - 1),
        None => false,
    };
    let wanted = (End::Stopped, [4].as_slice());
    is_sent && is_left(rt, chart, 2, ends.pop(), &AlwaysOpen, wanted)
}

/// Whether the last instance of `relay` does.
fn is_spent(rt: &impl Host) -> bool {
    is_spent_in(rt, &chart_of(rt, RELAY))
}

#[test]
fn a_clock_that_is_spent(rt: HostRuntime) {
    assert!(rt; is_spent(&rt));
}

/// Whether the sender of a chart of one message, without patience, sends it, and the receiver,
/// without patience, takes nothing.
fn takes_nothing_in(rt: &impl Host, chart: &Chart) -> bool {
    let mut ends = wire(rt.alloc(), chart, Queues::PAIR).expect(rt, "ends");
    let takes = ends.pop();
    let sent = (End::Finished, [0].as_slice());
    let untaken = (End::Impatient, [].as_slice());
    is_left_after(rt, chart, 0, ends.pop(), &AlwaysOpen, 0, sent)
        && is_left_after(rt, chart, 1, takes, &AlwaysOpen, 0, untaken)
}

/// Whether the instances of `one_message` do.
fn takes_nothing(rt: &impl Host) -> bool {
    takes_nothing_in(rt, &chart_of(rt, ONE_MESSAGE))
}

#[test]
fn without_patience_nothing_is_taken(rt: HostRuntime) {
    assert!(rt; takes_nothing(&rt));
}

/// Whether the second of three instances logs both its inputs in this order, if it runs after the
/// third and then the first have sent.
fn takes_in_order_in(rt: &impl Host, chart: &Chart) -> bool {
    let mut ends = wire(rt.alloc(), chart, Queues::PAIR).expect(rt, "ends");
    let (third, second) = (ends.pop(), ends.pop());
    let (last, first) = (
        (End::Finished, [3].as_slice()),
        (End::Finished, [0].as_slice()),
    );
    is_left(rt, chart, 2, third, &AlwaysOpen, last)
        && is_left(rt, chart, 0, ends.pop(), &AlwaysOpen, first)
        && is_left(rt, chart, 1, second, &AlwaysOpen, (End::Finished, &[1, 2]))
}

/// Whether the second instance of `two_senders` does.
fn takes_in_order(rt: &impl Host) -> bool {
    takes_in_order_in(rt, &chart_of(rt, TWO_SENDERS))
}

#[test]
fn a_round_goes_over_the_inlets_from_the_first_on(rt: HostRuntime) {
    assert!(rt; takes_in_order(&rt));
}

/// An instance with three inlets; the first gets two messages.
const THREE_SENDERS: &[u8] = b"msc t; instance a; out p to b; out q to b; endinstance; \
instance b; in p from a; in q from a; in r from c; in s from d; endinstance; \
instance c; out r to b; endinstance; instance d; out s to b; endinstance; endmsc;";

/// Whether the second of four instances takes once from each of its three inlets, and then the
/// second message of the first, if all others have sent.
fn takes_once_in(rt: &impl Host, chart: &Chart) -> bool {
    let mut ends = wire(rt.alloc(), chart, Queues::PAIR).expect(rt, "ends");
    let (fourth, third, second) = (ends.pop(), ends.pop(), ends.pop());
    is_left(
        rt,
        chart,
        0,
        ends.pop(),
        &AlwaysOpen,
        (End::Finished, &[0, 1]),
    ) && is_left(rt, chart, 2, third, &AlwaysOpen, (End::Finished, &[6]))
        && is_left(rt, chart, 3, fourth, &AlwaysOpen, (End::Finished, &[7]))
        && is_left(
            rt,
            chart,
            1,
            second,
            &AlwaysOpen,
            (End::Finished, &[2, 4, 5, 3]),
        )
}

/// Whether the second instance of `three_senders` does.
fn takes_once(rt: &impl Host) -> bool {
    takes_once_in(rt, &chart_of(rt, THREE_SENDERS))
}

#[test]
fn a_round_takes_once_from_each_inlet(rt: HostRuntime) {
    assert!(rt; takes_once(&rt));
}
