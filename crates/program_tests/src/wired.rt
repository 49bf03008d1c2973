//! Fresh ends of instances, and ends that do not fit.

use crate::alone::is_put;
use crate::host::{Host, chart_of};
use example_charts::RELAY;
use msc_chart::{Chart, Queues};
use msc_instance::{InstanceEnds, wire};

/// The queues of an instance's outlets, each with the number of messages that it has left, and
/// those of its inlets.
type Wired = (&'static [(u32, u32)], &'static [u32]);

/// The ends of the three instances of `relay` under an architecture.
const RELAY_ENDS: [(Queues, [Wired; 3]); 3] = [
    (
        Queues::PAIR,
        [(&[(1, 1), (2, 1)], &[]), (&[], &[1, 7]), (&[(7, 1)], &[2])],
    ),
    (
        Queues::MAILBOX,
        [(&[(1, 1), (2, 1)], &[]), (&[], &[1]), (&[(1, 1)], &[2])],
    ),
    (
        Queues::SINGLE,
        [(&[(0, 1), (1, 1)], &[]), (&[], &[0, 2]), (&[(2, 1)], &[1])],
    ),
];

/// Whether these are the queues of an instance's outlets, with as many messages left.
fn are_outlets(ends: &InstanceEnds, wanted: &[(u32, u32)]) -> bool {
    for (outlet, (queue, left)) in ends.outlets.iter().zip(wanted) {
        if outlet.0 != *queue || outlet.1.left() != *left {
            return false;
        }
    }
    ends.outlets.len() == wanted.len()
}

/// Whether these are the queues of an instance's inlets.
fn are_inlets(ends: &InstanceEnds, wanted: &[u32]) -> bool {
    for (inlet, queue) in ends.inlets.iter().zip(wanted) {
        if inlet.0 != *queue {
            return false;
        }
    }
    ends.inlets.len() == wanted.len()
}

/// Whether an instance has these ends.
fn is_wired(ends: &InstanceEnds, wanted: Wired) -> bool {
    are_outlets(ends, wanted.0) && are_inlets(ends, wanted.1)
}

/// Whether three instances have these ends.
fn are_ends(all: &[InstanceEnds], wanted: [Wired; 3]) -> bool {
    match all {
        [a, b, c] => is_wired(a, wanted[0]) && is_wired(b, wanted[1]) && is_wired(c, wanted[2]),
        _ => false,
    }
}

/// Whether the instances of a chart have these ends.
fn are_wired_in(rt: &impl Host, chart: &Chart, queues: Queues, wanted: [Wired; 3]) -> bool {
    are_ends(&wire(rt.alloc(), chart, queues).expect(rt, "ends"), wanted)
}

/// Whether the instances of `relay` have these ends.
fn are_wired(rt: &impl Host, queues: Queues, wanted: [Wired; 3]) -> bool {
    are_wired_in(rt, &chart_of(rt, RELAY), queues, wanted)
}

#[test]
fn the_ends_of_relay(rt: HostRuntime) {
    for (queues, wanted) in RELAY_ENDS {
        assert!(rt; are_wired(&rt, queues, wanted), "{queues:?}");
    }
}

/// The change of an instance's ends before the test whether they fit.
#[derive(Clone, Copy, Debug)]
enum Change {
    Nothing,
    /// Its outlets are closed.
    Closed,
    /// Its outlets are in descending order.
    Falling,
    /// Its last outlet gets a message.
    Spent,
}

/// Closes all outlets of an instance.
fn close_all(ends: &mut InstanceEnds) {
    for outlet in ends.outlets.iter_mut() {
        outlet.1.close();
    }
}

/// Changes ends in this way, and returns whether that was possible.
fn is_changed(ends: &mut InstanceEnds, change: Change) -> bool {
    match change {
        Change::Nothing => true,
        Change::Closed => {
            close_all(ends);
            true
        }
        Change::Falling => {
            ends.outlets.reverse();
            true
        }
        Change::Spent => is_put(ends, 5, 0),
    }
}

/// Whether the first of these ends, after this change, fit an instance of a chart; none if the
/// change was not possible.
fn first_fit(all: &mut [InstanceEnds], chart: &Chart, change: Change, i: u32) -> Option<bool> {
    let ends = all.first_mut()?;
    if !is_changed(ends, change) {
        return None;
    }
    Some(ends.fits(chart, i))
}

/// The same for the ends of a chart.
fn fit_in(rt: &impl Host, chart: &Chart, change: Change, i: u32) -> Option<bool> {
    let mut all = wire(rt.alloc(), chart, Queues::SINGLE).expect(rt, "ends");
    first_fit(&mut all, chart, change, i)
}

/// The same for `relay`.
fn fit(rt: &impl Host, change: Change, i: u32) -> Option<bool> {
    fit_in(rt, &chart_of(rt, RELAY), change, i)
}

/// Changes of the ends of the first instance of `relay`, an instance, and whether they fit it.
const FITTING: &[(Change, u32, bool)] = &[
    (Change::Nothing, 0, true),
    (Change::Nothing, 1, false),
    (Change::Nothing, 7, false),
    (Change::Closed, 0, false),
    (Change::Falling, 0, false),
    (Change::Spent, 0, false),
];

#[test]
fn ends_that_fit_and_that_do_not(rt: HostRuntime) {
    for &(change, i, wanted) in FITTING {
        assert_eq!(rt; fit(&rt, change, i), Some(wanted), "{change:?} {i}");
    }
}
