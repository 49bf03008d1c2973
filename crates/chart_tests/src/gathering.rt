//! Logs that are gathered into the least run that has them as its lines, and logs of no run.

use crate::charts::chart_of;
use crate::host::Host;
use example_charts::{CROSSING, RELAY, TWO_SENDERS};
use msc_chart::{Chart, Event, Queues};
use msc_gather::{GatherFault, gather};

/// Texts, architectures, logs, and the run that they are gathered into.
const GATHERED: &[(&[u8], Queues, &[&[Event]], &[Event])] = &[
    (
        TWO_SENDERS,
        Queues::PAIR,
        &[&[0], &[1, 2], &[3]],
        &[0, 1, 3, 2],
    ),
    (
        TWO_SENDERS,
        Queues::PAIR,
        &[&[0], &[2, 1], &[3]],
        &[0, 3, 2, 1],
    ),
    (
        TWO_SENDERS,
        Queues::MAILBOX,
        &[&[0], &[2, 1], &[3]],
        &[3, 0, 2, 1],
    ),
    (
        TWO_SENDERS,
        Queues::MAILBOX,
        &[&[0], &[2], &[3]],
        &[3, 0, 2],
    ),
    (
        TWO_SENDERS,
        Queues::SINGLE,
        &[&[0], &[2, 1], &[3]],
        &[0, 3, 2, 1],
    ),
    (CROSSING, Queues::PAIR, &[&[0, 1], &[2, 3]], &[0, 2, 1, 3]),
    (CROSSING, Queues::PAIR, &[&[1, 0], &[2, 3]], &[2, 1, 0, 3]),
    (CROSSING, Queues::PAIR, &[&[], &[]], &[]),
    (RELAY, Queues::MAILBOX, &[&[], &[], &[]], &[]),
    (RELAY, Queues::MAILBOX, &[&[0], &[2], &[]], &[0, 2]),
    (
        RELAY,
        Queues::MAILBOX,
        &[&[0, 1], &[2], &[4, 5]],
        &[0, 1, 2, 4, 5],
    ),
    (
        RELAY,
        Queues::MAILBOX,
        &[&[0, 1], &[2], &[4]],
        &[0, 1, 2, 4],
    ),
];

/// Logs of `crossing` that no run has as its lines: each queue is in order by itself; a log is
/// missing; an event twice; events on another line; an event of no chart; an input without its
/// output.
const OF_NO_RUN: &[&[&[Event]]] = &[
    &[&[1, 0], &[3, 2]],
    &[&[0, 1]],
    &[&[0, 0], &[2]],
    &[&[2], &[0]],
    &[&[0, 9], &[2]],
    &[&[0, 1], &[]],
];

/// A log as a list of its own.
fn own(rt: &impl Host, log: &[Event]) -> Vec<Event> {
    let mut own = Vec::new(rt.alloc());
    own.extend_from_slice(log).expect(rt, "memory");
    own
}

/// The logs as lists of their own.
fn owned(rt: &impl Host, logs: &[&[Event]]) -> Vec<Vec<Event>> {
    let mut all = Vec::new(rt.alloc());
    for log in logs {
        all.push(own(rt, log)).expect(rt, "memory");
    }
    all
}

/// Whether the logs of a chart are gathered into this run or, if there is none, no run has them as
/// its lines.
fn is_gathered_in(
    rt: &impl Host,
    chart: &Chart,
    queues: Queues,
    logs: &[Vec<Event>],
    wanted: Option<&[Event]>,
) -> bool {
    match gather(rt.alloc(), chart, queues, logs) {
        Ok(run) => Some(run.as_slice()) == wanted,
        Err(GatherFault::NoMerge) => wanted.is_none(),
        Err(_) => false,
    }
}

/// The same for a text's chart.
fn is_gathered(
    rt: &impl Host,
    text: &[u8],
    queues: Queues,
    logs: &[&[Event]],
    wanted: Option<&[Event]>,
) -> bool {
    is_gathered_in(rt, &chart_of(rt, text), queues, &owned(rt, logs), wanted)
}

#[test]
fn logs_of_runs(rt: HostRuntime) {
    for &(text, queues, logs, wanted) in GATHERED {
        let is = is_gathered(&rt, text, queues, logs, Some(wanted));
        assert!(rt; is, "{queues:?} {wanted:?}");
    }
}

#[test]
fn logs_of_no_run(rt: HostRuntime) {
    for &logs in OF_NO_RUN {
        let is = is_gathered(&rt, CROSSING, Queues::PAIR, logs, None);
        assert!(rt; is, "{}", logs.len());
    }
}
