//! Sticks between two rounds of a chart, all of whose instances are ready. The expected values are
//! those of `tools/naive/models/rounds.py`.

use crate::charts::chart_of;
use crate::host::Host;
use example_charts::{COREGION, CROSSING, EMPTY, OVERTAKING, RELAY, TWO_MAILBOXES, TWO_SENDERS};
use msc_chart::{Chart, Event, Queues, RoundNumbers};
use msc_ready::{BlockedPairs, Ready, RoundBlockedPairs};

/// A message to oneself, drawn above another of its mailbox.
const OWN_MESSAGE: &[u8] = b"msc t; instance a; out m1 to a; in m1 from a; in m2 from b; \
endinstance; instance b; action 'go'; out m2 to a; endinstance; endmsc;";

/// Charts, architectures, and the blocked pairs from the first round of two to the second, by the
/// events of the chart.
const BETWEEN: &[(&[u8], Queues, &[(Event, Event)])] = &[
    (EMPTY, Queues::MAILBOX, &[]),
    (TWO_SENDERS, Queues::PAIR, &[]),
    (TWO_SENDERS, Queues::MAILBOX, &[(1, 2), (2, 1)]),
    (COREGION, Queues::MAILBOX, &[(1, 2), (2, 1)]),
    (RELAY, Queues::MAILBOX, &[(3, 2)]),
    (CROSSING, Queues::MAILBOX, &[]),
    (OVERTAKING, Queues::PAIR, &[]),
    (
        TWO_MAILBOXES,
        Queues::MAILBOX,
        &[(4, 5), (5, 4), (6, 7), (7, 6)],
    ),
    (OWN_MESSAGE, Queues::MAILBOX, &[(1, 2)]),
];

/// Whether a pair of events of two rounds consists of these events of the chart, the first in the
/// first round and the second in the second.
fn is_pair(rt: &impl Host, chart: &Chart, pair: (Event, Event), wanted: (Event, Event)) -> bool {
    let (e, f) = wanted;
    if e >= chart.events() || f >= chart.events() {
        return false;
    }
    let numbers = RoundNumbers::of(rt.alloc(), chart).expect(rt, "memory");
    pair == (numbers.number(e, 0), numbers.number(f, 1))
}

/// The blocked pairs between two rounds of a chart under an architecture, and their count.
fn between(rt: &impl Host, chart: &Chart, queues: Queues) -> (Vec<(Event, Event)>, u32) {
    let two = chart.two_rounds(rt.alloc()).expect(rt, "two rounds");
    let ready = Ready::all(rt.alloc(), &two, queues).expect(rt, "an order");
    let blocked_pairs = BlockedPairs::of(rt.alloc(), ready).expect(rt, "memory");
    let numbers = RoundNumbers::of(rt.alloc(), chart).expect(rt, "memory");
    let between = RoundBlockedPairs {
        blocked_pairs: &blocked_pairs,
        numbers: &numbers,
    };
    chart.facts();
    let mut all = Vec::new(rt.alloc());
    let mut list = Vec::new(rt.alloc());
    for x in 0..two.events() {
        between.next(&mut list, x).expect(rt, "memory");
        all.extend_from_slice(list.as_slice()).expect(rt, "memory");
    }
    (all, between.count())
}

#[test]
fn blocked_pairs_between_two_rounds(rt: HostRuntime) {
    for &(text, queues, wanted) in BETWEEN {
        let chart = chart_of(&rt, text);
        let (all, count) = between(&rt, &chart, queues);
        let same = all.len() == wanted.len() && count as usize == wanted.len();
        assert!(rt; same, "{wanted:?}, {queues:?}");
        for (pair, it) in all.iter().zip(wanted) {
            assert!(rt; is_pair(&rt, &chart, *pair, *it), "{wanted:?}, {queues:?}");
        }
    }
}

/// Under `Single` each message has a queue of its own, so nothing sticks.
#[test]
fn single_never_sticks_between_rounds(rt: HostRuntime) {
    for &(text, _, _) in BETWEEN {
        let (all, count) = between(&rt, &chart_of(&rt, text), Queues::SINGLE);
        assert!(rt; all.is_empty() && count == 0, "{text:?}");
    }
}
