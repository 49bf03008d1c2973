//! Races of charts, and verdicts. `program_tests` tests the printed verdicts on the worked charts.

use crate::charts::chart_of;
use crate::host::Host;
use msc_chart::{Event, Queues};
use msc_race::{Verdict, check};
use std::fmt::Write;

/// A chart in which the pairs that follow from the queue rule are also enforced.
const REPLY: &[u8] = b"msc t; instance a; out m1 to b; out m2 to b; endinstance; \
instance b; in m2 from a; out x to c; in m1 from a; in y from c; endinstance; \
instance c; in x from b; out y to b; endinstance; endmsc;";

/// Whether these are the races of a verdict; none if it passes.
fn are_listed(verdict: &Verdict, wanted: &[(Event, Event)]) -> bool {
    match verdict {
        Verdict::Pass => wanted.is_empty(),
        Verdict::Races(list) => list.as_slice() == wanted,
    }
}

/// Whether these are the races of a text's chart under an architecture.
fn are_races(rt: &impl Host, text: &[u8], queues: Queues, wanted: &[(Event, Event)]) -> bool {
    let chart = chart_of(rt, text);
    are_listed(
        &check(rt.alloc(), &chart, queues).expect(rt, "a verdict"),
        wanted,
    )
}

#[test]
fn what_follows_the_queue_rule_is_enforced(rt: HostRuntime) {
    assert!(rt; are_races(&rt, REPLY, Queues::PAIR, &[(2, 4), (3, 4)]));
}

/// `count` messages from a to b, with the inputs in the same order or in reverse.
fn messages(rt: &impl Host, count: u32, reversed: bool) -> String {
    let mut text = String::from_str(rt.alloc(), "msc t;instance a;").expect(rt, "memory");
    for m in 0..count {
        write!(text, "out m{m} to b;").expect(rt, "memory");
    }
    text.push_str("endinstance;instance b;")
        .expect(rt, "memory");
    for m in 0..count {
        let k = if reversed { count - 1 - m } else { m };
        write!(text, "in m{k} from a;").expect(rt, "memory");
    }
    text.push_str("endinstance;endmsc;").expect(rt, "memory");
    text
}

/// The number of races, the first and the last.
type Summary = (usize, Option<(Event, Event)>, Option<(Event, Event)>);

/// The number of races of a verdict, the first and the last.
fn summary_of(verdict: &Verdict) -> Summary {
    match verdict {
        Verdict::Pass => (0, None, None),
        Verdict::Races(list) => {
            let list = list.as_slice();
            (list.len(), list.first().copied(), list.last().copied())
        }
    }
}

/// The number of races of a text's chart under an architecture, the first and the last.
fn summary(rt: &impl Host, text: &[u8], queues: Queues) -> Summary {
    let chart = chart_of(rt, text);
    summary_of(&check(rt.alloc(), &chart, queues).expect(rt, "a verdict"))
}

/// Whether these are the races of `count` messages from a to b, with the inputs in the same order
/// or in reverse.
fn are_many(rt: &impl Host, count: u32, reversed: bool, queues: Queues, wanted: Summary) -> bool {
    let text = messages(rt, count, reversed);
    summary(rt, text.as_bytes(), queues) == wanted
}

/// Numbers of messages, whether their inputs are in reverse, architectures, and the races.
const MANY: &[(u32, bool, Queues, Summary)] = &[
    (
        32,
        true,
        Queues::PAIR,
        (496, Some((32, 33)), Some((62, 63))),
    ),
    (
        32,
        true,
        Queues::MAILBOX,
        (496, Some((32, 33)), Some((62, 63))),
    ),
    (
        33,
        true,
        Queues::PAIR,
        (528, Some((33, 34)), Some((64, 65))),
    ),
    (
        33,
        true,
        Queues::MAILBOX,
        (528, Some((33, 34)), Some((64, 65))),
    ),
    (1_024, false, Queues::PAIR, (0, None, None)),
    (1_024, false, Queues::MAILBOX, (0, None, None)),
    (
        1_024,
        false,
        Queues::SINGLE,
        (523_776, Some((1_024, 1_025)), Some((2_046, 2_047))),
    ),
];

#[test]
fn many_messages(rt: HostRuntime) {
    for &(count, reversed, queues, wanted) in MANY {
        let are = are_many(&rt, count, reversed, queues, wanted);
        assert!(rt; are, "{count} messages, {queues:?}");
    }
}
