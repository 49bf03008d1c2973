//! Systems whose instances are all ready: their blocked pairs, the blocked pairs that are ahead of
//! them, runs after which they have stuck, and whether a run can be whole. The expected values are
//! those of
//! `tools/naive/models/ready.py`.

use crate::charts::{Part, chart_of, text_of};
use crate::host::Host;
use example_charts::{
    BELOW_COREGION, COREGION, CROSSING, EMPTY, NUMBERED, OVERTAKING, RELAY, TWO_MAILBOXES,
    TWO_SENDERS, WAITS,
};
use msc_chart::{Chart, Event, Queues};
use msc_ready::{BlockedPairs, Ready};

/// A cancelled job: the dispatcher hands it on, and the client's message can come to the worker
/// first.
const CANCEL_OVERTAKES: &[u8] = b"msc t; instance client; out submit to dispatcher; \
out cancel to worker; in cancelled from worker; endinstance; \
instance dispatcher; in submit from client; out start to worker; endinstance; \
instance worker; in start from dispatcher; in cancel from client; out cancelled to client; \
endinstance; endmsc;";

/// A coordinator asks two others, and takes their answers in a fixed order; then it does so once
/// more.
const TWO_PHASE_COMMIT: &[u8] = b"msc t; instance c; out prepare to a; out prepare to b; \
in yes from a; in yes from b; out commit to a; out commit to b; in done from a; in done from b; \
endinstance; instance a; in prepare from c; out yes to c; in commit from c; out done to c; \
endinstance; instance b; in prepare from c; out yes to c; in commit from c; out done to c; \
endinstance; endmsc;";

/// A message to oneself, drawn above another of its mailbox.
const OWN_MESSAGE: &[u8] = b"msc t; instance a; out m1 to a; in m1 from a; in m2 from b; \
endinstance; instance b; action 'go'; out m2 to a; endinstance; endmsc;";

/// The data for a blocked pair: the blocked pair that is ahead of it, or otherwise its run.
type Said<'a> = ((Event, Event), Option<(Event, Event)>, &'a [Event]);

/// Charts, architectures, whether some run is whole, and their blocked pairs.
const STICKS: &[(&[u8], Queues, bool, &[Said])] = &[
    (EMPTY, Queues::MAILBOX, true, &[]),
    (TWO_SENDERS, Queues::PAIR, true, &[]),
    (
        TWO_SENDERS,
        Queues::MAILBOX,
        true,
        &[((1, 2), None, &[3, 0])],
    ),
    (COREGION, Queues::MAILBOX, true, &[]),
    (RELAY, Queues::MAILBOX, true, &[]),
    (CROSSING, Queues::MAILBOX, true, &[]),
    (NUMBERED, Queues::PAIR, true, &[]),
    (WAITS, Queues::MAILBOX, true, &[]),
    // The message that was sent first is drawn below the other: no run is whole.
    (OVERTAKING, Queues::PAIR, false, &[((2, 3), None, &[0, 1])]),
    (
        TWO_MAILBOXES,
        Queues::MAILBOX,
        true,
        &[
            ((4, 5), None, &[2, 3, 0, 1, 6, 7]),
            ((6, 7), None, &[0, 1, 2, 3, 4, 5]),
        ],
    ),
    (
        CANCEL_OVERTAKES,
        Queues::MAILBOX,
        true,
        &[((5, 6), None, &[0, 1, 3, 4])],
    ),
    (CANCEL_OVERTAKES, Queues::PAIR, true, &[]),
    (
        TWO_PHASE_COMMIT,
        Queues::MAILBOX,
        true,
        &[
            ((2, 3), None, &[0, 1, 12, 13, 8, 9]),
            ((6, 7), Some((2, 3)), &[]),
        ],
    ),
    (
        OWN_MESSAGE,
        Queues::MAILBOX,
        true,
        &[((1, 2), None, &[3, 4, 0])],
    ),
];

/// Whether these are the data for a blocked pair.
fn is_said(
    rt: &impl Host,
    blocked_pairs: &BlockedPairs,
    pair: (Event, Event),
    wanted: Said,
) -> bool {
    let events = blocked_pairs.ready().events();
    if pair.0 >= events || pair.1 >= events {
        return false;
    }
    if !blocked_pairs.is_first(pair.0, pair.1) {
        return (pair, blocked_pairs.ahead_of(pair.1)) == (wanted.0, wanted.1);
    }
    let run = blocked_pairs
        .ready()
        .blocked_pair_run(rt.alloc(), pair.0, pair.1);
    (pair, None) == (wanted.0, wanted.1) && run.expect(rt, "a run").as_slice() == wanted.2
}

/// All blocked pairs, event by event.
fn listed(rt: &impl Host, blocked_pairs: &BlockedPairs) -> Vec<(Event, Event)> {
    let mut all = Vec::new(rt.alloc());
    let mut list = Vec::new(rt.alloc());
    for e in 0..blocked_pairs.ready().events() {
        blocked_pairs.next(&mut list, e).expect(rt, "memory");
        all.extend_from_slice(list.as_slice()).expect(rt, "memory");
    }
    all
}

/// Whether these are the blocked pairs of a chart under an architecture, with their data.
fn are_blocked_pairs(
    rt: &impl Host,
    chart: &Chart,
    queues: Queues,
    whole: bool,
    wanted: &[Said],
) -> bool {
    let ready = Ready::all(rt.alloc(), chart, queues).expect(rt, "an order");
    let may_finish = ready.may_finish(rt.alloc()).expect(rt, "a run");
    let blocked_pairs = BlockedPairs::of(rt.alloc(), ready).expect(rt, "memory");
    let all = listed(rt, &blocked_pairs);
    if blocked_pairs.count() as usize != wanted.len() || all.len() != wanted.len() {
        return false;
    }
    let told = all.iter().zip(wanted);
    may_finish == whole
        && told
            .into_iter()
            .all(|(pair, said)| is_said(rt, &blocked_pairs, *pair, *said))
}

#[test]
fn blocked_pairs_and_their_runs(rt: HostRuntime) {
    for &(text, queues, whole, wanted) in STICKS {
        let are = are_blocked_pairs(&rt, &chart_of(&rt, text), queues, whole, wanted);
        assert!(rt; are, "{wanted:?}, {queues:?}");
    }
}

/// Under `Single` each message has a queue of its own, so nothing sticks.
#[test]
fn single_never_sticks(rt: HostRuntime) {
    for &(text, _, _, _) in STICKS {
        let are = are_blocked_pairs(&rt, &chart_of(&rt, text), Queues::SINGLE, true, &[]);
        assert!(rt; are, "{:?}", Queues::SINGLE);
    }
}

/// Which instances are ready, and the results: the blocked pairs, or otherwise the races that are
/// left.
const SOME: &[(&[u8], &[bool], &[(Event, Event)], &[(Event, Event)])] = &[
    (CANCEL_OVERTAKES, &[false, false, true], &[(5, 6)], &[]),
    (CANCEL_OVERTAKES, &[true, false, false], &[], &[(5, 6)]),
    (CANCEL_OVERTAKES, &[false, false, false], &[], &[(5, 6)]),
    (OWN_MESSAGE, &[false, true], &[], &[(0, 2), (1, 2)]),
];

/// All races that are left, event by event.
fn left(rt: &impl Host, ready: &Ready) -> Vec<(Event, Event)> {
    let mut all = Vec::new(rt.alloc());
    for e in 0..ready.events() {
        for f in 0..ready.events() {
            if ready.next_race_left(e, f) == Some(f) {
                all.push((e, f)).expect(rt, "memory");
            }
        }
    }
    all
}

/// A list of these.
fn list_of(rt: &impl Host, lines: &[bool]) -> Vec<bool> {
    Vec::from_slice(rt.alloc(), lines).expect(rt, "memory")
}

/// Whether, with these instances ready, a chart has these blocked pairs, and these races are left.
fn are_some(
    rt: &impl Host,
    chart: &Chart,
    lines: &[bool],
    wanted: (&[(Event, Event)], &[(Event, Event)]),
) -> bool {
    let ready = Ready::some(rt.alloc(), chart, Queues::MAILBOX, list_of(rt, lines));
    let blocked_pairs = BlockedPairs::of(rt.alloc(), ready.expect(rt, "an order")).expect(
        rt, "memory",
    );
    if listed(rt, &blocked_pairs).as_slice() != wanted.0 {
        return false;
    }
    !wanted.0.is_empty() || left(rt, blocked_pairs.ready()).as_slice() == wanted.1
}

#[test]
fn some_instances_ready(rt: HostRuntime) {
    for &(text, lines, blocked_pairs, races) in SOME {
        let are = are_some(&rt, &chart_of(&rt, text), lines, (blocked_pairs, races));
        assert!(rt; are, "{lines:?}");
    }
}

/// Two streams of as many messages, from two senders to one receiver.
const STREAMS: &[Part] = &[
    ("msc t;instance a;", 512, "out m", " to b;"),
    ("endinstance;instance b;", 512, "in m", " from a;"),
    ("", 512, "in n", " from c;"),
    ("endinstance;instance c;", 512, "out n", " to b;"),
    ("endinstance;endmsc;", 0, "", ""),
];

/// The number of blocked pairs of a chart of mailboxes, whether another blocked pair is ahead of
/// the last one, and the length of the run of the first.
fn summary(rt: &impl Host, chart: &Chart) -> (u32, Option<(Event, Event)>, usize) {
    let ready = Ready::all(rt.alloc(), chart, Queues::MAILBOX).expect(rt, "an order");
    let blocked_pairs = BlockedPairs::of(rt.alloc(), ready).expect(rt, "memory");
    if blocked_pairs.ready().events() != 2_048 || !blocked_pairs.is_first(512, 1_024) {
        return (0, None, 0);
    }
    let behind = blocked_pairs.ahead_of(1_535);
    let run = blocked_pairs
        .ready()
        .blocked_pair_run(rt.alloc(), 512, 1_024);
    (blocked_pairs.count(), behind, run.expect(rt, "a run").len())
}

#[test]
fn two_streams_stick_at_once(rt: HostRuntime) {
    let text = text_of(&rt, STREAMS);
    let are = summary(&rt, &chart_of(&rt, text.as_bytes()));
    assert_eq!(rt; are, (262_144, Some((512, 1_024)), 1_024));
}
