//! Short witnesses of pairs of events, worked out by hand.

use crate::charts::chart_of;
use crate::host::Host;
use example_charts::{OVERTAKING, TWO_SENDERS};
use msc_chart::{Chart, Event, Queues};
use msc_race::Enforced;

/// An ISDN basic call, as `charts/isdn_call.msc` has it below its note of two lines.
pub(crate) const ISDN_CALL: &[u8] = b"

msc basic_call;
inst caller, network, callee;
instance caller : terminal;
  out SETUP to network;
  in CALL_PROCEEDING from network;
  in ALERTING from network;
  in CONNECT from network;
  out CONNECT_ACK to network;
  out DISCONNECT to network;
  in RELEASE from network;
  out RELEASE_COMPLETE to network;
endinstance;
instance network : exchange;
  in SETUP from caller;
  out CALL_PROCEEDING to caller;
  out SETUP to callee;
  in ALERTING from callee;
  out ALERTING to caller;
  in CONNECT from callee;
  out CONNECT_ACK to callee;
  out CONNECT to caller;
  in CONNECT_ACK from caller;
  in DISCONNECT from caller;
  out RELEASE to caller;
  out DISCONNECT to callee;
  in RELEASE_COMPLETE from caller;
  in RELEASE from callee;
  out RELEASE_COMPLETE to callee;
endinstance;
instance callee : terminal;
  in SETUP from network;
  out ALERTING to network;
  out CONNECT to network;
  in CONNECT_ACK from network;
  in DISCONNECT from network;
  out RELEASE to network;
  in RELEASE_COMPLETE from network;
endinstance;
endmsc;
";

/// Under `Mailbox` the past of the second input of k is no run: q would have to take m2 first, and
/// z m3, so that the outputs of a and b would wait for each other in a ring.
const RING: &[u8] = b"msc t; instance a; out m1 to q; out m3 to z; endinstance; \
instance b; out m4 to z; out m2 to q; endinstance; \
instance q; in m2 from b; out x to w; in m1 from a; endinstance; \
instance z; in m3 from a; out y to w; in m4 from b; endinstance; \
instance w; in x from q; in y from z; out v to k; endinstance; \
instance k; in u from j; in v from w; endinstance; instance j; out u to k; endinstance; endmsc;";

/// Under `Mailbox` the output of m1 is held, and waits for that of m2.
const WAITING: &[u8] = b"msc t; instance a; out m1 to b; out x to d; in z from d; endinstance; \
instance b; in m2 from c; out y to d; in m1 from a; endinstance; \
instance c; out m2 to b; endinstance; \
instance d; in x from a; in y from b; out z to a; endinstance; endmsc;";

/// `charts/two_phase_commit.msc`.
const TWO_PHASE_COMMIT: &[u8] = b"msc t; inst coordinator, alice, bob; \
instance coordinator; out prepare to alice; out prepare to bob; in yes from alice; \
in yes from bob; out commit to alice; out commit to bob; in done from alice; in done from bob; \
endinstance; instance alice; in prepare from coordinator; out yes to coordinator; \
in commit from coordinator; out done to coordinator; endinstance; \
instance bob; in prepare from coordinator; out yes to coordinator; \
in commit from coordinator; out done to coordinator; endinstance; endmsc;";

/// The past of the second `done`, without bob's.
const DONE: &[Event] = &[0, 1, 8, 9, 2, 12, 13, 3, 4, 5, 14, 15, 7];

/// Texts, architectures, two events of the chart, and their short witness, if there is one.
const SHORT: &[(&[u8], Queues, Event, Event, Option<&[Event]>)] = &[
    (
        ISDN_CALL,
        Queues::MAILBOX,
        12,
        13,
        Some(&[0, 8, 9, 10, 23, 24, 11, 25, 13]),
    ),
    (TWO_SENDERS, Queues::PAIR, 1, 2, Some(&[3, 2])),
    (TWO_SENDERS, Queues::MAILBOX, 1, 2, Some(&[3, 2])),
    (TWO_SENDERS, Queues::SINGLE, 1, 2, Some(&[3, 2])),
    (OVERTAKING, Queues::PAIR, 2, 3, Some(&[0, 3])),
    (OVERTAKING, Queues::MAILBOX, 2, 3, Some(&[0, 3])),
    (OVERTAKING, Queues::SINGLE, 2, 3, Some(&[0, 3])),
    (
        TWO_PHASE_COMMIT,
        Queues::PAIR,
        2,
        3,
        Some(&[0, 1, 12, 13, 3]),
    ),
    (
        TWO_PHASE_COMMIT,
        Queues::MAILBOX,
        2,
        3,
        Some(&[0, 1, 12, 13, 3]),
    ),
    (
        TWO_PHASE_COMMIT,
        Queues::SINGLE,
        2,
        3,
        Some(&[0, 1, 12, 13, 3]),
    ),
    (TWO_PHASE_COMMIT, Queues::PAIR, 6, 7, Some(DONE)),
    (TWO_PHASE_COMMIT, Queues::MAILBOX, 6, 7, Some(DONE)),
    (TWO_PHASE_COMMIT, Queues::SINGLE, 6, 7, Some(DONE)),
    (WAITING, Queues::PAIR, 5, 9, Some(&[0, 1, 6, 3, 4, 7, 8, 9])),
    (
        WAITING,
        Queues::MAILBOX,
        5,
        9,
        Some(&[6, 0, 1, 3, 4, 7, 8, 9]),
    ),
    (
        RING,
        Queues::PAIR,
        13,
        14,
        Some(&[0, 1, 2, 3, 4, 5, 7, 8, 10, 11, 12, 14]),
    ),
    (
        RING,
        Queues::MAILBOX,
        13,
        14,
        Some(&[0, 1, 2, 3, 6, 4, 5, 7, 8, 9, 10, 11, 12, 14]),
    ),
    // A message goes from 0 to 1, m1 is taken before m2, and no event comes before itself.
    (TWO_SENDERS, Queues::PAIR, 0, 1, None),
    (OVERTAKING, Queues::PAIR, 3, 2, None),
    (TWO_SENDERS, Queues::PAIR, 2, 2, None),
];

/// Whether the chart has both events, and this is their short witness, if there is one.
fn is_short(
    rt: &impl Host,
    chart: &Chart,
    queues: Queues,
    e: Event,
    f: Event,
    wanted: Option<&[Event]>,
) -> bool {
    let enforced = Enforced::of(rt.alloc(), chart, queues).expect(rt, "an order");
    if e >= enforced.events() || f >= enforced.events() {
        return false;
    }
    match &enforced
        .short_witness(rt.alloc(), e, f)
        .expect(rt, "memory")
    {
        Some(run) => Some(run.as_slice()) == wanted,
        None => wanted.is_none(),
    }
}

/// The same for a text's chart.
fn is_short_witness(
    rt: &impl Host,
    text: &[u8],
    queues: Queues,
    e: Event,
    f: Event,
    wanted: Option<&[Event]>,
) -> bool {
    is_short(rt, &chart_of(rt, text), queues, e, f, wanted)
}

#[test]
fn short_witnesses(rt: HostRuntime) {
    for &(text, queues, e, f, wanted) in SHORT {
        let is = is_short_witness(&rt, text, queues, e, f, wanted);
        assert!(rt; is, "({e}, {f}) {queues:?}: {text:?}");
    }
}
