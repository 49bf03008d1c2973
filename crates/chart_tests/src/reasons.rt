//! Why races are races, and why pairs are enforced. The expected values were derived from the
//! charts by hand, with the definitions in `docs/MODEL.md`.

use crate::charts::chart_of;
use crate::closest::OUTPUT_BETWEEN;
use crate::host::Host;
use example_charts::{
    CROSSING, LOCAL_EVENTS, OVERTAKING, RELAY, TWO_MAILBOXES, TWO_SENDERS, WAITS,
};
use msc_chart::{Chart, Event, Queues};
use msc_race::Enforced;
use msc_reason::{Cause, RaceKind, Reason, Why, cause_of, explain, is_race};

/// The kind of a race, the event that it needs before which output, and whether it is always
/// reversed.
type Expected = (RaceKind, Event, Event, bool);

/// Charts, architectures, pairs of events, and why they are races, if they are.
const REASONS: &[(&[u8], Queues, (Event, Event), Option<Expected>)] = &[
    (
        TWO_SENDERS,
        Queues::PAIR,
        (1, 2),
        Some((RaceKind::Queues, 1, 3, false)),
    ),
    (
        TWO_SENDERS,
        Queues::MAILBOX,
        (1, 2),
        Some((RaceKind::Unordered, 0, 3, false)),
    ),
    (
        TWO_SENDERS,
        Queues::SINGLE,
        (1, 2),
        Some((RaceKind::Queues, 1, 3, false)),
    ),
    (
        RELAY,
        Queues::PAIR,
        (2, 3),
        Some((RaceKind::Queues, 2, 5, false)),
    ),
    (RELAY, Queues::MAILBOX, (2, 3), None),
    (RELAY, Queues::PAIR, (0, 1), None),
    (RELAY, Queues::PAIR, (3, 2), None),
    (
        OVERTAKING,
        Queues::PAIR,
        (2, 3),
        Some((RaceKind::Overtaken, 1, 0, true)),
    ),
    (
        OVERTAKING,
        Queues::MAILBOX,
        (2, 3),
        Some((RaceKind::Overtaken, 1, 0, true)),
    ),
    (
        OVERTAKING,
        Queues::SINGLE,
        (2, 3),
        Some((RaceKind::Queues, 2, 0, false)),
    ),
    (
        CROSSING,
        Queues::PAIR,
        (0, 1),
        Some((RaceKind::Early, 0, 2, false)),
    ),
    (
        CROSSING,
        Queues::MAILBOX,
        (2, 3),
        Some((RaceKind::Early, 2, 0, false)),
    ),
    (
        WAITS,
        Queues::PAIR,
        (1, 2),
        Some((RaceKind::Early, 1, 0, false)),
    ),
    (
        TWO_MAILBOXES,
        Queues::PAIR,
        (6, 7),
        Some((RaceKind::Queues, 6, 1, false)),
    ),
    (
        TWO_MAILBOXES,
        Queues::MAILBOX,
        (6, 7),
        Some((RaceKind::Unordered, 2, 1, false)),
    ),
    (
        OUTPUT_BETWEEN,
        Queues::PAIR,
        (2, 4),
        Some((RaceKind::Overtaken, 1, 0, true)),
    ),
    (
        OUTPUT_BETWEEN,
        Queues::PAIR,
        (3, 4),
        Some((RaceKind::Early, 3, 0, true)),
    ),
    (
        OUTPUT_BETWEEN,
        Queues::SINGLE,
        (3, 4),
        Some((RaceKind::Early, 3, 0, false)),
    ),
];

/// Why a pair of events of a chart is a race under an architecture, if it is one.
fn reason_in(
    rt: &impl Host,
    chart: &Chart,
    queues: Queues,
    pair: (Event, Event),
) -> Option<Expected> {
    let (e, f) = pair;
    let enforced = Enforced::of(rt.alloc(), chart, queues).expect(rt, "an order");
    if e >= enforced.events() || f >= enforced.events() {
        return None;
    }
    if !is_race(&enforced, e, f) {
        return None;
    }
    let cause = cause_of(&enforced, e, f);
    Some((cause.kind, cause.needed, cause.output, cause.always))
}

/// The same for a text's chart.
fn reason_of(
    rt: &impl Host,
    text: &[u8],
    queues: Queues,
    pair: (Event, Event),
) -> Option<Expected> {
    reason_in(rt, &chart_of(rt, text), queues, pair)
}

#[test]
fn reasons_of_races(rt: HostRuntime) {
    for &(text, queues, pair, wanted) in REASONS {
        let reason = reason_of(&rt, text, queues, pair);
        assert!(rt; reason == wanted, "{pair:?}, {queues:?}");
    }
}

/// All kinds of races, and their words.
const WORDS: &[(RaceKind, &str)] = &[
    (RaceKind::Early, "early"),
    (RaceKind::Queues, "queues"),
    (RaceKind::Unordered, "unordered"),
    (RaceKind::Overtaken, "overtaken"),
];

#[test]
fn words_of_kinds(rt: HostRuntime) {
    for &(kind, word) in WORDS {
        let is = kind.word() == word && RaceKind::of(word) == Some(kind);
        assert!(rt; is, "{word}");
    }
    assert!(rt; RaceKind::of("late").is_none());
}

/// Three messages from a to b, in their order.
const THREE: &[u8] = b"msc t; instance a; out m1 to b; out m2 to b; out m3 to b; endinstance; \
instance b; in m1 from a; in m2 from a; in m3 from a; endinstance; endmsc;";

/// Why an event is enforced before another: the input to which the rule of queues leads, if it is
/// needed; a chain, in that case of the outputs; and the chain from that input on.
type Shown<'a> = (Option<Event>, &'a [Event], &'a [Event]);

/// Charts, architectures, pairs of events, and why they are enforced, if they are.
const WHYS: &[(&[u8], Queues, (Event, Event), Option<Shown>)] = &[
    (RELAY, Queues::PAIR, (0, 5), Some((None, &[1, 4, 5], &[]))),
    (
        RELAY,
        Queues::MAILBOX,
        (2, 3),
        Some((Some(3), &[1, 4, 5], &[])),
    ),
    (RELAY, Queues::PAIR, (2, 3), None),
    (OVERTAKING, Queues::PAIR, (3, 2), Some((Some(2), &[1], &[]))),
    (OVERTAKING, Queues::SINGLE, (3, 2), None),
    (
        OUTPUT_BETWEEN,
        Queues::PAIR,
        (4, 3),
        Some((Some(2), &[1], &[3])),
    ),
    (
        OUTPUT_BETWEEN,
        Queues::MAILBOX,
        (4, 5),
        Some((Some(2), &[1], &[3, 5])),
    ),
    (
        LOCAL_EVENTS,
        Queues::PAIR,
        (0, 3),
        Some((None, &[1, 2, 3], &[])),
    ),
    // The last output that leads to the end is the next one of a chain.
    (THREE, Queues::PAIR, (0, 5), Some((None, &[2, 5], &[]))),
    (THREE, Queues::PAIR, (3, 5), Some((Some(5), &[2], &[]))),
    (THREE, Queues::SINGLE, (3, 5), None),
];

/// The data of a reason why an event is enforced before another.
fn shown(why: &Why) -> Shown<'_> {
    match why {
        Why::Straight(steps) => (None, steps.as_slice(), &[]),
        Why::ByQueue(u, outputs, rest) => (Some(*u), outputs.as_slice(), rest.as_slice()),
    }
}

/// The explanation of a pair of events of a chart under an architecture, if the chart has both and
/// they are two.
fn said_of(rt: &impl Host, chart: &Chart, queues: Queues, pair: (Event, Event)) -> Option<Reason> {
    let (e, f) = pair;
    let enforced = Enforced::of(rt.alloc(), chart, queues).expect(rt, "an order");
    if e >= enforced.events() || f >= enforced.events() || e == f {
        return None;
    }
    Some(explain(rt.alloc(), &enforced, e, f, false).expect(rt, "a reason"))
}

/// The same for a text's chart.
fn said(rt: &impl Host, text: &[u8], queues: Queues, pair: (Event, Event)) -> Option<Reason> {
    said_of(rt, &chart_of(rt, text), queues, pair)
}

/// Whether the explanation is that the pair is enforced for this reason or, if there is none, that
/// it is not enforced.
fn is_explained(said: &Option<Reason>, wanted: Option<Shown>) -> bool {
    match said {
        Some(Reason::Enforced(why)) => Some(shown(why)) == wanted,
        Some(Reason::Free(_, _, _)) => wanted.is_none(),
        None => false,
    }
}

/// Whether this explains a pair of events of a text's chart under an architecture.
fn explains(
    rt: &impl Host,
    text: &[u8],
    queues: Queues,
    pair: (Event, Event),
    wanted: Option<Shown>,
) -> bool {
    is_explained(&said(rt, text, queues, pair), wanted)
}

#[test]
fn reasons_of_enforced_pairs(rt: HostRuntime) {
    for &(text, queues, pair, wanted) in WHYS {
        let is = explains(&rt, text, queues, pair, wanted);
        assert!(rt; is, "{pair:?}, {queues:?}");
    }
}

/// A run that reverses a pair of events, the kind of the race if it is one, and why the second is
/// enforced before the first, if it is.
type Reversed<'a> = (&'a [Event], Option<RaceKind>, Option<Shown<'a>>);

/// Charts, architectures, pairs of events that are not enforced, and their explanations.
const FREE: &[(&[u8], Queues, (Event, Event), Reversed)] = &[
    (
        TWO_SENDERS,
        Queues::PAIR,
        (0, 3),
        (&[3, 2, 0, 1], None, None),
    ),
    (
        RELAY,
        Queues::PAIR,
        (2, 3),
        (&[0, 1, 4, 5, 3, 2], Some(RaceKind::Queues), None),
    ),
    (
        OVERTAKING,
        Queues::PAIR,
        (2, 3),
        (
            &[0, 1, 3, 2],
            Some(RaceKind::Overtaken),
            Some((Some(2), &[1], &[])),
        ),
    ),
];

/// The kind of what a race lacks, if there is one.
fn kind_of(cause: &Option<Cause>) -> Option<RaceKind> {
    match cause {
        Some(cause) => Some(cause.kind),
        None => None,
    }
}

/// The data of a reason, if there is one.
fn shown_if(why: &Option<Why>) -> Option<Shown<'_>> {
    match why {
        Some(why) => Some(shown(why)),
        None => None,
    }
}

/// Whether this is the explanation of a pair that is not enforced.
fn is_free(said: &Option<Reason>, wanted: Reversed) -> bool {
    match said {
        Some(Reason::Free(run, cause, late)) => {
            (run.as_slice(), kind_of(cause), shown_if(late)) == wanted
        }
        _ => false,
    }
}

/// Whether this explains a pair of events of a text's chart that is not enforced.
fn frees(
    rt: &impl Host,
    text: &[u8],
    queues: Queues,
    pair: (Event, Event),
    wanted: Reversed,
) -> bool {
    is_free(&said(rt, text, queues, pair), wanted)
}

#[test]
fn reasons_of_free_pairs(rt: HostRuntime) {
    for &(text, queues, pair, wanted) in FREE {
        let is = frees(&rt, text, queues, pair, wanted);
        assert!(rt; is, "{pair:?}, {queues:?}");
    }
}
