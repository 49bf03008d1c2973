//! Closest races. The expected values were derived from the charts by hand, with the definitions in
//! `docs/MODEL.md`.

use crate::charts::{Part, chart_of, text_of};
use crate::host::Host;
use example_charts::{
    BELOW_COREGION, CROSSING, OVERTAKING, RELAY, TWO_MAILBOXES, TWO_SENDERS, WAITS,
};
use msc_chart::{Chart, Event, Queues};
use msc_race::Enforced;
use msc_reason::{KindSet, LeftOut, Listing, Pairs, Stream};

/// An output between two inputs of one queue that are taken in the other order than they are sent:
/// the later input always comes first, and before the output.
pub(crate) const OUTPUT_BETWEEN: &[u8] =
    b"msc t; instance a; out m1 to b; out m2 to b; endinstance; \
instance b; in m2 from a; out k to c; in m1 from a; endinstance; \
instance c; in k from b; endinstance; endmsc;";

/// Charts, architectures, and the closest races.
const CLOSEST: &[(&[u8], Queues, &[(Event, Event)])] = &[
    (TWO_SENDERS, Queues::PAIR, &[(1, 2)]),
    (RELAY, Queues::MAILBOX, &[]),
    (OVERTAKING, Queues::SINGLE, &[(2, 3)]),
    (CROSSING, Queues::PAIR, &[(0, 1), (2, 3)]),
    (WAITS, Queues::PAIR, &[(1, 2)]),
    (TWO_MAILBOXES, Queues::MAILBOX, &[(4, 5), (6, 7)]),
    // The events of a coregion are adjacent to the events drawn above it and below it.
    (
        BELOW_COREGION,
        Queues::PAIR,
        &[(1, 2), (1, 3), (2, 4), (3, 4)],
    ),
    // The race (2, 4) spans (3, 4).
    (OUTPUT_BETWEEN, Queues::PAIR, &[(3, 4)]),
    (OUTPUT_BETWEEN, Queues::SINGLE, &[(3, 4)]),
];

/// The races of a listing, event by event.
fn listed(rt: &impl Host, listing: &Listing) -> Vec<(Event, Event)> {
    let mut list = Vec::new(rt.alloc());
    let mut stream = Stream::new(rt.alloc());
    for e in 0..listing.events() {
        listing.next(&mut stream, e).expect(rt, "races");
        list.extend_from_slice(stream.races.as_slice())
            .expect(rt, "memory");
    }
    list
}

/// The closest races of a chart that are not left out.
fn near_without(rt: &impl Host, enforced: Enforced, left_out: LeftOut) -> Vec<(Event, Event)> {
    let listing = Listing::of(rt.alloc(), enforced, left_out, true).expect(rt, "memory");
    listed(rt, &listing)
}

/// The closest races of a chart, whatever their kinds.
fn near_of(rt: &impl Host, enforced: Enforced) -> Vec<(Event, Event)> {
    near_without(rt, enforced, LeftOut::of_kinds(KindSet::NONE))
}

/// Whether these are the closest races of a chart under an architecture.
fn are_near(rt: &impl Host, chart: &Chart, queues: Queues, wanted: &[(Event, Event)]) -> bool {
    let enforced = Enforced::of(rt.alloc(), chart, queues).expect(rt, "an order");
    near_of(rt, enforced).as_slice() == wanted
}

/// The same for a text's chart.
fn are_closest(rt: &impl Host, text: &[u8], queues: Queues, wanted: &[(Event, Event)]) -> bool {
    are_near(rt, &chart_of(rt, text), queues, wanted)
}

#[test]
fn closest_races(rt: HostRuntime) {
    for &(text, queues, wanted) in CLOSEST {
        let are = are_closest(&rt, text, queues, wanted);
        assert!(rt; are, "{wanted:?}, {queues:?}");
    }
}

/// Texts with as many messages from each of two senders, drawn one stream below the other; the
/// number of races of their charts, and the one closest race.
const STREAMS: &[(&[Part], u32, (Event, Event))] = &[
    (
        &[
            ("msc t;instance a;", 20, "out m", " to b;"),
            ("endinstance;instance b;", 20, "in m", " from a;"),
            ("", 20, "in n", " from c;"),
            ("endinstance;instance c;", 20, "out n", " to b;"),
            ("endinstance;endmsc;", 0, "", ""),
        ],
        400,
        (39, 40),
    ),
    (
        &[
            ("msc t;instance a;", 512, "out m", " to b;"),
            ("endinstance;instance b;", 512, "in m", " from a;"),
            ("", 512, "in n", " from c;"),
            ("endinstance;instance c;", 512, "out n", " to b;"),
            ("endinstance;endmsc;", 0, "", ""),
        ],
        262_144,
        (1_023, 1_024),
    ),
];

/// The number of races, the number of closest races, and the first of these.
type Counted = (u32, usize, Option<(Event, Event)>);

/// The number of races and of closest races of a chart, and the first of these.
fn counted(rt: &impl Host, chart: &Chart) -> Counted {
    let enforced = Enforced::of(rt.alloc(), chart, Queues::PAIR).expect(rt, "an order");
    let all = enforced.count_races();
    let near = near_of(rt, enforced);
    (all, near.len(), near.first().copied())
}

/// The same for the chart of a text of these parts.
fn of_streams(rt: &impl Host, parts: &[Part]) -> Counted {
    let text = text_of(rt, parts);
    counted(rt, &chart_of(rt, text.as_bytes()))
}

#[test]
fn two_streams_have_one_closest_race(rt: HostRuntime) {
    for &(parts, all, pair) in STREAMS {
        let is = of_streams(&rt, parts) == (all, 1, Some(pair));
        assert!(rt; is, "{all} races");
    }
}

/// The pair (3, 4) of the six events of `OUTPUT_BETWEEN`, as an accepted pair.
fn one_accepted(rt: &impl Host) -> Pairs {
    let mut pairs = Pairs::none(rt.alloc(), 6).expect(rt, "memory");
    pairs.put(3, 4);
    pairs
}

/// The closest races of that chart without the accepted one.
fn beside_the_accepted(rt: &impl Host) -> Vec<(Event, Event)> {
    let chart = chart_of(rt, OUTPUT_BETWEEN);
    let enforced = Enforced::of(rt.alloc(), &chart, Queues::PAIR).expect(rt, "an order");
    let pairs = one_accepted(rt);
    let left_out = LeftOut {
        kinds: KindSet::NONE,
        accepted: Some(&pairs),
    };
    near_without(rt, enforced, left_out)
}

// (2, 4) spans it, and is a closest race once the pair does not count.
#[test]
fn closest_races_beside_an_accepted_one(rt: HostRuntime) {
    assert_eq!(rt; beside_the_accepted(&rt).as_slice(), [(2, 4)].as_slice());
}
