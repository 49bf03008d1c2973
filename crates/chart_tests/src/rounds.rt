//! Two rounds of a chart: the numbers and the data of its events, and charts that are too long.

use crate::charts::{Part, chart_of, text_of};
use crate::host::Host;
use example_charts::COREGION;
use msc_chart::{Chart, Event, RoundNumbers, UnrollFault};

/// For each event of two rounds of a chart, its event in the chart, its round, its partner, and its
/// segment.
type Told = (Event, u32, Event, u32);

/// An instance with an action above its output, and one with an action below its input.
const ACTIONS: &[u8] = b"msc t; instance a; action 'go'; out m to b; endinstance; \
instance b; in m from a; action 'done'; endinstance; endmsc;";

/// Charts, and the data for the events of two rounds of them. `COREGION` has the input of each of
/// two messages in a coregion, between the lines of their outputs.
const ROUNDS: &[(&[u8], &[Told])] = &[
    (
        ACTIONS,
        &[
            (0, 0, 0, 0),
            (1, 0, 4, 1),
            (0, 1, 2, 2),
            (1, 1, 6, 3),
            (2, 0, 1, 0),
            (3, 0, 5, 1),
            (2, 1, 3, 2),
            (3, 1, 7, 3),
        ],
    ),
    (
        COREGION,
        &[
            (0, 0, 2, 0),
            (0, 1, 4, 1),
            (1, 0, 0, 0),
            (2, 0, 6, 0),
            (1, 1, 1, 1),
            (2, 1, 7, 1),
            (3, 0, 3, 0),
            (3, 1, 5, 1),
        ],
    ),
];

/// Whether event `k` of these two rounds of a chart has these data, and the text that its event has
/// in the chart.
fn is_told(rt: &impl Host, chart: &Chart, rounds: &Chart, k: Event, told: Told) -> bool {
    let (e, round, partner, segment) = told;
    if k >= rounds.events() || k >= 2 * chart.events() {
        return false;
    }
    let numbers = RoundNumbers::of(rt.alloc(), chart).expect(rt, "memory");
    let place = numbers.place(k);
    place == (e, round)
        && numbers.number(place.0, place.1) == k
        && rounds.segment(k) == segment
        && rounds.other_end(k) == partner
        && rounds.label(k) == chart.label(place.0)
}

/// Whether these are the data for the events of two rounds of a chart.
fn are_told(rt: &impl Host, text: &[u8], told: &[Told]) -> bool {
    let chart = chart_of(rt, text);
    let rounds = chart.two_rounds(rt.alloc()).expect(rt, "two rounds");
    if told.len() != rounds.events() as usize {
        return false;
    }
    for (k, it) in told.iter().enumerate() {
        if !is_told(rt, &chart, &rounds, k as u32, *it) {
            return false;
        }
    }
    true
}

#[test]
fn the_events_of_two_rounds(rt: HostRuntime) {
    for &(text, told) in ROUNDS {
        assert!(rt; are_told(&rt, text, told), "{text:?}");
    }
}

/// The beginning of a text, with its first section.
const FIRST: &str = "msc t; instance a;";

/// The beginning of a second section.
const SECOND: &str = "endinstance; instance b;";

/// The end of a text.
const END: Part = ("endinstance; endmsc;", 0, "", "");

/// Charts at the limit for two rounds, and charts that are too long. Messages count first.
const LONG: &[(&[Part], Option<UnrollFault>)] = &[
    (
        &[
            (FIRST, 512, "out m", " to b;"),
            ("", 512, "action '", "';"),
            (SECOND, 512, "in m", " from a;"),
            END,
        ],
        None,
    ),
    (
        &[
            (FIRST, 513, "out m", " to b;"),
            ("", 513, "action '", "';"),
            (SECOND, 513, "in m", " from a;"),
            END,
        ],
        Some(UnrollFault::TooManyMessages),
    ),
    (
        &[(FIRST, 513, "action '", "';"), END],
        Some(UnrollFault::TooManyActions),
    ),
];

/// Whether two rounds of the chart of these parts are a chart, or have this fault.
fn is_long(rt: &impl Host, parts: &[Part], wanted: Option<UnrollFault>) -> bool {
    let chart = chart_of(rt, text_of(rt, parts).as_bytes());
    chart.two_rounds(rt.alloc()).err() == wanted
}

#[test]
fn charts_that_are_too_long_for_two_rounds(rt: HostRuntime) {
    for &(parts, wanted) in LONG {
        assert!(rt; is_long(&rt, parts, wanted), "{wanted:?}");
    }
}
