//! Charts of drafts: numbers, segments, queues, labels, and drafts that are no chart.

use crate::drafts::draft_of;
use crate::host::Host;
use example_charts::{COREGION, EMPTY, LOCAL_EVENTS, NUMBERED, RELAY, TWO_SENDERS};
use msc_chart::{Chart, ChartFault, Event, EventKind, LinkKind, Links, Queues};
use msc_parser::parse;
use std::fmt::Write;

/// The chart of a text that has one.
pub(crate) fn chart_of(rt: &impl Host, text: &[u8]) -> Chart {
    Chart::build(rt.alloc(), &draft_of(rt, text)).expect(rt, "a chart")
}

/// Whether a text has a draft with this fault or, without a fault, a draft whose chart is built.
fn has_fault(rt: &impl Host, text: &[u8], wanted: Option<ChartFault>) -> bool {
    match parse(rt.alloc(), text) {
        Ok(draft) => Chart::build(rt.alloc(), &draft).err() == wanted,
        Err(_) => false,
    }
}

/// Texts, and the faults of their drafts, or none if they are charts.
const DRAFTS: &[(&[u8], Option<ChartFault>)] = &[
    (
        b"msc t; inst a; endmsc;",
        Some(ChartFault::HeaderWithoutBody(0)),
    ),
    (
        b"msc t; inst z; instance a; out m to c; endinstance; endmsc;",
        Some(ChartFault::HeaderWithoutBody(0)),
    ),
    (
        b"msc t; instance a; endinstance; instance a; endinstance; endmsc;",
        Some(ChartFault::TwiceInstance(1)),
    ),
    (
        b"msc t; instance a; out m to c; endinstance; endmsc;",
        Some(ChartFault::UnknownAddress(0)),
    ),
    (
        b"msc t; instance a; out m to b; out m to b; endinstance; \
instance b; in m from a; in m from a; endinstance; endmsc;",
        Some(ChartFault::TwiceEvent(1)),
    ),
    (
        b"msc t; instance a; out m to b; endinstance; instance b; endinstance; endmsc;",
        Some(ChartFault::UnmatchedOut(0)),
    ),
    (
        b"msc t; instance a; endinstance; instance b; in m from a; endinstance; endmsc;",
        Some(ChartFault::UnmatchedIn(0)),
    ),
    (
        b"msc t; instance a; in m from a; out m to a; endinstance; endmsc;",
        Some(ChartFault::Cyclic(0)),
    ),
    (
        b"msc t; instance a; out m to a; in m from a; endinstance; endmsc;",
        None,
    ),
    (EMPTY, None),
    (NUMBERED, None),
    (TWO_SENDERS, None),
    (COREGION, None),
    (RELAY, None),
    (LOCAL_EVENTS, None),
];

#[test]
fn drafts_and_their_faults(rt: HostRuntime) {
    for &(text, wanted) in DRAFTS {
        assert!(rt; has_fault(&rt, text, wanted), "{text:?}");
    }
}

/// A part of a text: a beginning, and after it a number of statements, each of which has its
/// number, from 0, between these two strings.
pub(crate) type Part = (&'static str, u32, &'static str, &'static str);

/// Adds a part to a text.
fn add_part(rt: &impl Host, text: &mut String, part: Part) {
    let (head, count, before, after) = part;
    text.push_str(head).expect(rt, "memory");
    for k in 0..count {
        write!(text, "{before}{k}{after}").expect(rt, "memory");
    }
}

/// The text of these parts.
pub(crate) fn text_of(rt: &impl Host, parts: &[Part]) -> String {
    let mut text = String::new(rt.alloc());
    for part in parts {
        add_part(rt, &mut text, *part);
    }
    text
}

/// Whether the draft of the text of these parts has this fault, or none.
fn is_limit(rt: &impl Host, parts: &[Part], wanted: Option<ChartFault>) -> bool {
    let text = text_of(rt, parts);
    has_fault(rt, text.as_bytes(), wanted)
}

/// The beginning of a text, with its first section.
const FIRST: &str = "msc t; instance a;";

/// The beginning of a second section.
const SECOND: &str = "endinstance; instance b;";

/// The end of a text.
const END: Part = ("endinstance; endmsc;", 0, "", "");

/// Charts as large as they may be, and drafts that are too large.
const LIMITS: &[(&[Part], Option<ChartFault>)] = &[
    (
        &[
            ("msc t;", 31, "instance i", "; endinstance;"),
            ("instance a;", 0, "", ""),
            END,
        ],
        None,
    ),
    (
        &[
            ("msc t;", 32, "instance i", "; endinstance;"),
            ("instance a;", 0, "", ""),
            END,
        ],
        Some(ChartFault::TooManyInstances),
    ),
    (
        &[
            (FIRST, 1_024, "out m", " to b;"),
            (SECOND, 1_024, "in m", " from a;"),
            END,
        ],
        None,
    ),
    (
        &[
            (FIRST, 1_025, "out m", " to b;"),
            (SECOND, 1_025, "in m", " from a;"),
            END,
        ],
        Some(ChartFault::TooManyMessages),
    ),
    (
        &[(FIRST, 1_025, "out m", " to b;"), (SECOND, 0, "", ""), END],
        Some(ChartFault::TooManyMessages),
    ),
    (&[(FIRST, 1_024, "action '", "';"), END], None),
    (
        &[(FIRST, 1_025, "action '", "';"), END],
        Some(ChartFault::TooManyActions),
    ),
];

#[test]
fn the_limits_of_charts(rt: HostRuntime) {
    for &(parts, wanted) in LIMITS {
        assert!(rt; is_limit(&rt, parts, wanted), "{wanted:?}");
    }
}

/// The number of events of a chart, the segments of two of them, and whether the first is drawn
/// before the second.
type Drawn = (u32, u32, u32, bool);

/// These data for two events of a chart, if it has them.
fn drawn(chart: &Chart, e: Event, f: Event) -> Option<Drawn> {
    let events = chart.events();
    if e >= events || f >= events {
        return None;
    }
    let segments = (chart.segment(e), chart.segment(f));
    Some((events, segments.0, segments.1, chart.before(e, f)))
}

/// Whether these are the data for two events of a text's chart.
fn is_drawn(rt: &impl Host, text: &[u8], e: Event, f: Event, wanted: Drawn) -> bool {
    drawn(&chart_of(rt, text), e, f) == Some(wanted)
}

/// A chart with a coregion without events between two events.
const EMPTY_COREGION: &[u8] = b"msc t; instance a; out m to a; concurrent; endconcurrent; \
in m from a; endinstance; endmsc;";

/// Texts, two events, and the data for them.
const DRAWN: &[(&[u8], Event, Event, Drawn)] = &[
    (COREGION, 1, 2, (4, 0, 0, false)),
    (TWO_SENDERS, 1, 2, (4, 0, 1, true)),
    (EMPTY_COREGION, 0, 1, (2, 0, 1, true)),
    (LOCAL_EVENTS, 2, 3, (4, 0, 1, true)),
];

#[test]
fn segments_and_what_is_drawn_before(rt: HostRuntime) {
    for &(text, e, f, wanted) in DRAWN {
        let is = is_drawn(&rt, text, e, f, wanted);
        assert!(rt; is, "({e}, {f}): {text:?}");
    }
}

/// Whether a chart has these names: its own, that of its last instance, and that of its second
/// message, which has no message instance name.
fn has_names(chart: &Chart, [name, instance, message]: [&[u8]; 3]) -> bool {
    if chart.instances() != 3 || chart.messages() != 3 || chart.name() != name {
        return false;
    }
    let of_message = chart.message_number(1).is_none() && chart.message_name(1) == message;
    of_message && chart.instance_name(2) == instance
}

/// Whether the chart of a text has these names.
fn is_named(rt: &impl Host, text: &[u8], names: [&[u8]; 3]) -> bool {
    has_names(&chart_of(rt, text), names)
}

#[test]
fn names_of_relay(rt: HostRuntime) {
    assert!(rt; is_named(&rt, RELAY, [b"t", b"c", b"x"]));
}

/// The line of an instance of a chart, if it has the instance.
fn line(chart: &Chart, i: u32) -> Option<(Event, Event)> {
    if i >= chart.instances() {
        return None;
    }
    Some(chart.line(i))
}

/// Whether a text's chart has an instance of this number with this line or, if there is no line, no
/// such instance.
fn is_line(rt: &impl Host, text: &[u8], i: u32, wanted: Option<(Event, Event)>) -> bool {
    line(&chart_of(rt, text), i) == wanted
}

/// The instances of `relay` and their lines, and the number past the last instance.
const LINES: &[(u32, Option<(Event, Event)>)] = &[
    (0, Some((0, 2))),
    (1, Some((2, 4))),
    (2, Some((4, 6))),
    (3, None),
];

#[test]
fn lines_of_relay(rt: HostRuntime) {
    for &(i, wanted) in LINES {
        assert!(rt; is_line(&rt, RELAY, i, wanted), "{i}");
    }
}

/// The instance, the kind, the partner and the message of an event.
type Shown = (u32, EventKind, Option<Event>, Option<u32>);

/// These data for an event of a chart, if it has the event.
fn shown(chart: &Chart, e: Event) -> Option<Shown> {
    if e >= chart.events() {
        return None;
    }
    let ends = (chart.partner(e), chart.message(e));
    Some((chart.instance_of(e), chart.kind(e), ends.0, ends.1))
}

/// Whether a text's chart has an event with these data.
fn is_event(rt: &impl Host, text: &[u8], e: Event, wanted: Shown) -> bool {
    shown(&chart_of(rt, text), e) == Some(wanted)
}

/// Texts, an event, and the data for it.
const EVENTS: &[(&[u8], Event, Shown)] = &[
    (RELAY, 1, (0, EventKind::Output, Some(4), Some(1))),
    (RELAY, 2, (1, EventKind::Input, Some(0), Some(0))),
    (RELAY, 3, (1, EventKind::Input, Some(5), Some(2))),
    (RELAY, 5, (2, EventKind::Output, Some(3), Some(2))),
    (LOCAL_EVENTS, 2, (1, EventKind::Input, Some(1), Some(0))),
    (LOCAL_EVENTS, 3, (1, EventKind::Local, None, None)),
];

#[test]
fn events_of_charts(rt: HostRuntime) {
    for &(text, e, wanted) in EVENTS {
        assert!(rt; is_event(&rt, text, e, wanted), "{e}: {text:?}");
    }
}

/// Whether an event of a chart has this label.
fn has_label(chart: &Chart, e: Event, label: Option<&[u8]>) -> bool {
    e < chart.events() && chart.label(e) == label
}

/// Whether an event of a text's chart has this label.
fn is_label(rt: &impl Host, text: &[u8], e: Event, label: Option<&[u8]>) -> bool {
    has_label(&chart_of(rt, text), e, label)
}

/// A chart with actions: one with apostrophes, one without a text.
const QUOTED: &[u8] = b"msc t; instance a; action 'it''s'; out m to a; action ''; in m from a; \
endinstance; endmsc;";

/// Texts, an event, and its label.
const LABELS: &[(&[u8], Event, Option<&[u8]>)] = &[
    (LOCAL_EVENTS, 0, Some(b"go")),
    (LOCAL_EVENTS, 2, None),
    (LOCAL_EVENTS, 3, Some(b"done")),
    (QUOTED, 0, Some(b"it's")),
    (QUOTED, 2, Some(b"")),
];

#[test]
fn labels_of_local_events(rt: HostRuntime) {
    for &(text, e, wanted) in LABELS {
        assert!(rt; is_label(&rt, text, e, wanted), "{e}: {text:?}");
    }
}

/// The output, the input, the sender and the receiver of a message, and its queue under each
/// architecture.
type Sent = ((Event, Event, u32, u32), [u32; 3]);

/// These data for a message of a chart, if it has the message.
fn sent(chart: &Chart, m: u32) -> Option<Sent> {
    if m >= chart.messages() {
        return None;
    }
    let ends = (chart.output_of(m), chart.input_of(m));
    let pair = chart.queue(m, Queues::PAIR);
    let mailbox = chart.queue(m, Queues::MAILBOX);
    let queues = [pair, mailbox, chart.queue(m, Queues::SINGLE)];
    Some(((ends.0, ends.1, chart.sender(m), chart.receiver(m)), queues))
}

/// Whether a message of a text's chart has these data.
fn is_sent(rt: &impl Host, text: &[u8], m: u32, wanted: Option<Sent>) -> bool {
    sent(&chart_of(rt, text), m) == wanted
}

/// The messages of `relay`, and the number past the last one.
const SENT: &[(u32, Option<Sent>)] = &[
    (0, Some(((0, 2, 0, 1), [1, 1, 0]))),
    (1, Some(((1, 4, 0, 2), [2, 2, 1]))),
    (2, Some(((5, 3, 2, 1), [7, 1, 2]))),
    (3, None),
];

#[test]
fn messages_of_relay_and_their_queues(rt: HostRuntime) {
    for &(m, wanted) in SENT {
        assert!(rt; is_sent(&rt, RELAY, m, wanted), "{m}");
    }
}

/// An architecture of `relay`: a sends datagrams to c, b has a mailbox for the messages of c, and
/// all other links have a queue.
fn relayed() -> Queues {
    let mut links = Links::all(LinkKind::Pair);
    links.give(0, 2, LinkKind::Single);
    links.give(2, 1, LinkKind::Mailbox);
    Queues::Mixed(links)
}

/// Whether the queue of a message of `relay` has this number then.
fn is_relayed(rt: &impl Host, m: u32, wanted: u32) -> bool {
    let chart = chart_of(rt, RELAY);
    m < chart.messages() && chart.queue(m, relayed()) == wanted
}

#[test]
fn queues_of_links_that_differ(rt: HostRuntime) {
    for (m, wanted) in [(0, 1), (1, 13), (2, 10)] {
        assert!(rt; is_relayed(&rt, m, wanted), "{m}");
    }
}
