//! Marks: comments of statements on races; and the comment after a chart's name. The expected values were derived from the texts by hand,
//! with the section on marks in `docs/MODEL.md`.

use crate::charts::chart_of;
use crate::host::Host;
use msc_chart::{Event, Queues};
use msc_mark::{Accepted, MarkFault, Marks, chart_comment};
use msc_race::Enforced;

/// The text before the comment of event 5, and after it.
const BEFORE: &[u8] = b"msc handover; instance SGW; out END_MARKER to source; \
out DL_DATA to target; endinstance; instance source; in END_MARKER from SGW; \
out END_MARKER, 2 to target; endinstance; \
instance target; in END_MARKER, 2 from source; in DL_DATA from SGW comment ";

const BEHIND: &[u8] = b"; endinstance; endmsc;";

/// Comments of event 5, and the result of reading them: the number of marks, or a fault.
const COMMENTS: &[(&[u8], Result<usize, MarkFault>)] = &[
    (
        b"'race ok with END_MARKER, 2: the reorder buffer takes either'",
        Ok(1),
    ),
    (b"'race ok: x'", Ok(1)),
    (b"'race ok:x'", Ok(1)),
    (b"'race ok in pair: x'", Ok(1)),
    (
        b"'race ok in pair, mailbox, single with A; B, 2; action: x: y'",
        Ok(1),
    ),
    (b"'race ok: it''s'", Ok(1)),
    (b"'race OK: x'", Ok(0)),
    (b"' race ok: x'", Ok(0)),
    (b"'a race'", Ok(0)),
    (b"''", Ok(0)),
    (b"'race ok'", Err(MarkFault::Reason(AT))),
    (b"'race ok:'", Err(MarkFault::Reason(AT))),
    (b"'race ok: \t'", Err(MarkFault::Reason(AT))),
    (b"'race ok in pair with A, 2'", Err(MarkFault::Reason(AT))),
    (b"'race okay: x'", Err(MarkFault::Part(AT))),
    (b"'race ok '", Err(MarkFault::Part(AT))),
    (b"'race ok  in pair: x'", Err(MarkFault::Part(AT))),
    (b"'race ok in: x'", Err(MarkFault::Part(AT))),
    (b"'race ok in Pair: x'", Err(MarkFault::Part(AT))),
    (b"'race ok in pair,mailbox: x'", Err(MarkFault::Part(AT))),
    (b"'race ok in pair; mailbox: x'", Err(MarkFault::Part(AT))),
    (b"'race ok in pair,: x'", Err(MarkFault::Part(AT))),
    (b"'race ok with : x'", Err(MarkFault::Part(AT))),
    (b"'race ok with A;: x'", Err(MarkFault::Part(AT))),
    (b"'race ok with A, B, C: x'", Err(MarkFault::Part(AT))),
    (b"'race ok with A in pair: x'", Err(MarkFault::Part(AT))),
    (b"'race ok with a-b: x'", Err(MarkFault::Part(AT))),
    (b"'race ok with it''s: x'", Err(MarkFault::Part(AT))),
    (b"'race ok in pair in pair: x'", Err(MarkFault::Part(AT))),
];

/// The place of the apostrophe at which the comment begins.
const AT: usize = BEFORE.len();

/// The text with this comment.
fn with_comment(rt: &impl Host, comment: &[u8]) -> Vec<u8> {
    let mut text = Vec::from_slice(rt.alloc(), BEFORE).expect(rt, "memory");
    text.extend_from_slice(comment).expect(rt, "memory");
    text.extend_from_slice(BEHIND).expect(rt, "memory");
    text
}

/// The number of marks of a text, or its first fault.
fn marks_in(rt: &impl Host, text: &[u8]) -> Result<usize, MarkFault> {
    let marks = Marks::of(rt.alloc(), text)?;
    Ok(marks.as_slice().len())
}

/// The result of reading a comment of event 5.
fn read(rt: &impl Host, comment: &[u8]) -> Result<usize, MarkFault> {
    let text = with_comment(rt, comment);
    marks_in(rt, text.as_slice())
}

#[test]
fn comments_that_are_marks(rt: HostRuntime) {
    for &(comment, wanted) in COMMENTS {
        assert_eq!(rt; read(&rt, comment), wanted, "{comment:?}");
    }
}

/// Texts, and the results of reading their marks.
const TEXTS: &[(&[u8], Result<usize, MarkFault>)] = &[
    // Comments of other statements are no marks, and no faults.
    (
        b"msc t comment 'race ok'; inst a comment 'race ok'; instance a comment 'race ok'; \
concurrent comment 'race ok'; endconcurrent comment 'race ok'; \
endinstance comment 'race ok'; endmsc comment 'race ok';",
        Ok(0),
    ),
    // Those of events in coregions and of actions are.
    (
        b"msc t; instance a; concurrent; out m to b comment 'race ok: x'; action 'race ok' \
comment 'race ok in single: y'; endconcurrent; endinstance; \
instance b; in m from a; endinstance; endmsc;",
        Ok(2),
    ),
    // The first fault counts.
    (
        b"msc t; instance a; action 'a' comment 'race ok'; action 'b' comment 'race okay'; \
endinstance; endmsc;",
        Err(MarkFault::Reason(38)),
    ),
    // A text without tokens has none.
    (b"msc t; ?", Ok(0)),
];

#[test]
fn marks_of_texts(rt: HostRuntime) {
    for &(text, wanted) in TEXTS {
        assert_eq!(rt; marks_in(&rt, text), wanted, "{text:?}");
    }
}

/// The race of the handover is (4, 5). Comments of event 5, architectures, whether the race is
/// accepted, and the events whose marks are stale.
const ACCEPTED: &[(&[u8], Queues, bool, &[Event])] = &[
    (b"'race ok with END_MARKER, 2: x'", Queues::PAIR, true, &[]),
    (b"'race ok with END_MARKER: x'", Queues::PAIR, false, &[5]),
    (
        b"'race ok with A; END_MARKER, 2: x'",
        Queues::PAIR,
        true,
        &[],
    ),
    (
        b"'race ok with END_MARKER, 3: x'",
        Queues::PAIR,
        false,
        &[5],
    ),
    (b"'race ok with 2: x'", Queues::PAIR, false, &[5]),
    (b"'race ok with DL_DATA: x'", Queues::PAIR, false, &[5]),
    (b"'race ok: x'", Queues::MAILBOX, true, &[]),
    (b"'race ok in mailbox: x'", Queues::MAILBOX, true, &[]),
    (b"'race ok in mailbox: x'", Queues::PAIR, false, &[]),
    (b"'race ok in single, pair: x'", Queues::PAIR, true, &[]),
    (b"'END_MARKER, 2'", Queues::PAIR, false, &[]),
];

/// Whether marks accept the race (4, 5) of a text, and which of them are stale.
fn accepts(rt: &impl Host, text: &[u8], queues: Queues) -> (bool, Vec<Event>) {
    let chart = chart_of(rt, text);
    let marks = Marks::of(rt.alloc(), text).expect(rt, "marks");
    let accepted = Accepted::of(rt.alloc(), &marks, &chart, queues).expect(rt, "memory");
    let enforced = Enforced::of(rt.alloc(), &chart, queues).expect(rt, "an order");
    let stale = accepted.stale(rt.alloc(), &enforced).expect(rt, "memory");
    (chart.events() > 5 && accepted.has(4, 5), stale)
}

/// Whether the race is accepted, and these marks are stale, if event 5 has a comment.
fn are_accepted(rt: &impl Host, comment: &[u8], queues: Queues, is: bool, stale: &[Event]) -> bool {
    let text = with_comment(rt, comment);
    let (accepted, list) = accepts(rt, text.as_slice(), queues);
    accepted == is && list.as_slice() == stale
}

#[test]
fn races_that_are_accepted(rt: HostRuntime) {
    for &(comment, queues, is, stale) in ACCEPTED {
        assert!(rt;
            are_accepted(&rt, comment, queues, is, stale),
            "{comment:?} {queues:?}"
        );
    }
}

/// Texts, architectures, and the events whose marks are stale: an action has its word as its name,
/// and its mark counts as that of any event.
const STALE: &[(&[u8], Queues, &[Event])] = &[
    (
        b"msc t; instance a; action 'x' comment 'race ok with m: y'; in m from b; endinstance; \
instance b; out m to a comment 'race ok: z'; endinstance; endmsc;",
        Queues::PAIR,
        &[2],
    ),
    (
        b"msc t; instance a; action 'x'; in m from b comment 'race ok with action: y'; \
endinstance; instance b; out m to a; endinstance; endmsc;",
        Queues::PAIR,
        &[],
    ),
    (
        b"msc t; instance a; action 'x'; in m from b comment 'race ok with m: y'; endinstance; \
instance b; out m to a; endinstance; endmsc;",
        Queues::PAIR,
        &[1],
    ),
];

/// Whether these are the events whose marks are stale.
fn are_stale(rt: &impl Host, text: &[u8], queues: Queues, wanted: &[Event]) -> bool {
    let (_, list) = accepts(rt, text, queues);
    list.as_slice() == wanted
}

#[test]
fn marks_that_are_stale(rt: HostRuntime) {
    for &(text, queues, wanted) in STALE {
        assert!(rt; are_stale(&rt, text, queues, wanted), "{text:?}");
    }
}

/// Charts, and the place and the bytes of the comment after the name.
const AFTER_NAMES: &[(&[u8], Option<(usize, &[u8])>)] = &[
    (b"msc t; endmsc;", None),
    (
        b"msc t comment 'queues pair'; endmsc;",
        Some((14, b"queues pair")),
    ),
    (
        b"msc t /* x */ comment /* y */ 'it''s'; endmsc;",
        Some((30, b"it''s")),
    ),
    (b"msc t; instance a comment 'x'; endinstance; endmsc;", None),
];

/// Whether the comment after the name of a chart is this.
fn is_after_name(rt: &impl Host, text: &[u8], wanted: Option<(usize, &[u8])>) -> bool {
    let found = chart_comment(rt.alloc(), text).expect(rt, "memory");
    match (found, wanted) {
        (None, None) => true,
        (Some(comment), Some((at, bytes))) => comment.at == at && comment.bytes == bytes,
        _ => false,
    }
}

#[test]
fn comments_after_names(rt: HostRuntime) {
    for &(text, wanted) in AFTER_NAMES {
        assert!(rt; is_after_name(&rt, text, wanted), "{text:?}");
    }
}
