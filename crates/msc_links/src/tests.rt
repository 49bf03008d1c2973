//! Rules and comments, and what they give.

ghost use Rattle.std.specs.Prelude.{◌<◌};

use crate::{
    LineNames, LinkFault, OwnFault, Rule, RulesFault, own_queues, own_queues_of_chart, own_said,
    queues_of,
};
use msc_chart::{INSTANCE_LIMIT, LinkKind};
use std::alloc::AllocGlobal;

/// A rule.
fn rule(kind: LinkKind, link: &'static [u8]) -> Rule<'static> {
    Rule { kind, link }
}

/// Lines with names of which some are the same.
const NAMES: &[LineNames<'static>] = &[
    LineNames {
        own: b"A",
        shown: b"Web server",
        made: b"web_server",
    },
    LineNames {
        own: b"B",
        shown: b"A",
        made: b"b",
    },
    LineNames {
        own: b"C",
        shown: b"b",
        made: b"c",
    },
];

/// The kind of a link, if the rules have no fault.
fn kind(text: &[Rule<'static>], given: &[Rule<'static>], s: u32, r: u32) -> Option<LinkKind>
    requires sender { s < INSTANCE_LIMIT }
    requires receiver { r < INSTANCE_LIMIT }
{
    match queues_of(LinkKind::Pair, text, given, NAMES) {
        Ok(queues) => Some(queues.kind(s, r)),
        Err(_) => None,
    }
}

/// The fault of the rules.
fn fault(text: &[Rule<'static>], given: &[Rule<'static>]) -> Option<RulesFault<'static>> {
    match queues_of(LinkKind::Pair, text, given, NAMES) {
        Ok(_) => None,
        Err(fault) => Some(fault),
    }
}

const S: LinkKind = LinkKind::Single;

const M: LinkKind = LinkKind::Mailbox;

const P: LinkKind = LinkKind::Pair;

#[test]
fn rules(rt: HostRuntime) {
    assert_eq!(rt; kind(&[], &[], 0, 1), Some(P));
    assert_eq!(rt; kind(&[rule(M, b" A ")], &[], 1, 0), Some(M));
    assert_eq!(rt; kind(&[rule(M, b"A")], &[], 0, 1), Some(P));
    assert_eq!(rt;
        kind(&[rule(M, b"A"), rule(S, b"B > A")], &[], 1, 0),
        Some(S)
    );
    assert_eq!(rt;
        kind(&[rule(S, b"B>\tWeb server"), rule(M, b"A")], &[], 1, 0),
        Some(S)
    );
    assert_eq!(rt; kind(&[rule(S, b"b>web_server")], &[], 2, 0), Some(S));
    assert_eq!(rt; kind(&[rule(S, b"b>web_server")], &[], 1, 0), Some(P));
    assert_eq!(rt; kind(&[rule(S, b"A")], &[rule(M, b"A")], 1, 0), Some(M));
    assert_eq!(rt; kind(&[rule(S, b"B>A")], &[rule(M, b"A")], 1, 0), Some(S));
    assert_eq!(rt; kind(&[rule(S, b"B>A")], &[rule(M, b"B>A")], 1, 0), Some(M));
    assert_eq!(rt;
        fault(&[rule(S, b" >A")], &[]),
        Some(RulesFault::Text(LinkFault::NoLink(b">A")))
    );
    assert_eq!(rt;
        fault(&[rule(S, b"A>B>C ")], &[]),
        Some(RulesFault::Text(LinkFault::NoLink(b"A>B>C")))
    );
    assert_eq!(rt;
        fault(&[rule(S, b"\t ")], &[]),
        Some(RulesFault::Text(LinkFault::NoLink(b"")))
    );
    assert_eq!(rt;
        fault(&[], &[rule(S, b"X>Y")]),
        Some(RulesFault::Given(LinkFault::NoInstance(b"X")))
    );
    assert_eq!(rt;
        fault(&[], &[rule(S, b"A> y z")]),
        Some(RulesFault::Given(LinkFault::NoInstance(b"y z")))
    );
    assert_eq!(rt;
        fault(&[], &[rule(S, b"A"), rule(M, b" Web server")]),
        Some(RulesFault::Given(LinkFault::TwoKinds(b"Web server")))
    );
    assert_eq!(rt;
        fault(
            &[rule(S, b"A"), rule(S, b"A"), rule(M, b"A>A")],
            &[rule(M, b"A")]
        ),
        None
    );
}

/// The kind, and the numbers of rules and names.
fn read(
    rt: &impl AllocGlobal,
    comment: &'static [u8],
) -> Result<Option<(LinkKind, usize, usize)>, OwnFault> {
    match own_queues(rt.alloc(), comment) {
        Ok(Some(own)) => Ok(Some((own.usual, own.rules.len(), own.serves.len()))),
        Ok(None) => Ok(None),
        Err(fault) => Err(fault),
    }
}

/// Comments, and what they say.
const WANTED: &[(&[u8], Result<Option<(LinkKind, usize, usize)>, OwnFault>)] = &[
    (b"queues pair", Ok(Some((LinkKind::Pair, 0, 0)))),
    (
        b"queues  mailbox ; single a>b, b > a;serves c , d; pair e",
        Ok(Some((LinkKind::Mailbox, 3, 2))),
    ),
    (b"queues are per connection", Ok(None)),
    (b"queues are; pair", Ok(None)),
    (b"queue pair", Ok(None)),
    (b"queues ", Ok(None)),
    (b"", Ok(None)),
    (b"queues pair x", Ok(None)),
    (b"queues Pair", Err(OwnFault::Expected)),
    (b"queues mailboxes; single a", Err(OwnFault::Expected)),
    (b"queues pair;", Err(OwnFault::Expected)),
    (b"queues pair; mailbox", Err(OwnFault::Expected)),
    (b"queues pair; mailbox a,", Err(OwnFault::Expected)),
    (b"queues pair; Mailbox a", Err(OwnFault::Expected)),
    (b"queues pair; serves", Err(OwnFault::Expected)),
];

#[test]
fn comments(rt: HostRuntime) {
    for &(comment, wanted) in WANTED {
        assert_eq!(rt; read(&rt, comment), wanted, "{comment:?}");
    }
}

/// The names of the lines of a diagram.
const LINES: &[LineNames<'static>] = &[
    LineNames {
        own: b"cell",
        shown: b"radio cell",
        made: b"radio_cell",
    },
    LineNames {
        own: b"bs",
        shown: b"base station",
        made: b"base_station",
    },
    LineNames {
        own: b"W",
        shown: b"Job Worker",
        made: b"W",
    },
];

/// What is said of the rules of a comment, if it has some without a fault.
fn said(rt: &impl AllocGlobal, comment: &'static [u8]) -> Result<Option<Vec<u8>>, OwnFault> {
    match own_queues(rt.alloc(), comment)? {
        Some(own) => Ok(own_said(rt.alloc(), &own, LINES)?),
        None => Ok(None),
    }
}

/// Whether this is said of the rules of a comment, or nothing.
fn is_said(rt: &impl AllocGlobal, comment: &'static [u8], wanted: Option<&[u8]>) -> bool {
    match (said(rt, comment), wanted) {
        (Ok(Some(text)), Some(wanted)) => text.as_slice() == wanted,
        (Ok(None), None) => true,
        _ => false,
    }
}

/// Comments, and what is said of their rules.
const SAID: &[(&[u8], Option<&[u8]>)] = &[
    (
        b"queues pair; single radio cell > base station; mailbox Job Worker, base station; \
serves Job Worker",
        Some(b"queues pair; mailbox W, base_station; single radio_cell>base_station"),
    ),
    (b"queues  mailbox ", Some(b"queues mailbox")),
    (
        b"queues single; pair W; single cell; pair bs>W,Job Worker , bs",
        Some(b"queues single; pair W, base_station>W, base_station; single radio_cell"),
    ),
    (b"queues single; pair W; mailbox Job Worker", None),
    (b"queues single; pair X", None),
];

#[test]
fn rules_that_are_said(rt: HostRuntime) {
    for &(comment, wanted) in SAID {
        assert!(rt; is_said(&rt, comment, wanted), "{comment:?}");
    }
}

/// The kind, and the number of rules, that a comment of a chart gives.
fn read_in_chart(
    rt: &impl AllocGlobal,
    comment: &'static [u8],
) -> Result<Option<(LinkKind, usize)>, OwnFault> {
    match own_queues_of_chart(rt.alloc(), comment) {
        Ok(Some(own)) => Ok(Some((own.usual, own.rules.len()))),
        Ok(None) => Ok(None),
        Err(fault) => Err(fault),
    }
}

/// Comments of charts, and what they say.
const IN_CHARTS: &[(&[u8], Result<Option<(LinkKind, usize)>, OwnFault>)] = &[
    (b"queues pair; single A>B", Ok(Some((LinkKind::Pair, 1)))),
    (b"queues are many; serves A", Ok(None)),
    (b"queues pair; serves A", Err(OwnFault::Expected)),
    (b"queues pair; serves", Err(OwnFault::Expected)),
    (b"queues pairs", Err(OwnFault::Expected)),
];

#[test]
fn comments_of_charts(rt: HostRuntime) {
    for &(comment, wanted) in IN_CHARTS {
        assert_eq!(rt; read_in_chart(&rt, comment), wanted, "{comment:?}");
    }
}
