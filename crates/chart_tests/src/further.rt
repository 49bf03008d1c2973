//! All faults of a draft, and the further ones after the first.

use crate::host::Host;
use msc_chart::ChartFault::{
    Cyclic, HeaderWithoutBody, TwiceEvent, TwiceInstance, UnknownAddress, UnmatchedIn, UnmatchedOut,
};
use msc_chart::{Chart, ChartFault};
use msc_notes::{faults, further};
use msc_parser::{Draft, parse};

/// The draft of a text that has one.
fn drafted(rt: &impl Host, text: &[u8]) -> Draft {
    parse(rt.alloc(), text).expect(rt, "a draft")
}

/// Whether a text has exactly these faults.
fn has_faults(rt: &impl Host, text: &[u8], wanted: &[ChartFault]) -> bool {
    let standing = faults(rt.alloc(), &drafted(rt, text)).expect(rt, "memory");
    standing.as_slice() == wanted
}

/// Texts, and their faults.
const STANDING: &[(&[u8], &[ChartFault])] = &[
    (b"msc t; endmsc;", &[]),
    (
        b"msc t; inst a, b; instance a; out m to b; endinstance;
          instance b; in m from a; endinstance; endmsc;",
        &[],
    ),
    // an action is no end of a message, and two equal actions are no fault
    (
        b"msc t; instance a; action 'm'; action 'm'; endinstance; endmsc;",
        &[],
    ),
    // a third section of a name repeats it as the second does
    (
        b"msc t; instance a; endinstance; instance b; endinstance; instance a; endinstance;
          instance b; endinstance; instance a; endinstance; endmsc;",
        &[TwiceInstance(2), TwiceInstance(3), TwiceInstance(4)],
    ),
    // names in a header may occur twice, and differ in capitals from those of sections
    (
        b"msc t; inst a, A, a; inst b; instance a; endinstance; endmsc;",
        &[HeaderWithoutBody(1), HeaderWithoutBody(3)],
    ),
    // events are counted over all sections, actions among them
    (
        b"msc t; instance a; action 'x'; out m to c; endinstance;
          instance b; in m from a; endinstance; endmsc;",
        &[UnknownAddress(1), UnmatchedOut(1), UnmatchedIn(2)],
    ),
    // the other end may be on an instance of an unknown name, and then it is missing
    (
        b"msc t; instance a; in m from c; out m to a; endinstance; endmsc;",
        &[UnknownAddress(0), UnmatchedOut(1), UnmatchedIn(0)],
    ),
    // keys are by names, so sections of one name share theirs
    (
        b"msc t; instance a; out m to b; endinstance; instance b; in m from a; endinstance;
          instance a; out m to b; endinstance; endmsc;",
        &[TwiceInstance(2), TwiceEvent(2)],
    ),
    // a message to oneself has an output and an input, which are not the same end twice
    (
        b"msc t; instance a; out m to a; in m from a; out m to a; in m from a; out m, 2 to a;
          endinstance; endmsc;",
        &[TwiceEvent(2), TwiceEvent(3), UnmatchedOut(4)],
    ),
    // message instance names differ from none, and parameters are not compared
    (
        b"msc t; instance a; out m(p) to b; out m, 1 to b; out m, 01 to b; out m(q) to b;
          endinstance; instance b; in m, 1 from a; in m from a; endinstance; endmsc;",
        &[TwiceEvent(3), UnmatchedOut(2)],
    ),
    // all sorts at once, in a coregion too
    (
        b"msc t; inst x; instance a; concurrent; out m to b; out m to b; out n to z;
          endconcurrent; endinstance; instance b; in o from a; endinstance;
          instance b; endinstance; endmsc;",
        &[
            TwiceInstance(2),
            HeaderWithoutBody(0),
            UnknownAddress(2),
            TwiceEvent(1),
            UnmatchedOut(0),
            UnmatchedOut(1),
            UnmatchedOut(2),
            UnmatchedIn(3),
        ],
    ),
];

#[test]
fn faults_that_stand(rt: HostRuntime) {
    for &(text, wanted) in STANDING {
        assert!(rt; has_faults(&rt, text, wanted), "{text:?}");
    }
}

/// The first fault of a draft that is no chart.
fn first_fault(rt: &impl Host, draft: &Draft) -> ChartFault {
    match Chart::build(rt.alloc(), draft) {
        Err(fault) => fault,
        Ok(_) => ChartFault::Memory,
    }
}

/// Whether this is the first fault of a text, and these are the further ones.
fn has_further(rt: &impl Host, text: &[u8], first: ChartFault, wanted: &[ChartFault]) -> bool {
    let draft = drafted(rt, text);
    let others = further(rt.alloc(), &draft, first).expect(rt, "memory");
    first_fault(rt, &draft) == first && others.as_slice() == wanted
}

/// Texts, their first faults, and the further ones.
const FURTHER: &[(&[u8], ChartFault, &[ChartFault])] = &[
    (
        b"msc t; inst x; instance a; concurrent; out m to b; out m to b; out n to z;
          endconcurrent; endinstance; instance b; in o from a; endinstance;
          instance b; endinstance; endmsc;",
        TwiceInstance(2),
        &[
            HeaderWithoutBody(0),
            UnknownAddress(2),
            TwiceEvent(1),
            UnmatchedOut(0),
        ],
    ),
    // the note on the input names the output that may have been meant: between the same instances,
    // with another name
    (
        b"msc t; instance a; out m, 1 to b; endinstance; instance b; in m, 2 from a; endinstance;
          endmsc;",
        UnmatchedOut(0),
        &[],
    ),
    // or between others, if a mistyped address makes it so
    (
        b"msc t; instance a; out m to bb; endinstance; instance b; in m from a; endinstance;
          endmsc;",
        UnknownAddress(0),
        &[],
    ),
    // or between the same, if its name is mistyped
    (
        b"msc t; instance a; out m to c; out n to b; endinstance;
          instance b; in m from a; in o from a; endinstance; instance c; endinstance; endmsc;",
        UnmatchedOut(0),
        &[UnmatchedOut(1)],
    ),
    // no output is like these inputs
    (
        b"msc t; instance a; out m to b; in p from b; endinstance;
          instance b; in m from a; in q from a; endinstance; endmsc;",
        UnmatchedIn(1),
        &[UnmatchedIn(3)],
    ),
    // only outputs without an input may have been meant
    (
        b"msc t; instance a; out m to b; endinstance;
          instance b; in m from a; in m, 2 from a; in m, 3 from a; endinstance; endmsc;",
        UnmatchedIn(2),
        &[UnmatchedIn(3)],
    ),
    // an input may repeat one and lack an output, or have an unknown address
    (
        b"msc t; instance a; in m from a; in m from a; in n from z; endinstance; endmsc;",
        UnknownAddress(2),
        &[TwiceEvent(1), UnmatchedIn(0)],
    ),
    // after other faults there are none
    (
        b"msc t; instance a; in m from a; out m to a; endinstance; endmsc;",
        Cyclic(0),
        &[],
    ),
];

#[test]
fn further_faults(rt: HostRuntime) {
    for &(text, first, wanted) in FURTHER {
        assert!(rt; has_further(&rt, text, first, wanted), "{text:?}");
    }
}
