//! Whether drawings can happen: their following runs, and the rings of steps of those that cannot.
//! The expected values were worked out by hand from the three rules of a step.

use crate::charts::chart_of;
use crate::host::Host;
use crate::short::ISDN_CALL;
use example_charts::{CROSSING, EMPTY, OVERTAKING, RELAY, TWO_MAILBOXES, TWO_SENDERS, WAITS};
use msc_chart::{Event, Queues};
use msc_follow::{Followed, follow};

/// Two messages of one queue are taken in one coregion, the second first.
const TAKEN_TOGETHER: &[u8] = b"msc t; instance a; out m1 to b; out m2 to b; endinstance; \
instance b; concurrent; in m2 from a; in m1 from a; endconcurrent; endinstance; endmsc;";

/// A message to oneself, drawn above another of its mailbox.
const OWN_MESSAGE: &[u8] = b"msc t; instance a; out m1 to a; in m1 from a; in m2 from b; \
endinstance; instance b; action 'go'; out m2 to a; endinstance; endmsc;";

/// Two senders and two mailboxes, each of which takes the second message of one sender before the
/// first of the other.
const SECOND_BEFORE_FIRST: &[u8] = b"msc t; instance a; out m1 to q; out m3 to z; endinstance; \
instance b; out m4 to z; out m2 to q; endinstance; \
instance q; in m2 from b; in m1 from a; endinstance; \
instance z; in m3 from a; in m4 from b; endinstance; endmsc;";

/// Two pairs of messages overtake each other, each pair between lines of its own. Event 0 is on no
/// ring.
const TWO_RINGS: &[u8] = b"msc t; instance a; action 'go'; out m1 to b; out m2 to b; endinstance; \
instance b; in m2 from a; in m1 from a; endinstance; \
instance c; out m3 to d; out m4 to d; endinstance; \
instance d; in m4 from c; in m3 from c; endinstance; endmsc;";

/// Three messages of one queue are taken in the reverse order: there are rings of two and of three
/// events.
const REVERSED: &[u8] = b"msc t; instance a; out m1 to b; out m2 to b; out m3 to b; endinstance; \
instance b; in m3 from a; in m2 from a; in m1 from a; endinstance; endmsc;";

/// Charts that can happen under these architectures, and their following runs.
const FOLLOWED: &[(&[u8], Queues, &[Event])] = &[
    (EMPTY, Queues::MAILBOX, &[]),
    (CROSSING, Queues::PAIR, &[0, 2, 1, 3]),
    (CROSSING, Queues::MAILBOX, &[0, 2, 1, 3]),
    (CROSSING, Queues::SINGLE, &[0, 2, 1, 3]),
    (TWO_SENDERS, Queues::PAIR, &[0, 1, 3, 2]),
    (TWO_SENDERS, Queues::MAILBOX, &[0, 1, 3, 2]),
    (RELAY, Queues::MAILBOX, &[0, 1, 2, 4, 5, 3]),
    (WAITS, Queues::PAIR, &[0, 1, 2]),
    (OVERTAKING, Queues::SINGLE, &[0, 1, 2, 3]),
    (TAKEN_TOGETHER, Queues::PAIR, &[0, 1, 3, 2]),
    (TAKEN_TOGETHER, Queues::SINGLE, &[0, 1, 2, 3]),
    (OWN_MESSAGE, Queues::MAILBOX, &[0, 1, 3, 4, 2]),
    (TWO_MAILBOXES, Queues::MAILBOX, &[0, 2, 1, 3, 4, 5, 6, 7]),
    (SECOND_BEFORE_FIRST, Queues::PAIR, &[0, 1, 2, 3, 4, 5, 6, 7]),
    (TWO_RINGS, Queues::SINGLE, &[0, 1, 2, 3, 4, 5, 6, 7, 8]),
    (REVERSED, Queues::SINGLE, &[0, 1, 2, 3, 4, 5]),
    (
        ISDN_CALL,
        Queues::MAILBOX,
        &[
            0, 8, 9, 1, 10, 23, 24, 11, 12, 2, 25, 13, 14, 15, 3, 4, 5, 16, 17, 18, 6, 7, 19, 20,
            26, 27, 28, 21, 22, 29,
        ],
    ),
];

/// Charts that cannot happen under these architectures, and their rings.
const NEVER: &[(&[u8], Queues, &[Event])] = &[
    (OVERTAKING, Queues::PAIR, &[0, 1]),
    (OVERTAKING, Queues::MAILBOX, &[0, 1]),
    (SECOND_BEFORE_FIRST, Queues::MAILBOX, &[0, 1, 2, 3]),
    (TWO_RINGS, Queues::PAIR, &[1, 2]),
    (REVERSED, Queues::MAILBOX, &[0, 1]),
];

#[test]
fn drawings_that_can_happen(rt: HostRuntime) {
    for &(text, queues, wanted) in FOLLOWED {
        let followed = follow(rt.alloc(), &chart_of(&rt, text), queues).expect(&rt, "memory");
        let is_wanted = match followed {
            Followed::Follows(run) => run.as_slice() == wanted,
            Followed::Never(_) => false,
        };
        assert!(rt; is_wanted, "{wanted:?}, {queues:?}");
    }
}

#[test]
fn drawings_that_never_happen(rt: HostRuntime) {
    for &(text, queues, wanted) in NEVER {
        let followed = follow(rt.alloc(), &chart_of(&rt, text), queues).expect(&rt, "memory");
        let is_wanted = match followed {
            Followed::Follows(_) => false,
            Followed::Never(ring) => ring.as_slice() == wanted,
        };
        assert!(rt; is_wanted, "{wanted:?}, {queues:?}");
    }
}
