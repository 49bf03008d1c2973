//! Orders of charts, and their rows of bits.

ghost use Rattle.std.specs.Prelude.{◌≡◌, ◌<◌, length};

use crate::charts::chart_of;
use crate::host::Host;
use example_charts::{LOCAL_EVENTS, OVERTAKING, RELAY, TWO_MAILBOXES, TWO_SENDERS, WAITS};
use msc_chart::{Event, Queues};
use msc_order::Order;

/// The number of events of an order, and whether it holds two of them in this order, and in the
/// other.
type Held = (u32, bool, bool);

/// Whether an order of `events` events holds two of them in this way.
fn is_held(order: &Order, events: u32, e: Event, f: Event, wanted: Held) -> bool
    requires { events ≡ length order.now }
{
    if e >= events || f >= events {
        return false;
    }
    (events, order.holds(e, f), order.holds(f, e)) == wanted
}

/// Whether the visual order of a text's chart holds two events in this way.
fn is_seen(rt: &impl Host, text: &[u8], e: Event, f: Event, wanted: Held) -> bool {
    let chart = chart_of(rt, text);
    let order = Order::visual(rt.alloc(), &chart).expect(rt, "an order");
    is_held(&order, chart.events(), e, f, wanted)
}

/// Whether the enforced order of a text's chart holds two events in this way.
fn is_enforced(
    rt: &impl Host,
    text: &[u8],
    queues: Queues,
    e: Event,
    f: Event,
    wanted: Held,
) -> bool {
    let chart = chart_of(rt, text);
    let order = Order::enforced(rt.alloc(), &chart, queues).expect(rt, "an order");
    is_held(&order, chart.events(), e, f, wanted)
}

/// Texts, two events, and how the visual order holds them.
const SEEN: &[(&[u8], Event, Event, Held)] = &[
    (OVERTAKING, 2, 3, (4, true, false)),
    (WAITS, 1, 2, (3, true, false)),
];

#[test]
fn what_is_drawn_is_in_the_visual_order(rt: HostRuntime) {
    for &(text, e, f, wanted) in SEEN {
        assert!(rt; is_seen(&rt, text, e, f, wanted), "{text:?}");
    }
}

/// Texts, architectures, two events, and how the enforced order holds them.
const ENFORCED: &[(&[u8], Queues, Event, Event, Held)] = &[
    (OVERTAKING, Queues::PAIR, 2, 3, (4, false, true)),
    (OVERTAKING, Queues::MAILBOX, 2, 3, (4, false, true)),
    (OVERTAKING, Queues::SINGLE, 2, 3, (4, false, false)),
    (RELAY, Queues::PAIR, 2, 3, (6, false, false)),
    (RELAY, Queues::MAILBOX, 2, 3, (6, true, false)),
    (RELAY, Queues::SINGLE, 2, 3, (6, false, false)),
    (WAITS, Queues::MAILBOX, 1, 2, (3, false, false)),
    (LOCAL_EVENTS, Queues::SINGLE, 2, 3, (4, true, false)),
];

#[test]
fn what_an_architecture_enforces(rt: HostRuntime) {
    for &(text, queues, e, f, wanted) in ENFORCED {
        let is = is_enforced(&rt, text, queues, e, f, wanted);
        assert!(rt; is, "{queues:?}: {text:?}");
    }
}

/// The rest of a list of pairs, ascending, after the pairs that an order holds of one first event,
/// if it begins with them.
fn after_row<'a>(
    order: &Order,
    events: u32,
    e: Event,
    pairs: &'a [(Event, Event)],
) -> Option<&'a [(Event, Event)]>
    requires events { events ≡ length order.now }
    requires known { e < events }
{
    let mut rest = pairs;
    for f in 0..events {
        if order.holds(e, f) {
            match rest.split_first() {
                Some((pair, more)) if *pair == (e, f) => rest = more,
                _ => return None,
            }
        }
    }
    Some(rest)
}

/// Whether these are the pairs that an order holds, ascending.
fn are_pairs(order: &Order, events: u32, pairs: &[(Event, Event)]) -> bool
    requires { events ≡ length order.now }
{
    let mut rest = pairs;
    for e in 0..events {
        match after_row(order, events, e, rest) {
            Some(more) => rest = more,
            None => return false,
        }
    }
    rest.is_empty()
}

/// Whether these are the pairs of the enforced order of a text's chart.
fn are_enforced(rt: &impl Host, text: &[u8], queues: Queues, wanted: &[(Event, Event)]) -> bool {
    let chart = chart_of(rt, text);
    let order = Order::enforced(rt.alloc(), &chart, queues).expect(rt, "an order");
    are_pairs(&order, chart.events(), wanted)
}

/// The pairs of `two_mailboxes` that mailboxes enforce.
const ENFORCED_BY_MAILBOXES: &[(Event, Event)] = &[
    (0, 1),
    (0, 4),
    (0, 7),
    (1, 7),
    (2, 3),
    (2, 5),
    (2, 6),
    (3, 5),
];

#[test]
fn the_enforced_pairs_of_two_mailboxes(rt: HostRuntime) {
    let queues = Queues::MAILBOX;
    assert!(rt; are_enforced(&rt, TWO_MAILBOXES, queues, ENFORCED_BY_MAILBOXES));
}

/// Whether this word is an event's row of an order of `events` events.
fn has_row(order: &Order, events: u32, e: Event, wanted: u64) -> bool
    requires { events ≡ length order.now }
{
    e < events && order.row(e) == [wanted].as_slice()
}

/// Whether this word is an event's row of the enforced order of a text's chart under `Pair`.
fn is_row(rt: &impl Host, text: &[u8], e: Event, wanted: u64) -> bool {
    let chart = chart_of(rt, text);
    let order = Order::enforced(rt.alloc(), &chart, Queues::PAIR).expect(rt, "an order");
    has_row(&order, chart.events(), e, wanted)
}

#[test]
fn the_rows_of_two_senders(rt: HostRuntime) {
    for &(e, wanted) in &[(0, 2), (1, 0), (2, 0), (3, 4)] {
        assert!(rt; is_row(&rt, TWO_SENDERS, e, wanted), "{e}");
    }
}
