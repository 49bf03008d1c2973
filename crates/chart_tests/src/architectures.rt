//! Architectures in words, and as options of a command line.

use crate::charts::chart_of;
use crate::host::Host;
use msc_chart::{Chart, LinkKind, Links, Queues};
use msc_links::{print_queue_options, print_queues};

/// Three instances without events.
const THREE: &[u8] = b"msc t; instance A; endinstance; instance B; endinstance; \
instance C; endinstance; endmsc;";

/// The links from A and from B to C are pairs, and all others are single.
fn pairs_to_c() -> Queues {
    let mut links = Links::all(LinkKind::Single);
    links.give(0, 2, LinkKind::Pair);
    links.give(1, 2, LinkKind::Pair);
    Queues::Mixed(links)
}

/// All links to C share its mailbox, that from A to B is a pair, and all others are single.
fn mailbox_of_c() -> Queues {
    let mut links = Links::all(LinkKind::Single);
    links.give(0, 2, LinkKind::Mailbox);
    links.give(1, 2, LinkKind::Mailbox);
    links.give(2, 2, LinkKind::Mailbox);
    links.give(0, 1, LinkKind::Pair);
    Queues::Mixed(links)
}

/// Whether these are the words and the options of an architecture.
fn is_said(rt: &impl Host, chart: &Chart, queues: &Queues, said: &[u8], options: &[u8]) -> bool {
    let mut words = Vec::new(rt.alloc());
    print_queues(&mut words, rt.alloc(), chart, queues).expect(rt, "memory");
    let mut line = Vec::new(rt.alloc());
    print_queue_options(&mut line, rt.alloc(), chart, queues).expect(rt, "memory");
    words.as_slice() == said && line.as_slice() == options
}

#[test]
fn architectures_in_words(rt: HostRuntime) {
    let chart = chart_of(&rt, THREE);
    let uniform = is_said(
        &rt,
        &chart,
        &Queues::MAILBOX,
        b"mailbox",
        b"--queues mailbox",
    );
    assert!(rt; uniform);
    let pairs = is_said(
        &rt,
        &chart,
        &pairs_to_c(),
        b"single; pair A>C, B>C",
        b"--queues single --pair 'A>C' --pair 'B>C'",
    );
    assert!(rt; pairs);
    let mailbox = is_said(
        &rt,
        &chart,
        &mailbox_of_c(),
        b"single; pair A>B; mailbox C",
        b"--queues single --pair 'A>B' --mailbox C",
    );
    assert!(rt; mailbox);
}
