//! Runs that reverse pairs of events. `program_tests` tests the printed runs of the races of the
//! worked charts.

use crate::charts::chart_of;
use crate::host::Host;
use example_charts::{COREGION, TWO_SENDERS};
use msc_chart::{Chart, Event, Queues};
use msc_race::Enforced;

/// Texts, architectures, two events of the chart, and the run that reverses them, if there is one.
const REVERSED: &[(&[u8], Queues, Event, Event, Option<&[Event]>)] = &[
    (TWO_SENDERS, Queues::PAIR, 3, 0, Some(&[0, 1, 3, 2])),
    (TWO_SENDERS, Queues::MAILBOX, 3, 0, Some(&[0, 1, 3, 2])),
    (COREGION, Queues::PAIR, 1, 2, Some(&[0, 3, 2, 1])),
    (COREGION, Queues::PAIR, 2, 1, Some(&[0, 1, 3, 2])),
    (COREGION, Queues::MAILBOX, 1, 2, Some(&[3, 0, 2, 1])),
    (COREGION, Queues::MAILBOX, 2, 1, Some(&[0, 1, 3, 2])),
    // A message goes from 0 to 1, and no event comes before itself.
    (TWO_SENDERS, Queues::PAIR, 0, 1, None),
    (TWO_SENDERS, Queues::PAIR, 2, 2, None),
];

/// Whether the chart has both events, and this is the run that reverses them, if there is one.
fn is_run(
    rt: &impl Host,
    chart: &Chart,
    queues: Queues,
    e: Event,
    f: Event,
    wanted: Option<&[Event]>,
) -> bool {
    let enforced = Enforced::of(rt.alloc(), chart, queues).expect(rt, "an order");
    if e >= enforced.events() || f >= enforced.events() {
        return false;
    }
    match &enforced
        .reversing_run(rt.alloc(), e, f)
        .expect(rt, "memory")
    {
        Some(run) => Some(run.as_slice()) == wanted,
        None => wanted.is_none(),
    }
}

/// The same for a text's chart.
fn is_reversing_run(
    rt: &impl Host,
    text: &[u8],
    queues: Queues,
    e: Event,
    f: Event,
    wanted: Option<&[Event]>,
) -> bool {
    is_run(rt, &chart_of(rt, text), queues, e, f, wanted)
}

#[test]
fn reversing_runs(rt: HostRuntime) {
    for &(text, queues, e, f, wanted) in REVERSED {
        let is = is_reversing_run(&rt, text, queues, e, f, wanted);
        assert!(rt; is, "({e}, {f}) {queues:?}: {text:?}");
    }
}
