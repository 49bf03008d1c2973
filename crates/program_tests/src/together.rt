//! All instances of a chart, each on its thread.

use crate::host::{Parallel, chart_of};
use example_charts::{EMPTY, LOCAL_EVENTS};
use msc_chart::{Chart, Event, LinkKind, Queues};
use msc_instance::{AlwaysOpen, End, Execution, run_chart};

/// The greatest number of rounds.
pub const PATIENCE: u32 = u32::MAX;

/// The end of each instance, and the log of each.
pub type Wanted<'a> = (&'a [End], &'a [&'a [Event]]);

/// Whether an execution has these ends and these logs.
pub fn is_execution(execution: &Execution, wanted: Wanted) -> bool {
    if execution.ends.as_slice() != wanted.0 || execution.logs.len() != wanted.1.len() {
        return false;
    }
    for (log, wanted) in execution.logs.iter().zip(wanted.1) {
        if log.as_slice() != *wanted {
            return false;
        }
    }
    true
}

/// Whether these are the ends of the instances of a chart with a gate that is always open, and this
/// number of queues is settled.
fn is_run_of(
    rt: &impl Parallel,
    chart: &Chart,
    queues: Queues,
    wanted: Wanted,
    count: usize,
) -> bool {
    let execution = run_chart(rt, rt.alloc(), chart, queues, &AlwaysOpen, PATIENCE).expect(
        rt,
        "an execution",
    );
    is_execution(&execution, wanted) && execution.queues.len() == count
}

/// The same for a text's chart.
fn is_run(rt: &impl Parallel, text: &[u8], queues: Queues, wanted: Wanted, count: usize) -> bool {
    is_run_of(rt, &chart_of(rt, text), queues, wanted, count)
}

#[test]
fn no_instance(rt: HostRuntime) {
    for kind in LinkKind::ALL {
        let queues = Queues::Uniform(kind);
        assert!(rt; is_run(&rt, EMPTY, queues, (&[], &[]), 0), "{kind:?}");
    }
}

/// How the instances of `local_events` end.
const LOCAL: Wanted = (&[End::Finished, End::Finished], &[&[0, 1], &[2, 3]]);

#[test]
fn actions_on_both_sides_of_a_message(rt: HostRuntime) {
    for kind in LinkKind::ALL {
        let queues = Queues::Uniform(kind);
        assert!(rt; is_run(&rt, LOCAL_EVENTS, queues, LOCAL, 1), "{kind:?}");
    }
}
