//! Executions that gates force.

use crate::host::Parallel;
use example_charts::TWO_SENDERS;
use msc_calls::run_text;
use msc_chart::{Event, Queues};
use msc_instance::Gate;
use std::sync::atomic::{AtomicU64, Ordering};
use std::thread;

/// The number of times that a gate looks whether it was called for another event.
const TURNS: u64 = 1_000_000_000;

/// A gate of `two_senders` at which events wait until it was called for others.
#[derive(Drop)]
struct Waiting {
    /// For each event, the event for which it waits, if it waits.
    awaited: Awaited,
    /// The number of calls of the gate for each event.
    asked: [AtomicU64; 4],
}

impl Waiting {
    /// A gate that was not called.
    fn new(awaited: Awaited) -> Waiting {
        Waiting {
            awaited,
            asked: [
                AtomicU64::new(0),
                AtomicU64::new(0),
                AtomicU64::new(0),
                AtomicU64::new(0),
            ],
        }
    }

    /// The number of calls for an event.
    fn count(&self, event: Event) -> u64 {
        match self.asked.get(event as usize) {
            Some(count) => count.load(Ordering::SeqCst),
            None => 0,
        }
    }

    /// Waits until the gate was called for an event, or it has looked in vain too often.
    fn waits_for(&self, event: Event) -> bool {
        for _ in 0..TURNS {
            if self.count(event) > 0 {
                return true;
            }
            thread::yield_now();
        }
        false
    }
}

impl Gate for Waiting {
    ghost use Rattle.std.specs.Prelude.{false, true};

    ghost is_open = { false };

    ghost lets = { λ _ _ _. true };

    fn at(&self, _instance: u32, event: Event) -> bool {
        let Some(asked) = self.asked.get(event as usize) else {
            return false;
        };
        asked.fetch_add(1, Ordering::SeqCst);
        match self.awaited.get(event as usize) {
            Some(Some(other)) => self.waits_for(*other),
            _ => true,
        }
    }
}

/// The trace in which b takes m1 before c sends m2.
const M1_ALONE: &[u8] = b"instance a finished\ninstance b finished\ninstance c finished\n\
trace 4\n0 a out m1 to b\n1 b in m1 from a\n3 c out m2 to b\n2 b in m2 from c\n";

/// The traces in which b takes m2 before m1, from queues of their own and from one queue.
const M2_FIRST: &[u8] = b"instance a finished\ninstance b finished\ninstance c finished\n\
trace 4\n0 a out m1 to b\n3 c out m2 to b\n2 b in m2 from c\n1 b in m1 from a\n";

const M2_AHEAD: &[u8] = b"instance a finished\ninstance b finished\ninstance c finished\n\
trace 4\n3 c out m2 to b\n0 a out m1 to b\n2 b in m2 from c\n1 b in m1 from a\n";

/// For each event of `two_senders`, the event for which it waits.
type Awaited = [Option<Event>; 4];

/// c sends once b has m1.
const AFTER_M1: Awaited = [None, None, None, Some(1)];

/// a sends once b has m2.
const AFTER_M2: Awaited = [Some(2), None, None, None];

/// Both outputs wait for each other.
const MEETING: Awaited = [Some(3), None, None, Some(0)];

/// The events for which events wait, an architecture, and the traces that may result.
const FORCED: &[(Awaited, Queues, [&[u8]; 2])] = &[
    (AFTER_M1, Queues::PAIR, [M1_ALONE, M1_ALONE]),
    (AFTER_M1, Queues::MAILBOX, [M1_ALONE, M1_ALONE]),
    (AFTER_M1, Queues::SINGLE, [M1_ALONE, M1_ALONE]),
    (AFTER_M2, Queues::PAIR, [M2_FIRST, M2_FIRST]),
    (AFTER_M2, Queues::MAILBOX, [M2_AHEAD, M2_AHEAD]),
    (AFTER_M2, Queues::SINGLE, [M2_FIRST, M2_FIRST]),
    (MEETING, Queues::PAIR, [M1_ALONE, M2_FIRST]),
    (MEETING, Queues::MAILBOX, [M1_ALONE, M2_AHEAD]),
    (MEETING, Queues::SINGLE, [M1_ALONE, M2_FIRST]),
];

/// Whether the run of `two_senders` with such a gate finishes with one of these traces, and calls
/// the gate once for each event.
fn is_forced(rt: &impl Parallel, queues: Queues, awaited: Awaited, traces: &[&[u8]]) -> bool {
    let mut output = Vec::new(rt.alloc());
    let gate = Waiting::new(awaited);
    let answer = run_text(
        rt,
        rt.alloc(),
        TWO_SENDERS,
        queues,
        &gate,
        u32::MAX,
        &mut output,
    );
    let printed = output.as_slice();
    let is_trace = traces.iter().any(|trace| printed.ends_with(trace));
    let are_asked = (0..4).all(|e| gate.count(e) == 1);
    (answer.ok(), is_trace, are_asked) == (Some(true), true, true)
}

#[test]
fn gates_force_traces(rt: HostRuntime) {
    for &(awaited, queues, traces) in FORCED {
        let is = is_forced(&rt, queues, awaited, &traces);
        assert!(rt; is, "{queues:?}: {awaited:?}");
    }
}
