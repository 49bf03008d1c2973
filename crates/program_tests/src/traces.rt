//! The texts of executions: the ends of the instances, and the trace.

ghost use Rattle.std.specs.Prelude.{◌<◌, IsTrue, length};
ghost use Rattle.std.specs.List.{All};

use crate::devices::{Narrow, byte_writer};
use crate::host::{Host, chart_of};
use example_charts::{EMPTY, LOCAL_EVENTS, NUMBERED, ONE_MESSAGE, RELAY};
use msc_calls::write_trace;
use msc_chart::{Chart, Event, Queues};
use msc_ending::End;

/// A chart's text, the architecture, the end of each instance, the trace, and the printed text.
type Printed = (
    &'static [u8],
    Queues,
    &'static [End],
    Option<&'static [Event]>,
    &'static [u8],
);

/// Executions of worked charts, both complete ones and ones that stopped on the way.
const PRINTED: &[Printed] = &[
    (
        EMPTY,
        Queues::PAIR,
        &[],
        Some(&[]),
        b"chart t\nqueues pair\ntrace 0\n",
    ),
    (
        ONE_MESSAGE,
        Queues::SINGLE,
        &[End::Finished, End::Finished],
        Some(&[0, 1]),
        b"chart t\nqueues single\ninstance a finished\ninstance b finished\n\
trace 2\n0 a out m to b\n1 b in m from a\n",
    ),
    (
        ONE_MESSAGE,
        Queues::PAIR,
        &[End::Finished, End::Impatient],
        Some(&[0]),
        b"chart t\nqueues pair\ninstance a finished\ninstance b impatient\n\
trace 1\n0 a out m to b\n",
    ),
    (
        ONE_MESSAGE,
        Queues::MAILBOX,
        &[End::Stopped, End::Starved],
        None,
        b"chart t\nqueues mailbox\ninstance a stopped\ninstance b starved\nno trace\n",
    ),
    (
        ONE_MESSAGE,
        Queues::PAIR,
        &[End::Foreign(0), End::Foreign(4294967295)],
        Some(&[]),
        b"chart t\nqueues pair\ninstance a foreign 0\ninstance b foreign 4294967295\ntrace 0\n",
    ),
    (
        RELAY,
        Queues::MAILBOX,
        &[End::Finished, End::Finished, End::Finished],
        Some(&[0, 1, 2, 4, 5, 3]),
        b"chart t\nqueues mailbox\n\
instance a finished\ninstance b finished\ninstance c finished\n\
trace 6\n0 a out m1 to b\n1 a out x to c\n2 b in m1 from a\n\
4 c in x from a\n5 c out m2 to b\n3 b in m2 from c\n",
    ),
    (
        LOCAL_EVENTS,
        Queues::SINGLE,
        &[End::Finished, End::Finished],
        Some(&[0, 1, 2, 3]),
        b"chart t\nqueues single\ninstance a finished\ninstance b finished\n\
trace 4\n0 a action 'go'\n1 a out m to b\n2 b in m from a\n3 b action 'done'\n",
    ),
    (
        NUMBERED,
        Queues::PAIR,
        &[End::Finished, End::Starved],
        Some(&[0, 2, 1]),
        b"chart t\nqueues pair\ninstance a finished\ninstance b starved\n\
trace 3\n0 a out m, 1 to b\n2 b in m, 1 from a\n1 a out m, 2 to b\n",
    ),
];

/// Whether these are all events of a chart.
fn are_events(chart: &Chart, events: &[Event]) -> bool
    ensures { IsTrue result → All (λ e. e < length chart.now.events) events.now }
{
    let count = chart.events();
    events.iter().all(|e| *e < count)
}

/// Whether `write_trace` succeeds on a chart; false if the events are not the chart's, or there are
/// not as many ends as instances.
fn is_written(writer: &mut Narrow, chart: &Chart, printed: &Printed) -> bool {
    let (_, queues, ends, trace, _) = *printed;
    if ends.len() != chart.instances() as usize {
        return false;
    }
    match trace {
        Some(events) if are_events(chart, events) => {
            write_trace(writer, chart, queues, ends, Some(events)).is_ok()
        }
        Some(_) => false,
        None => write_trace(writer, chart, queues, ends, None).is_ok(),
    }
}

/// Whether this is the text that is written through a writer that takes a byte at a time.
fn writes(rt: &impl Host, printed: &Printed) -> bool {
    let chart = chart_of(rt, printed.0);
    let mut writer = byte_writer(rt.alloc(), 0);
    let is = is_written(&mut writer, &chart, printed);
    (is, writer.written.as_slice()) == (true, printed.4)
}

/// Whether a writer that fails at this call, from 1, is an error.
fn fails(rt: &impl Host, printed: &Printed, call: u32) -> bool {
    let chart = chart_of(rt, printed.0);
    !is_written(&mut byte_writer(rt.alloc(), call), &chart, printed)
}

#[test]
fn executions_of_the_worked_charts(rt: HostRuntime) {
    for printed in PRINTED {
        assert!(rt; writes(&rt, printed), "{printed:?}");
    }
}

#[test]
fn a_failing_write_is_an_error(rt: HostRuntime) {
    for printed in PRINTED {
        let calls = printed.4.len() as u32;
        for before in 0..calls {
            let call = before.wrapping_add(1);
            assert!(rt; fails(&rt, printed, call), "{printed:?} {call}");
        }
    }
}
