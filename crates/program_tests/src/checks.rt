//! Calls that check the text of a chart: their results, and writers that fail.

use crate::devices::{Narrow, byte_writer};
use crate::host::{Host, chart_of};
use example_charts::{RELAY, TWO_SENDERS};
use msc_calls::{Fault, check_text};
use msc_chart::{Chart, Queues};
use msc_report::write_race;

/// Whether `check_text` returns this for `relay`.
fn is_answered(rt: &impl Host, queues: Queues, passed: bool) -> bool {
    let mut writer = byte_writer(rt.alloc(), 0);
    check_text(rt.alloc(), RELAY, queues, 0, &mut writer).ok() == Some(passed)
}

/// Whether `relay` passes under each architecture.
const PASSED: &[(Queues, bool)] = &[
    (Queues::PAIR, false),
    (Queues::MAILBOX, true),
    (Queues::SINGLE, false),
];

#[test]
fn the_answer_is_true_for_pass(rt: HostRuntime) {
    for &(queues, passed) in PASSED {
        assert!(rt; is_answered(&rt, queues, passed), "{queues:?}");
    }
}

/// The output of `check_text` for `two_senders` under `Pair`.
const WRITTEN: &[u8] = b"chart t\nqueues pair\nraces 1\n\
race 1 2 on b: in m1 from a; in m2 from c\nrun 0 3 2 1\n";

/// The number of calls of a writer that takes a byte at a time and gets that output, if it does.
fn calls_for_all(rt: &impl Host) -> Option<u32> {
    let mut writer = byte_writer(rt.alloc(), 0);
    check_text(rt.alloc(), TWO_SENDERS, Queues::PAIR, 1, &mut writer).expect(rt, "a verdict");
    (writer.written.as_slice() == WRITTEN).then_some(writer.calls)
}

/// Whether a writer that fails at this call is a device fault, with a beginning of that output
/// written.
fn fails_at(rt: &impl Host, call: u32) -> bool {
    let mut writer = byte_writer(rt.alloc(), call);
    let fault = check_text(rt.alloc(), TWO_SENDERS, Queues::PAIR, 1, &mut writer).err();
    let begins = WRITTEN.starts_with(writer.written.as_slice());
    (fault, begins) == (Some(Fault::Device), true)
}

#[test]
fn failing_writes_are_a_device_fault(rt: HostRuntime) {
    let calls = calls_for_all(&rt).unwrap_or(0);
    assert!(rt; calls > 0);
    for before in 0..calls {
        assert!(rt; fails_at(&rt, before.wrapping_add(1)), "{before}");
    }
}

/// Whether a text is refused, and the writer gets no call.
fn is_refused_at_once(rt: &impl Host, text: &[u8]) -> bool {
    let mut writer = byte_writer(rt.alloc(), 0);
    let answer = check_text(rt.alloc(), text, Queues::PAIR, 0, &mut writer);
    (answer.is_err(), writer.calls) == (true, 0)
}

/// A text without a draft, and one without a chart.
const NO_CHARTS: &[&[u8]] = &[b"msc t;", b"msc t; inst a; endmsc;"];

#[test]
fn a_refused_text_leaves_the_writer_with_no_call(rt: HostRuntime) {
    for &text in NO_CHARTS {
        assert!(rt; is_refused_at_once(&rt, text), "{text:?}");
    }
}

/// Whether a race of a chart of four events is written, followed by a run.
fn is_race_written(writer: &mut Narrow, chart: &Chart) -> bool {
    chart.events() == 4 && write_race(writer, chart, 1, 2, Some(&[0, 3, 2, 1])).is_ok()
}

/// Whether that race of `two_senders` is written as `wanted`.
fn writes_race(rt: &impl Host, wanted: &[u8]) -> bool {
    let chart = chart_of(rt, TWO_SENDERS);
    let mut writer = byte_writer(rt.alloc(), 0);
    let is = is_race_written(&mut writer, &chart);
    (is, writer.written.as_slice()) == (true, wanted)
}

#[test]
fn a_race_with_its_run(rt: HostRuntime) {
    let wanted = b"race 1 2 on b: in m1 from a; in m2 from c\nrun 0 3 2 1\n";
    assert!(rt; writes_race(&rt, wanted));
}
