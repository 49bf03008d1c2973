//! Reading an input to its end, and writing to devices that fail.

use crate::devices::{Unsteady, byte_writer};
use crate::host::Host;
use example_charts::EMPTY;
use msc_calls::{CALL_LIMIT, Fault, check_text, read_all, read_text};
use msc_chart::{ChartFault, Queues};
use msc_source::ReadFault;
use std::io::ErrorKind;

/// Whether a reader that is interrupted this number of times, and gives this number of bytes at a
/// time, is read to its end.
fn is_read(rt: &impl Host, interruptions: u32, step: usize) -> bool {
    let mut reader = Unsteady::new(EMPTY);
    reader.interruptions = interruptions;
    reader.step = step;
    let read = read_all(rt.alloc(), &mut reader).expect(rt, "bytes");
    read.as_slice() == EMPTY
}

#[test]
fn an_input_in_memory(rt: HostRuntime) {
    assert!(rt; is_read(&rt, 0, usize::MAX));
}

/// Whether reading an input that is always interrupted is a device fault after this number of
/// calls.
fn is_given_up(rt: &impl Host, calls: u32) -> bool {
    let mut reader = Unsteady::new(EMPTY);
    reader.interruptions = u32::MAX;
    let fault = read_all(rt.alloc(), &mut reader).err();
    (fault, reader.calls) == (Some(Fault::Device), calls)
}

#[test]
fn interrupted_reads_are_tried_again(rt: HostRuntime) {
    assert!(rt; is_read(&rt, 3, 1));
    assert!(rt; is_given_up(&rt, 2_097_152));
    assert!(rt; CALL_LIMIT == 2_097_152);
}

/// Whether reading an input that fails at this call is a device fault.
fn is_read_failed(rt: &impl Host, call: u32) -> bool {
    let mut reader = Unsteady::new(EMPTY);
    reader.fails_at = call;
    read_all(rt.alloc(), &mut reader).err() == Some(Fault::Device)
}

#[test]
fn failing_reads_are_a_device_fault(rt: HostRuntime) {
    for call in 1..3 {
        assert!(rt; is_read_failed(&rt, call), "{call}");
    }
}

/// The kind of the error of reading this input.
fn cause(rt: &impl Host, reader: &mut Unsteady) -> Option<ErrorKind> {
    match msc_source::read_all(rt.alloc(), reader) {
        Err(ReadFault::Device(error)) => Some(error.kind()),
        _ => None,
    }
}

/// The cause of a failure at the first call.
fn cause_of_failure(rt: &impl Host) -> Option<ErrorKind> {
    let mut reader = Unsteady::new(EMPTY);
    reader.fails_at = 1;
    cause(rt, &mut reader)
}

/// The cause if each call is interrupted.
fn cause_of_giving_up(rt: &impl Host) -> Option<ErrorKind> {
    let mut reader = Unsteady::new(EMPTY);
    reader.interruptions = u32::MAX;
    cause(rt, &mut reader)
}

#[test]
fn a_device_fault_of_reading_has_its_cause(rt: HostRuntime) {
    assert!(rt; cause_of_failure(&rt) == Some(ErrorKind::BrokenPipe));
    assert!(rt; cause_of_giving_up(&rt) == Some(ErrorKind::TimedOut));
}

/// The number of bytes that are read of an input of `count` bytes.
fn count_read(rt: &impl Host, count: usize) -> usize {
    let long = vec![in rt.alloc(); b' '; count].expect(rt, "memory");
    let read = read_all(rt.alloc(), &mut Unsteady::new(&long)).expect(rt, "bytes");
    read.len()
}

#[test]
fn the_first_bytes_of_a_long_input(rt: HostRuntime) {
    assert!(rt; count_read(&rt, 1_048_578) == 1_048_577);
}

/// Whether a chart without instances is written through a writer that takes a byte at a time.
fn is_written(rt: &impl Host) -> bool {
    let mut writer = byte_writer(rt.alloc(), 0);
    read_text(rt.alloc(), EMPTY, &mut writer).expect(rt, "what is written");
    writer.written.as_slice() == b"msc t;\nendmsc;\n".as_slice()
}

#[test]
fn a_writer_that_takes_a_byte_at_a_time(rt: HostRuntime) {
    assert!(rt; is_written(&rt));
}

/// Whether it is a device fault with a writer that fails at this call.
fn is_write_failed(rt: &impl Host, call: u32) -> bool {
    let mut writer = byte_writer(rt.alloc(), call);
    read_text(rt.alloc(), EMPTY, &mut writer).err() == Some(Fault::Device)
}

#[test]
fn failing_writes_are_a_device_fault(rt: HostRuntime) {
    for call in 1..16 {
        assert!(rt; is_write_failed(&rt, call), "{call}");
    }
}

/// Whether a text is refused, and the writer gets no call.
fn is_refused_at_once(rt: &impl Host, text: &[u8]) -> bool {
    let mut writer = byte_writer(rt.alloc(), 0);
    let answer = read_text(rt.alloc(), text, &mut writer);
    (answer.is_err(), writer.calls) == (true, 0)
}

#[test]
fn a_refused_text_leaves_the_writer_with_no_call(rt: HostRuntime) {
    assert!(rt; is_refused_at_once(&rt, b"msc t;"));
}

/// A text of the grammar whose chart is refused.
const NO_CHART: &[u8] = b"msc t; instance a; in m from a; out m to a; endinstance; endmsc;";

/// Its canonical text.
const CANONICAL: &[u8] = b"msc t;\ninstance a;\n  in m from a;\n  out m to a;\nendinstance;\n\
endmsc;\n";

/// Whether reading a text writes this.
fn is_read_as(rt: &impl Host, text: &[u8], wanted: &[u8]) -> bool {
    let mut written = Vec::new(rt.alloc());
    read_text(rt.alloc(), text, &mut written).expect(rt, "what is written");
    written.as_slice() == wanted
}

/// Whether this is the fault with which the check of a text is refused.
fn is_check_refused(rt: &impl Host, text: &[u8], wanted: Fault) -> bool {
    let mut writer = byte_writer(rt.alloc(), 0);
    check_text(rt.alloc(), text, Queues::PAIR, 0, &mut writer).err() == Some(wanted)
}

#[test]
fn a_text_whose_chart_is_refused_is_read(rt: HostRuntime) {
    assert!(rt; is_read_as(&rt, NO_CHART, CANONICAL));
    assert!(rt; is_check_refused(&rt, NO_CHART, Fault::Chart(ChartFault::Cyclic(0))));
}
