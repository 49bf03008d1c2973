//! The text of an execution.

ghost use Rattle.std.specs.Prelude.{◌≡◌, ◌<◌, IfSome, OnOk, length};
ghost use Rattle.std.specs.Io.KnownBytes.{Appends};
ghost use Rattle.std.specs.List.{All, flat_map};
ghost use Rattle.std.specs.Option.{option_copied};
ghost use Rattle.msc_report.specs.Traces.{end_line, end_lines, end_text, event_line, trace_lines};
ghost use Rattle.msc_report.specs.Styles.{steps_text};
ghost use Rattle.msc_report.specs.Traces.{trace_text};

use crate::links::write_queues;
use crate::race::{write_event_at, write_instance};
use crate::verdict::write_name_line;
use itoa::Buffer;
use msc_chart::{Chart, Event, Queues};
use msc_ending::End;
use std::io;
use std::io::Write;

/// Writes how the run of an instance ended.
fn write_end<W: Write>(writer: &mut W, end: End) -> io::Result<()>
    ensures { OnOk result (Appends (W.contents writer.old) (W.contents writer.new)
        (end_text end)) }
{
    match end {
        End::Finished => writer.write_all(b"finished"),
        End::Starved => writer.write_all(b"starved"),
        End::Impatient => writer.write_all(b"impatient"),
        End::Stopped => writer.write_all(b"stopped"),
        End::Foreign(m) => write!(writer, "foreign {m}"),
    }
}

/// Writes the line of an instance and of how its run ended.
fn write_end_line<W: Write>(writer: &mut W, chart: &Chart, i: u32, end: End) -> io::Result<()>
    requires { i < length chart.now.instances }
    ensures { OnOk result (Appends (W.contents writer.old) (W.contents writer.new)
        (end_line chart.now i end)) }
{
    writer.write_all(b"instance ")?;
    write_instance(writer, chart, i)?;
    writer.write_all(b" ")?;
    write_end(writer, end)?;
    writer.write_all(b"\n")
}

/// Writes a line for each instance, in order, with how its run ended.
fn write_end_lines<W: Write>(writer: &mut W, chart: &Chart, ends: &[End]) -> io::Result<()>
    requires { length ends.now ≡ length chart.now.instances }
    ensures { OnOk result (Appends (W.contents writer.old) (W.contents writer.new)
        (end_lines chart.now 0 ends.now)) }
{
    chart.facts();
    for (i, end) in ends.iter().enumerate() {
        write_end_line(writer, chart, i as u32, *end)?;
    }
    Ok(())
}

/// Writes the line of event `e`: its number, the name of its instance, and what it does.
pub(crate) fn write_event_line<W: Write>(writer: &mut W, chart: &Chart, e: Event) -> io::Result<()>
    requires { e < length chart.now.events }
    ensures { OnOk result (Appends (W.contents writer.old) (W.contents writer.new)
        (event_line chart.now e)) }
{
    let mut digits = Buffer::new();
    writer.write_all(digits.format(e).as_bytes())?;
    writer.write_all(b" ")?;
    write_event_at(writer, chart, e)?;
    writer.write_all(b"\n")
}

/// Writes a line for each event of a trace, in its order.
fn write_event_lines<W: Write>(writer: &mut W, chart: &Chart, events: &[Event]) -> io::Result<()>
    requires { All (λ e. e < length chart.now.events) events.now }
    ensures { OnOk result (Appends (W.contents writer.old) (W.contents writer.new)
        (flat_map (event_line chart.now) events.now)) }
{
    for event in events {
        write_event_line(writer, chart, *event)?;
    }
    Ok(())
}

/// Writes a run in words: the number of its events, and a line for each of them, in their order.
pub(crate) fn write_steps<W: Write>(writer: &mut W, chart: &Chart, run: &[Event]) -> io::Result<()>
    requires { All (λ e. e < length chart.now.events) run.now }
    ensures { OnOk result (Appends (W.contents writer.old) (W.contents writer.new)
        (steps_text chart.now run.now)) }
{
    let count = run.len();
    writeln!(writer, "steps {count}")?;
    write_event_lines(writer, chart, run)
}

/// Writes the number of a trace's events and a line for each, or that there is no trace.
fn write_trace_lines<W: Write>(
    writer: &mut W,
    chart: &Chart,
    trace: Option<&[Event]>,
) -> io::Result<()>
    requires { IfSome (option_copied trace) (All (λ e. e < length chart.now.events)) }
    ensures { OnOk result (Appends (W.contents writer.old) (W.contents writer.new)
        (trace_lines chart.now (option_copied trace.entry))) }
{
    match trace {
        Some(events) => {
            let count = events.len();
            writeln!(writer, "trace {count}")?;
            write_event_lines(writer, chart, events)
        }
        None => writer.write_all(b"no trace\n"),
    }
}

/// Writes an execution of a chart under an architecture: the chart's name, the architecture, how
/// the run of each instance ended, and the trace, events of the chart in the order in which they
/// happened, or that there is none. There is an end for each instance.
pub fn write_trace<W: Write>(
    writer: &mut W,
    chart: &Chart,
    queues: Queues,
    ends: &[End],
    trace: Option<&[Event]>,
) -> io::Result<()>
    requires ends { length ends.now ≡ length chart.now.instances }
    requires events { IfSome (option_copied trace) (All (λ e. e < length chart.now.events)) }
    ensures { OnOk result (Appends (W.contents writer.old) (W.contents writer.new)
        (trace_text chart.now queues ends.now (option_copied trace.entry))) }
{
    write_name_line(writer, chart)?;
    write_queues(writer, chart, &queues)?;
    write_end_lines(writer, chart, ends)?;
    write_trace_lines(writer, chart, trace)
}
