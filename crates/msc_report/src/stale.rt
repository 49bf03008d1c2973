//! The lines of marks that accept no race.

ghost use Rattle.std.specs.Prelude.{◌<◌, OnOk, length, option_map};
ghost use Rattle.std.specs.Io.KnownBytes.{Appends};
ghost use Rattle.msc_reason.specs.Named.{AreEventsOf};
ghost use Rattle.msc_report.specs.Stale.{stale_line, stale_lines, stale_warning, stale_warnings};
ghost use Rattle.msc_report.specs.Stale.{stale_words};

use crate::race::{write_event, write_instance};
use crate::style::write_event_position;
use msc_chart::{Chart, Event};
use msc_place::EventPositions;
use std::io;
use std::io::Write;

/// Writes the event of a mark that accepts no race, the name of its instance, and what it does.
fn write_stale_words<W: Write>(writer: &mut W, chart: &Chart, e: Event) -> io::Result<()>
    requires { e < length chart.now.events }
    ensures { OnOk result (Appends (W.contents writer.old) (W.contents writer.new)
        (stale_words chart.now e)) }
{
    chart.facts();
    write!(writer, "stale {e} on ")?;
    write_instance(writer, chart, chart.instance_of(e))?;
    writer.write_all(b": ")?;
    write_event(writer, chart, e)
}

/// Writes the line of such an event, and that of its place, if places are printed.
fn write_stale<W: Write>(
    writer: &mut W,
    chart: &Chart,
    event_positions: Option<&EventPositions<'_>>,
    e: Event,
) -> io::Result<()>
    requires { e < length chart.now.events }
    ensures { OnOk result (Appends (W.contents writer.old) (W.contents writer.new)
        (stale_line (option_map (λ s. s.now) event_positions.entry) chart.now e)) }
{
    write_stale_words(writer, chart, e)?;
    writer.write_all(b"\n")?;
    write_event_position(writer, event_positions, e)
}

/// Writes the lines of all such events.
pub(crate) fn write_stale_lines<W: Write>(
    writer: &mut W,
    chart: &Chart,
    event_positions: Option<&EventPositions<'_>>,
    events: &[Event],
) -> io::Result<()>
    requires { AreEventsOf chart.now events.now }
    ensures { OnOk result (Appends (W.contents writer.old) (W.contents writer.new)
        (stale_lines (option_map (λ s. s.now) event_positions.entry) chart.now events.now)) }
{
    for event in events {
        write_stale(writer, chart, event_positions, *event)?;
    }
    Ok(())
}

/// Writes the line of such an event for editors.
fn write_stale_warning<W: Write>(
    writer: &mut W,
    chart: &Chart,
    event_positions: &EventPositions<'_>,
    e: Event,
) -> io::Result<()>
    requires { e < length chart.now.events }
    ensures { OnOk result (Appends (W.contents writer.old) (W.contents writer.new)
        (stale_warning event_positions.now chart.now e)) }
{
    event_positions.write_event_position(writer, e)?;
    writer.write_all(b": warning: ")?;
    write_stale_words(writer, chart, e)?;
    writer.write_all(b" [stale]\n")
}

/// Writes the lines of all such events for editors.
pub(crate) fn write_stale_warnings<W: Write>(
    writer: &mut W,
    chart: &Chart,
    event_positions: &EventPositions<'_>,
    events: &[Event],
) -> io::Result<()>
    requires { AreEventsOf chart.now events.now }
    ensures { OnOk result (Appends (W.contents writer.old) (W.contents writer.new)
        (stale_warnings event_positions.now chart.now events.now)) }
{
    for event in events {
        write_stale_warning(writer, chart, event_positions, *event)?;
    }
    Ok(())
}
