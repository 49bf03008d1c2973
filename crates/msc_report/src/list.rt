//! The list of a chart's events.

ghost use Rattle.std.specs.Prelude.{OnOk, length, option_map, ◌<◌};
ghost use Rattle.std.specs.Io.KnownBytes.{Appends};
ghost use Rattle.msc_report.specs.Lists.{listed_below, listed_event, listed_text};

use crate::style::write_event_position;
use crate::trace::write_event_line;
use crate::verdict::write_name_line;
use msc_chart::{Chart, Event};
use msc_place::EventPositions;
use std::io;
use std::io::Write;

/// Writes the line of an event, and that of its place, if places are printed.
fn write_listed<W: Write>(
    writer: &mut W,
    chart: &Chart,
    event_positions: Option<&EventPositions<'_>>,
    e: Event,
) -> io::Result<()>
    requires { e < length chart.now.events }
    ensures { OnOk result (Appends (W.contents writer.old) (W.contents writer.new)
        (listed_event chart.now (option_map (λ s. s.now) event_positions.entry) e)) }
{
    write_event_line(writer, chart, e)?;
    write_event_position(writer, event_positions, e)
}

/// Writes the lines of all events of a chart, in their order.
fn write_all_listed<W: Write>(
    writer: &mut W,
    chart: &Chart,
    event_positions: Option<&EventPositions<'_>>,
) -> io::Result<()>
    ensures { OnOk result (Appends (W.contents writer.old) (W.contents writer.new)
        (listed_below chart.now (option_map (λ s. s.now) event_positions.entry)
        (length chart.now.events))) }
{
    for e in 0..chart.events() {
        write_listed(writer, chart, event_positions, e)?;
    }
    Ok(())
}

/// Writes the name of a chart, the number of its events, and for each of them a line, in their
/// order: its number, the name of its instance, and what it does; and its place, if places are
/// printed.
pub fn write_list<W: Write>(
    writer: &mut W,
    chart: &Chart,
    event_positions: Option<&EventPositions<'_>>,
) -> io::Result<()>
    ensures { OnOk result (Appends (W.contents writer.old) (W.contents writer.new)
        (listed_text chart.now (option_map (λ s. s.now) event_positions.entry))) }
{
    write_name_line(writer, chart)?;
    let events = chart.events();
    writeln!(writer, "events {events}")?;
    write_all_listed(writer, chart, event_positions)
}
