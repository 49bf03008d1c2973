//! The lines that say whether some run keeps the drawing: a run, or the ring of steps by which none
//! does.

ghost use Rattle.std.specs.Prelude.{◌≡◌, ◌<◌, IfOk, OnOk, length, option_map};
ghost use Rattle.std.specs.List.{flat_map};
ghost use Rattle.std.specs.Io.KnownBytes.{Appends};
ghost use Rattle.msc_reason.specs.Named.{AreEventsOf};
ghost use Rattle.msc_report.specs.Following.{follows_text, never_error, never_text, note_text};
ghost use Rattle.msc_report.specs.Following.{ring_steps, steps_text, AreStepsOf};

use crate::lines::write_pair;
use crate::links::write_queues;
use crate::reasons::{step_word, write_run_in, write_step};
use crate::style::Style;
use crate::verdict::write_name_line;
use msc_chart::{Chart, Event, Queues};
use msc_place::EventPositions;
use std::alloc::{AllocError, Global};
use std::io;
use std::io::Write;

/// The steps of a ring of events: from each event to the next, and from the last to the first. An
/// error is a growth of memory that was refused.
pub fn ring_steps(alloc: Global, ring: &[Event]) -> Result<Vec<(Event, Event)>, AllocError>
    ensures { IfOk result (λ steps. steps.items ≡ ring_steps ring.now) }
{
    let mut steps = Vec::new(alloc);
    let Some((first, others)) = ring.split_first() else {
        return Ok(steps);
    };
    let mut from = *first;
    for to in others {
        steps.push((from, *to))?;
        from = *to;
    }
    steps.push((from, *first))?;
    Ok(steps)
}

/// Writes a line for each of these steps, with places if they are printed.
fn write_steps<W: Write>(
    writer: &mut W,
    chart: &Chart,
    event_positions: Option<&EventPositions<'_>>,
    steps: &[(Event, Event)],
) -> io::Result<()>
    requires { AreStepsOf chart.now steps.now }
    ensures { OnOk result (Appends (W.contents writer.old) (W.contents writer.new)
        (steps_text (option_map (λ s. s.now) event_positions.entry) chart.now steps.now)) }
{
    for step in steps {
        write_step(writer, chart, event_positions, "", step.0, step.1)?;
    }
    Ok(())
}

/// Writes that this run keeps the drawing.
pub fn write_follows<W: Write>(
    writer: &mut W,
    chart: &Chart,
    queues: Queues,
    run: &[Event],
    words: bool,
) -> io::Result<()>
    requires { AreEventsOf chart.now run.now }
    ensures { OnOk result (Appends (W.contents writer.old) (W.contents writer.new)
        (follows_text words chart.now queues run.now)) }
{
    write_name_line(writer, chart)?;
    write_queues(writer, chart, &queues)?;
    writer.write_all(b"follows\n")?;
    write_run_in(writer, chart, words, run)
}

/// Writes that no run keeps the drawing, by the steps of a ring.
pub fn write_never<W: Write>(
    writer: &mut W,
    chart: &Chart,
    queues: Queues,
    steps: &[(Event, Event)],
    event_positions: Option<&EventPositions<'_>>,
) -> io::Result<()>
    requires { AreStepsOf chart.now steps.now }
    ensures { OnOk result (Appends (W.contents writer.old) (W.contents writer.new)
        (never_text (option_map (λ s. s.now) event_positions.entry) chart.now queues steps.now)) }
{
    write_name_line(writer, chart)?;
    write_queues(writer, chart, &queues)?;
    writer.write_all(b"never\n")?;
    write_steps(writer, chart, event_positions, steps)
}

/// Writes a step as a note at its first event.
fn write_step_note<W: Write>(
    writer: &mut W,
    chart: &Chart,
    event_positions: &EventPositions<'_>,
    step: (Event, Event),
) -> io::Result<()>
    requires from_known { step.0 < length chart.now.events }
    requires to_known { step.1 < length chart.now.events }
    ensures { OnOk result (Appends (W.contents writer.old) (W.contents writer.new)
        (note_text event_positions.now chart.now step)) }
{
    let (x, y) = step;
    event_positions.write_event_position(writer, x)?;
    writer.write_all(b": note: ")?;
    write_pair(writer, chart, step_word(chart, x, y), x, y)
}

/// Writes the notes of these steps.
fn write_step_notes<W: Write>(
    writer: &mut W,
    chart: &Chart,
    event_positions: &EventPositions<'_>,
    steps: &[(Event, Event)],
) -> io::Result<()>
    requires { AreStepsOf chart.now steps.now }
    ensures { OnOk result (Appends (W.contents writer.old) (W.contents writer.new)
        (flat_map (note_text event_positions.now chart.now) steps.now)) }
{
    for step in steps {
        write_step_note(writer, chart, event_positions, *step)?;
    }
    Ok(())
}

/// Writes for editors that no run keeps the drawing, if there are steps of a ring.
pub(crate) fn write_never_error<W: Write>(
    writer: &mut W,
    chart: &Chart,
    event_positions: &EventPositions<'_>,
    steps: &[(Event, Event)],
) -> io::Result<()>
    requires { AreStepsOf chart.now steps.now }
    ensures { OnOk result (Appends (W.contents writer.old) (W.contents writer.new)
        (never_error event_positions.now chart.now steps.now)) }
{
    let Some((first, _)) = steps.split_first() else {
        return Ok(());
    };
    event_positions.write_event_position(writer, first.0)?;
    writer.write_all(b": error: no run follows the drawing [never]\n")?;
    write_step_notes(writer, chart, event_positions, steps)
}
