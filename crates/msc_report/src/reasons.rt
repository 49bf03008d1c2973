//! The lines of a reason why an event is enforced before another, or is not.

ghost use Rattle.std.specs.Prelude.{◌≡◌, ◌<◌, MatchOption, OnOk, length, option_map};
ghost use Rattle.std.specs.Io.KnownBytes.{Appends};
ghost use Rattle.msc_reason.specs.Named.{AreEventsOf, NamesAll, NamesCause, NamesSteps};
ghost use Rattle.msc_report.specs.Lines.{pair_text};
ghost use Rattle.msc_report.specs.Reasons.{chain_text, explained_text, free_text, late_text};
ghost use Rattle.msc_report.specs.Reasons.{reason_text, showing_text, step_word, NamesRun};
ghost use Rattle.msc_report.specs.Styles.{run_text};

use crate::lines::{write_placed_pair, write_why};
use crate::links::write_queues;
use crate::race::{write_race, write_run};
use crate::style::{Style, write_at};
use crate::trace::write_steps;
use crate::verdict::write_name_line;
use msc_chart::{Chart, Event, Queues};
use msc_place::EventPositions;
use msc_reason::{Cause, Reason, Why};
use std::io;
use std::io::Write;

/// The word for a step: `to` is the input of `from`, or is drawn below it, or `from` has to be ahead
/// of it in their queue.
pub(crate) fn step_word(chart: &Chart, from: Event, to: Event) -> &'static str
    requires from_known { from < length chart.now.events }
    requires to_known { to < length chart.now.events }
    ensures { result.now ≡ step_word chart.now from to }
{
    if chart.is_output(from) && chart.other_end(from) == to {
        "sent"
    } else if chart.before(from, to) {
        "drawn"
    } else {
        "ahead"
    }
}

/// Writes the line of a step after `blanks`.
pub(crate) fn write_step<W: Write>(
    writer: &mut W,
    chart: &Chart,
    event_positions: Option<&EventPositions<'_>>,
    blanks: &str,
    from: Event,
    to: Event,
) -> io::Result<()>
    requires from_known { from < length chart.now.events }
    requires to_known { to < length chart.now.events }
    ensures { OnOk result (Appends (W.contents writer.old) (W.contents writer.new)
        (pair_text (option_map (λ s. s.now) event_positions.entry) blanks.now
        (step_word chart.now from to) chart.now from to)) }
{
    let word = step_word(chart, from, to);
    write_placed_pair(writer, chart, event_positions, blanks, word, from, to)
}

/// Writes a chain from an event on, a line for each step.
fn write_chain<W: Write>(
    writer: &mut W,
    chart: &Chart,
    event_positions: Option<&EventPositions<'_>>,
    blanks: &str,
    first: Event,
    steps: &[Event],
) -> io::Result<()>
    requires first_known { first < length chart.now.events }
    requires steps_known { AreEventsOf chart.now steps.now }
    ensures { OnOk result (Appends (W.contents writer.old) (W.contents writer.new)
        (chain_text (option_map (λ s. s.now) event_positions.entry) blanks.now chart.now first
        steps.now)) }
{
    let mut from = first;
    for to in steps {
        write_step(writer, chart, event_positions, blanks, from, *to)?;
        from = *to;
    }
    Ok(())
}

/// Writes the steps by which `e` is enforced before another event.
fn write_shown<W: Write>(
    writer: &mut W,
    chart: &Chart,
    event_positions: Option<&EventPositions<'_>>,
    e: Event,
    why: &Why,
) -> io::Result<()>
    requires known { e < length chart.now.events }
    requires named { NamesSteps chart.now why.now }
    ensures { OnOk result (Appends (W.contents writer.old) (W.contents writer.new)
        (showing_text (option_map (λ s. s.now) event_positions.entry) chart.now e why.now)) }
{
    match why {
        Why::Straight(steps) => write_chain(
            writer,
            chart,
            event_positions,
            "",
            e,
            steps.as_slice(),
        ),
        Why::ByQueue(u, outputs, onward) => {
            write_placed_pair(writer, chart, event_positions, "", "queue", e, *u)?;
            let output = chart.other_end(e);
            write_chain(
                writer,
                chart,
                event_positions,
                "  ",
                output,
                outputs.as_slice(),
            )?;
            write_chain(writer, chart, event_positions, "", *u, onward.as_slice())
        }
    }
}

/// Writes that `e` is not enforced before `f`, and why, if the pair is a race.
fn write_free<W: Write>(
    writer: &mut W,
    chart: &Chart,
    event_positions: Option<&EventPositions<'_>>,
    e: Event,
    f: Event,
    cause: Option<Cause>,
) -> io::Result<()>
    requires e_known { e < length chart.now.events }
    requires f_known { f < length chart.now.events }
    requires named { MatchOption cause (Unit {0}) (NamesCause chart.now) }
    ensures { OnOk result (Appends (W.contents writer.old) (W.contents writer.new)
        (free_text (option_map (λ s. s.now) event_positions.entry) chart.now e f cause)) }
{
    match cause {
        Some(cause) => {
            write_race(writer, chart, e, f, None)?;
            write_at(writer, event_positions, "", e, f)?;
            write_why(writer, chart, &cause, event_positions)
        }
        None => write_placed_pair(writer, chart, event_positions, "", "free", e, f),
    }
}

/// Writes that `f` is enforced before `e`, if it is.
fn write_late<W: Write>(
    writer: &mut W,
    chart: &Chart,
    event_positions: Option<&EventPositions<'_>>,
    e: Event,
    f: Event,
    late: &Option<Why>,
) -> io::Result<()>
    requires known { f < length chart.now.events }
    requires named { MatchOption late.now (Unit {0}) (NamesSteps chart.now) }
    ensures { OnOk result (Appends (W.contents writer.old) (W.contents writer.new)
        (late_text (option_map (λ s. s.now) event_positions.entry) chart.now e f late.now)) }
{
    match late {
        Some(why) => {
            writeln!(writer, "always {f} {e}")?;
            write_shown(writer, chart, event_positions, f, why)
        }
        None => Ok(()),
    }
}

/// Writes a run of the chart's events: by their numbers, or in words, a line for each event.
pub(crate) fn write_run_in<W: Write>(
    writer: &mut W,
    chart: &Chart,
    words: bool,
    run: &[Event],
) -> io::Result<()>
    requires { AreEventsOf chart.now run.now }
    ensures { OnOk result (Appends (W.contents writer.old) (W.contents writer.new)
        (run_text words chart.now run.now)) }
{
    if words {
        return write_steps(writer, chart, run);
    }
    write_run(writer, run)
}

/// Writes why `e` is enforced before `f`, or that it is not, with a run that has `f` before it.
fn write_reason<W: Write>(
    writer: &mut W,
    chart: &Chart,
    e: Event,
    f: Event,
    reason: &Reason,
    style: Style<'_>,
) -> io::Result<()>
    requires e_known { e < length chart.now.events }
    requires f_known { f < length chart.now.events }
    requires named { NamesAll chart.now reason.now }
    requires run { NamesRun chart.now reason.now }
    ensures { OnOk result (Appends (W.contents writer.old) (W.contents writer.new)
        (reason_text style.entry chart.now e f reason.now)) }
{
    let event_positions = style.event_positions;
    match reason {
        Reason::Enforced(why) => {
            write_placed_pair(writer, chart, event_positions, "", "enforced", e, f)?;
            write_shown(writer, chart, event_positions, e, why)
        }
        Reason::Free(run, cause, late) => {
            write_free(writer, chart, event_positions, e, f, *cause)?;
            write_late(writer, chart, event_positions, e, f, late)?;
            write_run_in(writer, chart, style.words, run.as_slice())
        }
    }
}

/// Writes the explanation of two events of a chart.
pub fn write_explained<W: Write>(
    writer: &mut W,
    chart: &Chart,
    queues: Queues,
    e: Event,
    f: Event,
    reason: &Reason,
    style: Style<'_>,
) -> io::Result<()>
    requires e_known { e < length chart.now.events }
    requires f_known { f < length chart.now.events }
    requires named { NamesAll chart.now reason.now }
    requires run { NamesRun chart.now reason.now }
    ensures { OnOk result (Appends (W.contents writer.old) (W.contents writer.new)
        (explained_text style.entry chart.now queues e f reason.now)) }
{
    write_name_line(writer, chart)?;
    write_queues(writer, chart, &queues)?;
    write_reason(writer, chart, e, f, reason, style)
}
