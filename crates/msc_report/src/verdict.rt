//! The text of a verdict's head.

ghost use Rattle.std.specs.Prelude.{◌++◌, OnOk};
ghost use Rattle.std.specs.Io.KnownBytes.{Appends};
ghost use Rattle.msc_report.specs.Verdicts.{count_line, name_line, outcome_line};
ghost use Rattle.msc_report.specs.Heads.{head_text, verdict_text};
ghost use Rattle.msc_report.specs.Links.{queues_text};

use crate::links::write_queues;
use msc_chart::{Chart, Queues};
use msc_race::Verdict;
use std::io;
use std::io::Write;

/// Writes the line of a chart's name.
pub fn write_name_line<W: Write>(writer: &mut W, chart: &Chart) -> io::Result<()>
    ensures { OnOk result (Appends (W.contents writer.old) (W.contents writer.new)
        (name_line chart.now)) }
{
    writer.write_all(b"chart ")?;
    writer.write_all(chart.name())?;
    writer.write_all(b"\n")
}

/// Writes the lines of a chart's name and of an architecture.
fn write_lines<W: Write>(writer: &mut W, chart: &Chart, queues: &Queues) -> io::Result<()>
    ensures { OnOk result (Appends (W.contents writer.old) (W.contents writer.new)
        (name_line chart.now ++ queues_text chart.now queues.now)) }
{
    write_name_line(writer, chart)?;
    write_queues(writer, chart, queues)
}

/// Writes whether a chart passes, or how many races it has.
fn write_outcome<W: Write>(writer: &mut W, verdict: &Verdict) -> io::Result<()>
    ensures { OnOk result (Appends (W.contents writer.old) (W.contents writer.new)
        (outcome_line verdict.now)) }
{
    match verdict {
        Verdict::Pass => writer.write_all(b"pass\n"),
        Verdict::Races(races) => {
            let count = races.as_slice().len();
            writeln!(writer, "races {count}")
        }
    }
}

/// Writes the head of a verdict on a chart under an architecture: the chart's name, the
/// architecture, and `pass` or the number of races.
pub fn write_verdict<W: Write>(
    writer: &mut W,
    chart: &Chart,
    queues: Queues,
    verdict: &Verdict,
) -> io::Result<()>
    ensures { OnOk result (Appends (W.contents writer.old) (W.contents writer.new)
        (verdict_text chart.now queues verdict.now)) }
{
    write_lines(writer, chart, &queues)?;
    write_outcome(writer, verdict)
}

/// Writes that a chart passes, if it has no races, or how many it has.
fn write_count<W: Write>(writer: &mut W, count: u32) -> io::Result<()>
    ensures { OnOk result (Appends (W.contents writer.old) (W.contents writer.new)
        (count_line count)) }
{
    if count == 0 {
        return writer.write_all(b"pass\n");
    }
    writeln!(writer, "races {count}")
}

/// Writes the head of a verdict on a chart under an architecture by the number of its races. It is
/// what [`write_verdict`] writes of a verdict with this many races.
pub(crate) fn write_head<W: Write>(
    writer: &mut W,
    chart: &Chart,
    queues: Queues,
    count: u32,
) -> io::Result<()>
    ensures { OnOk result (Appends (W.contents writer.old) (W.contents writer.new)
        (head_text chart.now queues count)) }
{
    write_lines(writer, chart, &queues)?;
    write_count(writer, count)
}
