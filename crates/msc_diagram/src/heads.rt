//! The lines above and below all scenarios, and above the races of one.

ghost use Rattle.std.specs.Prelude.{[], ◌++◌, OnOk, codes, option_map};
ghost use Rattle.std.specs.Fmt.{decimal};
ghost use Rattle.std.specs.Io.KnownBytes.{Appends};
ghost use Rattle.std.specs.List.{flat_map};
ghost use Rattle.msc_report.specs.Texts.{text_line};
ghost use Rattle.msc_diagram.specs.Counts.{counts_text, diagram_end, number_line, option_line};
ghost use Rattle.msc_diagram.specs.Counts.{options_text, pass_line};
ghost use Rattle.msc_diagram.specs.Scenarios.{choices_text, diagram_head, diagram_top};
ghost use Rattle.msc_diagram.specs.Scenarios.{queues_of, scenario_head};

use crate::check::ScenarioCheck;
use crate::numbers::PlaceCounts;
use msc_chart::{Chart, Queues};
use msc_report::{write_queues, write_queues_line};
use std::io;
use std::io::Write;

/// Writes choices, a comma before each.
fn write_more<W: Write>(writer: &mut W, choices: &[usize]) -> io::Result<()>
    ensures { OnOk result (Appends (W.contents writer.old) (W.contents writer.new)
        (flat_map (λ y. codes "," ++ decimal y) choices.now)) }
{
    for choice in choices {
        write!(writer, ",{choice}")?;
    }
    Ok(())
}

/// Writes the choices of a scenario, if it has some.
fn write_choices<W: Write>(writer: &mut W, choices: &[usize]) -> io::Result<()>
    ensures { OnOk result (Appends (W.contents writer.old) (W.contents writer.new)
        (choices_text choices.now)) }
{
    let Some((first, more)) = choices.split_first() else {
        return Ok(());
    };
    write!(writer, " choose {first}")?;
    write_more(writer, more)
}

/// Writes the lines above the first listed race of a scenario: its number, its choices, and the
/// number of all its races.
pub(crate) fn write_scenario_head<W: Write>(
    writer: &mut W,
    number: usize,
    choices: &[usize],
    races: u32,
) -> io::Result<()>
    ensures { OnOk result (Appends (W.contents writer.old) (W.contents writer.new)
        (scenario_head number choices.now races)) }
{
    write!(writer, "scenario {number}")?;
    write_choices(writer, choices)?;
    writer.write_all(b"\n")?;
    writeln!(writer, "races {races}")
}

/// Writes the line of a diagram's name.
fn write_name<W: Write>(writer: &mut W, name: &[u8]) -> io::Result<()>
    ensures { OnOk result (Appends (W.contents writer.old) (W.contents writer.new)
        (codes "diagram " ++ text_line name.now)) }
{
    writer.write_all(b"diagram ")?;
    writer.write_all(name)?;
    writer.write_all(b"\n")
}

/// Writes the lines of an architecture, with the names of a chart's instances if there is one.
fn write_queues_of<W: Write>(
    writer: &mut W,
    first: Option<&Chart>,
    queues: &Queues,
) -> io::Result<()>
    ensures { OnOk result (Appends (W.contents writer.old) (W.contents writer.new)
        (queues_of (option_map (λ chart. chart.now) first.entry) queues.now)) }
{
    match first {
        Some(chart) => write_queues(writer, chart, queues),
        None => write_queues_line(writer, queues),
    }
}

/// Writes the first lines of an answer on a diagram: its name, and the queues, with the names of
/// the instances of its first scenario.
pub fn write_diagram_top<W: Write>(
    writer: &mut W,
    name: &[u8],
    first: Option<&Chart>,
    queues: &Queues,
) -> io::Result<()>
    ensures { OnOk result (Appends (W.contents writer.old) (W.contents writer.new)
        (diagram_top name.now (option_map (λ chart. chart.now) first.entry) queues.now)) }
{
    write_name(writer, name)?;
    write_queues_of(writer, first, queues)
}

/// Writes the lines above all scenarios: the first lines, and their number.
pub(crate) fn write_diagram_head<W: Write>(
    writer: &mut W,
    top: &[u8],
    count: usize,
) -> io::Result<()>
    ensures { OnOk result (Appends (W.contents writer.old) (W.contents writer.new)
        (diagram_head top.now count)) }
{
    writer.write_all(top)?;
    writeln!(writer, "scenarios {count}")
}

/// Writes the line of a word and a number.
fn write_number<W: Write>(writer: &mut W, word: &str, number: u32) -> io::Result<()>
    ensures { OnOk result (Appends (W.contents writer.old) (W.contents writer.new)
        (number_line word.now number)) }
{
    writeln!(writer, "{word}{number}")
}

/// Writes the line of a word and a number, if there is a number.
fn write_option<W: Write>(writer: &mut W, word: &str, number: Option<u32>) -> io::Result<()>
    ensures { OnOk result (Appends (W.contents writer.old) (W.contents writer.new)
        (option_line word.now number)) }
{
    match number {
        Some(number) => write_number(writer, word, number),
        None => Ok(()),
    }
}

/// Writes the numbers of allowed, of accepted and of closest places, if there are such numbers.
fn write_options<W: Write>(writer: &mut W, counts: PlaceCounts) -> io::Result<()>
    ensures { OnOk result (Appends (W.contents writer.old) (W.contents writer.new)
        (options_text counts)) }
{
    write_option(writer, "allowed ", counts.allowed)?;
    write_option(writer, "accepted ", counts.accepted)?;
    write_option(writer, "closest ", counts.closest)
}

/// Writes how many places there are, if options or marks select races and there are some.
pub(crate) fn write_counts<W: Write>(
    writer: &mut W,
    check: ScenarioCheck<'_>,
    counts: PlaceCounts,
) -> io::Result<()>
    ensures { OnOk result (Appends (W.contents writer.old) (W.contents writer.new)
        (counts_text check.entry counts)) }
{
    if !check.chooses() || counts.races == 0 {
        return Ok(());
    }
    write_number(writer, "races ", counts.races)?;
    write_options(writer, counts)
}

/// Writes that a diagram has no race. If parallel branches are drawn one below the other, the line
/// says that this holds for the drawing.
fn write_pass<W: Write>(writer: &mut W, drawn: bool) -> io::Result<()>
    ensures { OnOk result (Appends (W.contents writer.old) (W.contents writer.new)
        (pass_line drawn)) }
{
    if drawn {
        return writer.write_all(b"pass, parallel branches drawn one below the other\n");
    }
    writer.write_all(b"pass\n")
}

/// Writes how many places are listed, and how many scenarios pass.
fn write_listed<W: Write>(writer: &mut W, listed: u32, passed: usize) -> io::Result<()>
    ensures { OnOk result (Appends (W.contents writer.old) (W.contents writer.new)
        (number_line (codes "listed ") listed ++ number_line (codes "passed ") passed)) }
{
    writeln!(writer, "listed {listed}")?;
    writeln!(writer, "passed {passed}")
}

/// Writes that there are no races, what is left out, and the lines of stale marks.
fn write_raceless<W: Write>(
    writer: &mut W,
    drawn: bool,
    counts: PlaceCounts,
    stale: &[u8],
) -> io::Result<()>
    ensures { OnOk result (Appends (W.contents writer.old) (W.contents writer.new)
        ((pass_line drawn ++ options_text counts) ++ stale.now)) }
{
    write_pass(writer, drawn)?;
    write_options(writer, counts)?;
    writer.write_all(stale)
}

/// Writes the lines of stale marks, and then how many places are listed and how many scenarios pass.
fn write_lists<W: Write>(writer: &mut W, stale: &[u8], listed: u32, passed: usize) -> io::Result<()>
    ensures { OnOk result (Appends (W.contents writer.old) (W.contents writer.new)
        (stale.now ++ (number_line (codes "listed ") listed ++ number_line (codes "passed ") passed))) }
{
    writer.write_all(stale)?;
    write_listed(writer, listed, passed)
}

/// Writes the lines below all scenarios: that there are no races, and the lines of stale marks; or
/// these, and then how many places are listed and how many scenarios pass.
pub(crate) fn write_diagram_end<W: Write>(
    writer: &mut W,
    drawn: bool,
    counts: PlaceCounts,
    stale: &[u8],
    passed: usize,
) -> io::Result<()>
    ensures { OnOk result (Appends (W.contents writer.old) (W.contents writer.new)
        (diagram_end drawn counts stale.now passed)) }
{
    if counts.races == 0 {
        return write_raceless(writer, drawn, counts, stale);
    }
    write_lists(writer, stale, counts.listed, passed)
}
