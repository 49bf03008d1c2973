//! Verdicts: the check of a chart, or of all scenarios of a diagram, under an architecture.

ghost use Rattle.std.specs.Prelude.{◌≡◌, ◌||◌, false, nat_lt};
ghost use Rattle.msc_answer.specs.Verdicts.{has_races, of_chart, of_diagram, under_queues};
ghost use Rattle.msc_answer.specs.Verdicts.{PrintsVerdict, RefusesVerdict, Yields};

use crate::chart_answers::{Checked, check_races};
use crate::ending::{Refusal, Status, ended_by};
use crate::scenarios::{Charts, Surveyed, Told, tell};
use crate::tasks::{CheckArgs, ScenarioArgs};
use crate::text_chart::TextChart;
use msc_chart::Queues;
use msc_judge::Totals;
use std::alloc::Global;
use std::io::Write;

/// What is checked: the chart of a text, or all scenarios of a diagram.
#[derive(Clone, Copy)]
pub enum Subject<'d, 'c> {
    Chart(&'d TextChart<'d, 'd>),
    Diagram(Told<'d>, &'d Charts<'c>),
}

/// What a check under an architecture found.
#[derive(Clone, Copy)]
pub struct Verdict {
    /// `Races` for races that count or for stale marks, otherwise `Done`.
    pub status: Status,
    /// Whether some race counts.
    pub races: bool,
    /// Whether closest races are listed, in formats that count them.
    pub listed: bool,
    /// The number of races that marks accept.
    pub accepted: u32,
    /// Whether marks are used, and the text has one.
    pub marked: bool,
    /// Whether no run keeps the drawing of the chart, in formats that say so.
    pub never: bool,
}

/// Whether some race counts, of one round or between two.
fn has_races(totals: Totals) -> bool
    ensures { result ≡ has_races totals }
{
    0 < totals.heading.counting || 0 < totals.between.unwrap_or(0)
}

/// The verdict of a check of a chart that found this.
fn of_chart(one: Checked) -> Verdict
    ensures { result ≡ of_chart one }
{
    let Totals { heading, .. } = one.judged.totals;
    Verdict {
        status: ended_by(one.judged.totals.passes()),
        races: has_races(one.judged.totals),
        listed: 0 < heading.closest.unwrap_or(0),
        accepted: heading.accepted.unwrap_or(0),
        marked: one.marked,
        never: one.judged.never,
    }
}

/// The verdict of a check of a diagram that found this.
fn of_diagram(one: Surveyed) -> Verdict
    ensures { result ≡ of_diagram one }
{
    Verdict {
        status: one.status,
        races: 0 < one.listed,
        listed: 0 < one.listed,
        accepted: one.accepted,
        marked: one.marked,
        never: false,
    }
}

/// The same words under another architecture.
fn under_queues(words: ScenarioArgs<'_>, queues: Queues) -> ScenarioArgs<'_>
    ensures check_args { result.check_args ≡ under_queues queues words.entry.check_args }
    ensures quiet { result.quiet ≡ words.entry.quiet }
{
    ScenarioArgs {
        check_args: CheckArgs {
            queues,
            ..words.check_args
        },
        ..words
    }
}

/// Prints the verdict on a subject of the file of this name under an architecture.
pub fn check_under<O: Write>(
    alloc: Global,
    words: ScenarioArgs<'_>,
    file: &str,
    subject: Subject<'_, '_>,
    queues: Queues,
    output: &mut O,
) -> Result<Verdict, Refusal<'static>>
    requires { words.quiet ≡ false }
    ensures { Yields O.contents
        (PrintsVerdict words.entry.check_args queues file.now subject.entry)
        (RefusesVerdict words.entry.check_args queues subject.entry)
        result output.old output.new }
{
    let words = under_queues(words, queues);
    match subject {
        Subject::Chart(source) => {
            let checked = check_races(alloc, words.check_args, file, source, output)?;
            Ok(of_chart(checked))
        }
        Subject::Diagram(told, charts) => {
            let surveyed = tell(alloc, words, told, charts, output)?;
            Ok(of_diagram(surveyed))
        }
    }
}
