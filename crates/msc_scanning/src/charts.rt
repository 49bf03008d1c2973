//! The charts of a scan.

ghost use Rattle.std.specs.Prelude.{◌≡◌, IfErr, IfOk, true};
ghost use Rattle.msc_answer.specs.Own.{SaysInChart};
ghost use Rattle.msc_answer.specs.Refused.{is_spent};
ghost use Rattle.msc_answer.specs.Verdicts.{Yields};
ghost use Rattle.msc_scanning.specs.Charts.{PutsChart, PutsCharted};
ghost use Rattle.msc_scanning.specs.Linking.{asks_own, IsSilentIf, PutsLinked, RefusesLinked};
ghost use Rattle.msc_scanning.specs.Putting.{Gives};

use crate::outcome::Outcome;
use crate::putting::{Target, put_each, spent_fault};
use crate::queues::{KnownLinks, Linked, queues_each};
use crate::refusing::{Origin, put_refusal};
use crate::words::Plan;
use msc_answer::{LinkWords, Refusal, Subject, Task, TextChart, chart_is_silent, names_in};
use msc_report::Fault;
use msc_source::{Language, Source};
use msc_wording::MarkedText;
use std::alloc::Global;
use std::io::Write;

/// The text of a chart, if it is refused. It is read as by `msc read`, so that hints speak of other
/// commands.
fn origin_of<'d>(file: &'d str, text: &'d [u8]) -> Origin<'d>
    ensures file { result.file.now ≡ file.entry.now }
    ensures label { result.label.now ≡ file.entry.now }
    ensures text { result.text.now ≡ text.entry.now }
{
    Origin {
        task: Task::Read(None),
        file,
        label: file.as_bytes(),
        text,
    }
}

/// Whether an architecture of the scan takes the queues that a text names.
pub(crate) fn asks_own(plan: Plan<'_>) -> bool
    ensures { result ≡ asks_own plan.entry }
{
    plan.architectures
        .iter()
        .any(|architecture| architecture.own)
}

/// Whether the scan takes the queues that texts name, and the text of this chart names none.
/// `queues_each` has refused a text whose words on queues cannot be read.
fn is_silent(alloc: Global, plan: Plan<'_>, text: &[u8]) -> Result<bool, Fault>
    ensures silent { IfOk result (IsSilentIf (asks_own plan.entry) (SaysInChart text.now)) }
    ensures spent { IfErr result (λ fault. is_spent (Refusal.Fault fault) ≡ true) }
{
    if !asks_own(plan) {
        return Ok(false);
    }
    match chart_is_silent(alloc, text) {
        Ok(silent) => Ok(silent),
        Err(refusal) => Err(spent_fault(refusal)),
    }
}

/// Writes the verdicts on the chart of a text, by these rules of the command line.
fn check_chart<'t, O: Write>(
    alloc: Global,
    plan: Plan<'_>,
    target: Target<'_, '_>,
    links: LinkWords<'t>,
    source: &TextChart<'t, '_>,
    output: &mut O,
) -> Result<Outcome, Refusal<'t>>
    ensures { Yields O.contents (PutsLinked plan.entry target.entry links.entry (Linked.Chart source.entry)
        (SaysInChart source.now.text)) (RefusesLinked plan.entry target.entry links.entry
        (Linked.Chart source.entry)) result output.old output.new }
{
    let queues = queues_each(alloc, plan.architectures, links, Linked::Chart(source))?;
    let silent = match is_silent(alloc, plan, source.text()) {
        Ok(silent) => silent,
        Err(fault) => return Err(Refusal::Fault(fault)),
    };
    put_each(alloc, plan, target, silent, queues.as_slice(), output)
}

/// Writes the verdicts on the chart of a text, or its refusal.
fn put_charted<'d, O: Write>(
    alloc: Global,
    plan: Plan<'_>,
    file: &'d str,
    source: &'d TextChart<'d, 'd>,
    output: &mut O,
) -> Result<Outcome, Fault>
    ensures { Gives O.contents (PutsCharted plan.entry file.entry.now source.entry) result
        output.old output.new }
{
    let chart = source.chart();
    chart.facts();
    let names = names_in(alloc, chart)?;
    let known = KnownLinks::of(alloc, names.as_slice(), plan.args.words.links)?;
    let target = Target {
        subject: Subject::Chart(source),
        file,
        label: file.as_bytes(),
        help: MarkedText::Chart,
    };
    match check_chart(alloc, plan, target, known.words(), source, output) {
        Ok(outcome) => Ok(outcome),
        Err(refusal) => {
            let origin = origin_of(file, source.text());
            put_refusal(alloc, plan, origin, refusal, output)
        }
    }
}

/// Writes the verdicts on a text that is read as a chart, or its refusal.
pub(crate) fn put_chart<O: Write>(
    alloc: Global,
    plan: Plan<'_>,
    file: &str,
    text: &[u8],
    output: &mut O,
) -> Result<Outcome, Fault>
    ensures { Gives O.contents (PutsChart plan.entry file.now text.now) result
        output.old output.new }
{
    match Source::of(alloc, Language::MscPr, text) {
        Ok(source) => put_charted(alloc, plan, file, &TextChart::of_source(source), output),
        Err(fault) => {
            let refusal = Refusal::Fault(fault.into());
            put_refusal(alloc, plan, origin_of(file, text), refusal, output)
        }
    }
}
