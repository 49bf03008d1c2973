//! The sequence diagrams of a scan.

ghost use Rattle.std.specs.Prelude.{◌≡◌, IfErr, IfOk, None, Ok, Some, true};
ghost use Rattle.msc_answer.specs.Own.{said_in};
ghost use Rattle.msc_answer.specs.Refused.{is_spent};
ghost use Rattle.msc_answer.specs.Scenarios.{with_fence, IsDiagramOf, IsFirst};
ghost use Rattle.msc_answer.specs.Verdicts.{Yields};
ghost use Rattle.msc_markdown.specs.Markdowns.{markdown};
ghost use Rattle.msc_answer.specs.Charting.{AreCharts};
ghost use Rattle.msc_scanning.specs.Diagrams.{name_at, PutsAll, PutsDiagram, PutsDrawn, PutsRead};
ghost use Rattle.msc_scanning.specs.Diagrams.{PutsScenarios, RefusesDrawn};
ghost use Rattle.msc_scanning.specs.Linking.{asks_own, IsSilentIf};
ghost use Rattle.msc_scanning.specs.Putting.{Gives};

use crate::charts::asks_own;
use crate::outcome::Outcome;
use crate::putting::{Target, put_each, spent_fault};
use crate::queues::{KnownLinks, Linked, queues_each};
use crate::refusing::{Origin, put_refusal};
use crate::words::Plan;
use msc_answer::{
    Charts, DiagramText, LinkWords, Refusal, ScenarioArgs, Subject, Task, Told, block_line,
    diagram_at, diagram_is_silent, diagram_of, marks_of_diagram, names_of, numbered, of_block,
    scenarios_of,
};
use msc_diagram::{Scenario, Source};
use msc_findings::Following;
use msc_import::Scenarios;
use msc_import_laws::laws::imports_are_charts;
use msc_markdown::Markdown;
use msc_print::Page;
use msc_report::Fault;
use msc_wording::MarkedText;
use std::alloc::{AllocError, Global};
use std::io::Write;

/// A sequence diagram of a file.
#[derive(Clone, Copy)]
pub(crate) struct Site<'d> {
    /// The words of its check, without its number.
    pub words: ScenarioArgs<'d>,
    pub diagram: DiagramText<'d>,
    /// The name of the file, with the number of the diagram in Markdown.
    pub label: &'d [u8],
    /// The number of the diagram in Markdown.
    pub number: Option<usize>,
}

/// A diagram with its name and its scenarios.
#[derive(Clone, Copy)]
struct Drawn<'d, 'c> {
    site: Site<'d>,
    /// The name of the diagram.
    name: &'d [u8],
    /// Whether parallel branches are drawn one below the other.
    drawn: bool,
    charts: &'d Charts<'c>,
}

/// The words for the diagram with this number, if one is given.
fn at_number(words: ScenarioArgs<'_>, number: Option<usize>) -> ScenarioArgs<'_> {
    match number {
        Some(number) => of_block(words, number),
        None => words,
    }
}

/// The text of a diagram, if it is refused.
fn origin_of<'d>(
    words: ScenarioArgs<'d>,
    file: &'d str,
    label: &'d [u8],
    text: &'d [u8],
    number: Option<usize>,
) -> Origin<'d>
    ensures file { result.file.now ≡ file.entry.now }
    ensures label { result.label.now ≡ label.entry.now }
    ensures text { result.text.now ≡ text.entry.now }
{
    Origin {
        task: Task::Scenarios(at_number(words, number)),
        file,
        label,
        text,
    }
}

/// Whether the scan takes the queues that texts name, and this diagram names none. `queues_each` has
/// refused a diagram whose words on queues cannot be read.
fn is_silent(alloc: Global, plan: Plan<'_>, diagram: DiagramText<'_>) -> Result<bool, Fault>
    ensures silent { IfOk result (IsSilentIf (asks_own plan.entry)
        (λ said. said ≡ said_in diagram.entry.text.now diagram.entry.diagram.now.comments)) }
    ensures spent { IfErr result (λ fault. is_spent (Refusal.Fault fault) ≡ true) }
{
    if !asks_own(plan) {
        return Ok(false);
    }
    let comments = diagram.diagram.comments.as_slice();
    match diagram_is_silent(alloc, diagram.text, comments) {
        Ok(silent) => Ok(silent),
        Err(refusal) => Err(spent_fault(refusal)),
    }
}

/// Writes the verdicts on the scenarios of a diagram, by these rules of the command line.
fn check_drawn<'t, O: Write>(
    alloc: Global,
    plan: Plan<'_>,
    drawn: Drawn<'t, '_>,
    first: &Scenario<'_>,
    links: LinkWords<'t>,
    output: &mut O,
) -> Result<Outcome, Refusal<'t>>
    ensures { Yields O.contents (PutsDrawn plan.entry drawn.entry first.entry links.entry)
        (RefusesDrawn plan.entry drawn.entry first.entry links.entry) result
        output.old output.new }
{
    let Site {
        words,
        diagram,
        label,
        ..
    } = drawn.site;
    let linked = Linked::Diagram(diagram.text, first);
    let queues = queues_each(alloc, plan.architectures, links, linked)?;
    let marks = marks_of_diagram(
        alloc,
        words.check_args.accept,
        diagram.text,
        diagram.diagram,
    )?;
    let silent = match is_silent(alloc, plan, diagram) {
        Ok(silent) => silent,
        Err(fault) => return Err(Refusal::Fault(fault)),
    };
    let told = Told {
        diagram,
        name: drawn.name,
        counted: label,
        drawn: drawn.drawn,
        marks: marks.as_ref(),
        chosen: words.choose.is_some(),
        following: Following::Blank,
    };
    let target = Target {
        subject: Subject::Diagram(told, drawn.charts),
        file: diagram.file,
        label,
        help: MarkedText::Diagram,
    };
    put_each(alloc, plan, target, silent, queues.as_slice(), output)
}

/// Writes the verdicts on the scenarios of a diagram, or its refusal; `first` is the first of them.
fn put_drawn<O: Write>(
    alloc: Global,
    plan: Plan<'_>,
    drawn: Drawn<'_, '_>,
    first: &Scenario<'_>,
    output: &mut O,
) -> Result<Outcome, Fault>
    requires { IsFirst drawn.charts.now first.now }
    ensures { Gives O.contents (PutsScenarios plan.entry drawn.entry) result output.old output.new }
{
    let Site {
        words,
        diagram,
        label,
        number,
    } = drawn.site;
    first.chart.facts();
    let names = names_of(alloc, diagram.text, &first.spans, &first.chart)?;
    let known = KnownLinks::of(alloc, names.as_slice(), plan.args.words.links)?;
    match check_drawn(alloc, plan, drawn, first, known.words(), output) {
        Ok(outcome) => Ok(outcome),
        Err(refusal) => {
            let origin = origin_of(words, diagram.file, label, diagram.text, number);
            put_refusal(alloc, plan, origin, refusal, output)
        }
    }
}

/// The name of a diagram, with its number in Markdown.
fn name_at(alloc: Global, name: &[u8], number: Option<usize>) -> Result<Page, AllocError>
    ensures { IfOk result (λ page. page.bytes.items ≡ name_at name.now number) }
{
    match number {
        Some(number) => numbered(alloc, name, number),
        None => {
            let bytes = Vec::from_slice(alloc, name)?;
            Ok(Page { bytes })
        }
    }
}

/// Writes the verdicts on these scenarios of a diagram, or its refusal.
fn put_charts<O: Write>(
    alloc: Global,
    plan: Plan<'_>,
    drawn: Drawn<'_, '_>,
    output: &mut O,
) -> Result<Outcome, Fault>
    ensures { Gives O.contents (PutsScenarios plan.entry drawn.entry) result output.old output.new }
{
    if drawn.charts.len() == 0 {
        return Err(Fault::Memory);
    }
    let first = drawn.charts.scenario(alloc, 0)?;
    put_drawn(alloc, plan, drawn, first.get(), output)
}

/// Writes the verdicts on the scenarios that were read from a diagram, or its refusal.
fn put_scenarios<O: Write>(
    alloc: Global,
    plan: Plan<'_>,
    site: Site<'_>,
    all: Scenarios<'_>,
    output: &mut O,
) -> Result<Outcome, Fault>
    requires { AreCharts all.list }
    ensures { Gives O.contents (PutsAll plan.entry site.entry all.entry) result
        output.old output.new }
{
    let charts = Charts::of(alloc, site.diagram.file, all.list)?;
    let name = name_at(alloc, all.name.as_slice(), site.number)?;
    let drawn = Drawn {
        site,
        name: name.bytes.as_slice(),
        drawn: all.drawn,
        charts: &charts,
    };
    put_charts(alloc, plan, drawn, output)
}

/// Writes the verdicts on a diagram, or its refusal.
fn put_read<O: Write>(
    alloc: Global,
    plan: Plan<'_>,
    site: Site<'_>,
    output: &mut O,
) -> Result<Outcome, Fault>
    requires { IsDiagramOf (with_fence site.number site.words) site.diagram.text.now
        (Ok site.diagram.diagram.now) }
    ensures { Gives O.contents (PutsRead plan.entry site.entry) result output.old output.new }
{
    imports_are_charts();
    let Site {
        words,
        diagram,
        label,
        number,
    } = site;
    match scenarios_of(alloc, words, diagram.diagram) {
        Ok(all) => put_scenarios(alloc, plan, site, all, output),
        Err(refusal) => {
            let origin = origin_of(words, diagram.file, label, diagram.text, number);
            put_refusal(alloc, plan, origin, refusal, output)
        }
    }
}

/// Writes the verdicts on a text that is a sequence diagram as a whole, or its refusal.
pub(crate) fn put_diagram<O: Write>(
    alloc: Global,
    plan: Plan<'_>,
    words: ScenarioArgs<'_>,
    file: &str,
    text: &[u8],
    output: &mut O,
) -> Result<Outcome, Fault>
    requires { words.diagram.fence ≡ None }
    ensures { Gives O.contents (PutsDiagram plan.entry words.entry file.now text.now None) result
        output.old output.new }
{
    let label = file.as_bytes();
    match diagram_of(alloc, words, text) {
        Ok(diagram) => {
            let diagram = DiagramText {
                file,
                text,
                diagram: &diagram,
                line: None,
            };
            let site = Site {
                words,
                diagram,
                label,
                number: None,
            };
            put_read(alloc, plan, site, output)
        }
        Err(refusal) => {
            let origin = origin_of(words, file, label, text, None);
            put_refusal(alloc, plan, origin, refusal, output)
        }
    }
}

/// Writes the verdicts on the sequence diagram with this number in Markdown, or its refusal.
pub(crate) fn put_block<O: Write>(
    alloc: Global,
    plan: Plan<'_>,
    words: ScenarioArgs<'_>,
    file: &str,
    found: &Markdown<'_>,
    number: usize,
    output: &mut O,
) -> Result<Outcome, Fault>
    requires { markdown found.now.text ≡ Ok found.now }
    ensures { Gives O.contents (PutsDiagram plan.entry words.entry file.now found.now.text (Some number))
        result output.old output.new }
{
    let text = found.text();
    let label = numbered(alloc, file.as_bytes(), number)?;
    let label = label.bytes.as_slice();
    match diagram_at(alloc, words, found, number) {
        Ok(diagram) => {
            let diagram = DiagramText {
                file,
                text,
                diagram: &diagram,
                line: block_line(found, number),
            };
            let site = Site {
                words,
                diagram,
                label,
                number: Some(number),
            };
            put_read(alloc, plan, site, output)
        }
        Err(refusal) => {
            let origin = origin_of(words, file, label, text, Some(number));
            put_refusal(alloc, plan, origin, refusal, output)
        }
    }
}
