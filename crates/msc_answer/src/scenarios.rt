//! Checks of all scenarios of a diagram, or of a chosen one.

ghost use Rattle.std.specs.Prelude.{◌≡◌, ◌++◌, ◌∷◌, [], map, option_map, IfOk, List, Ok, OnOk, Option, ℕ};
ghost use Rattle.msc_import.specs.Importing.{read};
ghost use Rattle.msc_import.specs.Whole.{reading_of_all};
ghost use Rattle.msc_diagram.specs.Scenarios.{diagram_top, first_chart};
ghost use Rattle.msc_answer.specs.Answering.{AnswersWith};
ghost use Rattle.msc_answer.specs.Importing.{reading_in};
ghost use Rattle.msc_answer.specs.Charting.{with_chart, AreCharts};
ghost use Rattle.msc_answer.specs.ShownDiagrams.{IsShownDiagram};
ghost use Rattle.msc_answer.specs.Scenarios.{BeginsScenarios, IsCharted, IsFormatOf};
ghost use Rattle.msc_answer.specs.Scenarios.{wanted_of, with_fence, IsDiagramOf};
ghost use Rattle.msc_answer.specs.Scenarios.{IsImportOfAll, PrintsScenarios, RefusesScenarios};
ghost use Rattle.msc_answer.specs.Scenarios.{top_in, BeginsAll, IsFirst, IsLinkedArgs, PrintsAll};
ghost use Rattle.msc_answer.specs.Scenarios.{TellsFormat};
ghost use Rattle.msc_answer.specs.Scenarios.{check_of, surveyed_of, AreAccepted, AreUsed, PrintsCounted};

use crate::arrow_marks::marks_of_diagram;
use crate::choices::rounds_of;
use crate::ending::{Refusal, Status, ended_by};
use crate::importing::{chart_of, fence_of, given_choices};
use crate::links::queues_of_diagram;
use crate::shown_diagram::{DiagramText, ShownDiagram, line_in};
use crate::tasks::{CheckArgs, DiagramArgs, Format, ScenarioArgs};
use msc_arrow_marks::{AcceptedArrows, DiagramMarks};
use msc_chart::{Chart, Queues};
use msc_diagram::{
    DiagramFormat, DiagramStyle, FullDiagram, Judged, Lent, Scenario, ScenarioCheck, Source,
    UsedMarks, has_marks, judge_scenarios, scenarios_pass, write_diagram_top,
};
use msc_findings::Following;
use msc_import::laws::reading_comes_first;
use msc_import::{
    DiagramReading, Drawings, ImportingAll, Scenario as Drawn, Scenarios, draw_all, read,
};
use msc_import_laws::laws::imports_are_charts;
use msc_mermaid::Diagram;
use msc_place::EventPositions;
use msc_print::{Page, WriteFault};
use msc_shown_diagram::LentDiagram;
use std::alloc::{AllocError, Global};
use std::io::Write;
use std::marker::Model;

/// What the check of a diagram found.
#[derive(Clone, Copy)]
pub struct Surveyed {
    pub status: Status,
    /// The number of its listed races.
    pub listed: u32,
    /// The number of races that marks accept; 0 if marks are not used or the format does not need it.
    pub accepted: u32,
    /// Whether marks are used, and the diagram has one.
    pub marked: bool,
}

/// Which diagram of a text is read, and how.
pub(crate) fn reading_of(words: DiagramArgs<'_>) -> DiagramReading
    ensures { result ≡ reading_in words.entry }
{
    DiagramReading {
        language: words.language,
        fence: fence_of(words.fence),
        cross: words.cross,
    }
}

/// The diagram of a text.
pub fn diagram_of(
    alloc: Global,
    words: ScenarioArgs<'_>,
    text: &[u8],
) -> Result<Diagram, Refusal<'static>>
    ensures { IsDiagramOf words.entry text.now result }
{
    let diagram = read(alloc, reading_of(words.diagram), text)?;
    Ok(diagram)
}

/// The scenarios of a diagram that the words are for, if loops go these numbers of rounds and these
/// are the given choices.
fn scenarios_with<'w>(
    alloc: Global,
    words: ScenarioArgs<'w>,
    rounds: &[usize],
    choose: Option<&[usize]>,
    diagram: &'w Diagram,
) -> Result<Scenarios<'w>, Refusal<'static>>
    requires rounds { rounds.now ≡ (wanted_of words).rounds }
    requires choose { option_map (λ c. c.now) choose ≡ (wanted_of words).choose }
    ensures { (text : List ℕ) (fence : Option ℕ)
        → read (reading_of_all (wanted_of (with_fence fence words.entry))) text ≡ Ok diagram.entry.now
        → IsImportOfAll (with_fence fence words.entry) text result }
{
    reading_comes_first();
    let importing = ImportingAll {
        language: words.diagram.language,
        fence: fence_of(words.diagram.fence),
        cross: words.diagram.cross,
        manner: words.diagram.manner,
        rounds,
        limit: words.limit as usize,
        choose,
        name: words.diagram.name,
    };
    let all = draw_all(alloc, importing, diagram)?;
    Ok(all)
}

/// The scenarios of a diagram that the words are for: the chosen one, or all.
pub fn scenarios_of<'w>(
    alloc: Global,
    words: ScenarioArgs<'w>,
    diagram: &'w Diagram,
) -> Result<Scenarios<'w>, Refusal<'static>>
    ensures { (text : List ℕ) (fence : Option ℕ)
        → read (reading_of_all (wanted_of (with_fence fence words.entry))) text ≡ Ok diagram.entry.now
        → IsImportOfAll (with_fence fence words.entry) text result }
{
    let rounds = rounds_of(alloc, words.rounds)?;
    let rounds = rounds.as_slice();
    match given_choices(alloc, words.choose)? {
        None => scenarios_with(alloc, words, rounds, None, diagram),
        Some(given) => scenarios_with(alloc, words, rounds, Some(given.as_slice()), diagram),
    }
}

/// A scenario with its chart, and with the places of its events in the file of this name; or why it
/// has no chart.
fn charted<'f>(alloc: Global, file: &'f str, drawn: Drawn) -> Result<Scenario<'f>, Refusal<'static>>
    ensures { IsCharted file.entry.now drawn result }
{
    let chart = chart_of(alloc, &drawn.draft)?;
    let event_positions = EventPositions::at(file.as_bytes(), drawn.places.into_vec());
    Ok(Scenario {
        choices: drawn.choices,
        chart,
        event_positions,
        spans: drawn.spans,
    })
}

/// Appends a scenario to others. An error is a growth of memory that was refused.
fn print_charted<'f>(charts: &mut Vec<Scenario<'f>>, one: Scenario<'f>) -> Result<(), AllocError>
    ensures { OnOk result (charts.new.items ≡ charts.old.items ++ one.entry ∷ []) }
{
    charts.push(one)?;
    Ok(())
}

/// Each of these scenarios with its chart.
fn each_charted<'f>(
    alloc: Global,
    file: &'f str,
    all: Vec<Drawn>,
) -> Result<Vec<Scenario<'f>>, Refusal<'static>>
    ensures { IfOk result (λ charts. charts.items ≡ map (with_chart file.entry.now) all.items) }
{
    let mut charts = Vec::new(alloc);
    for drawn in all {
        print_charted(&mut charts, charted(alloc, file, drawn)?)?;
    }
    Ok(charts)
}

/// All scenarios of a diagram in the file of this name. The charts of the first are kept; each of
/// the others is drawn and becomes a chart when it is taken. Contracts see the list of them, with
/// their charts.
#[derive(Drop)]
pub struct Charts<'f> {
    file: &'f str,
    drawings: Drawings<'f>,
    first: Vec<Scenario<'f>>,
}

impl<'f> Model for Charts<'f> {
    ghost use Rattle.std.specs.Prelude.{◌≡◌, List, length, map, take};
    ghost use Rattle.msc_diagram.specs.declared.scenario.Scenario.{Scenario};
    ghost use Rattle.msc_answer.specs.Charting.{with_chart, AreCharts};

    ghost Value = { List Scenario };

    ghost view = { λ c. map (with_chart c.file.now) c.drawings };

    ghost invariant = { λ c. AreCharts c.drawings
        × (c.first.items ≡ take (length c.first.items) (map (with_chart c.file.now) c.drawings)) };
}

impl<'f> Charts<'f> {
    /// The charts of these drawings; each drawing is one. An error is a growth of memory that was
    /// refused.
    pub fn of(alloc: Global, file: &'f str, drawings: Drawings<'f>) -> Result<Self, AllocError>
        requires { AreCharts drawings }
        ensures { IfOk result (λ charts. charts ≡ map (with_chart file.now) drawings.entry) }
    {
        let mut drawings = drawings;
        let drawn = drawings.take_first(alloc);
        match each_charted(alloc, file, drawn) {
            Ok(first) => Ok(Charts {
                file,
                drawings,
                first,
            }),
            Err(_) => Err(AllocError),
        }
    }
}

impl<'f> Source for Charts<'f> {
    ghost scenarios = { λ charts. charts };

    fn len(&self) -> usize {
        self.drawings.len()
    }

    fn scenario(&self, alloc: Global, i: usize) -> Result<Lent<'_>, AllocError> {
        if i < self.first.len() {
            return Ok(Lent::kept(&self.first[i]));
        }
        let drawn = self.drawings.scenario(alloc, i)?;
        match charted(alloc, self.file, drawn) {
            Ok(scenario) => Ok(Lent::made(scenario)),
            Err(_) => Err(AllocError),
        }
    }
}

/// What an answer says of a diagram besides its races.
#[derive(Clone, Copy)]
pub struct Told<'d> {
    pub diagram: DiagramText<'d>,
    /// The name of the diagram.
    pub name: &'d [u8],
    /// What it is called in a count.
    pub counted: &'d [u8],
    /// Whether parallel branches are drawn one below the other.
    pub drawn: bool,
    /// Its marks, if they are used.
    pub marks: Option<&'d DiagramMarks>,
    /// Whether one of its scenarios alone is checked.
    pub chosen: bool,
    /// What follows its findings as people read them.
    pub following: Following,
}

/// The check of scenarios, with these marks.
fn check_of<'m>(check_args: CheckArgs, marks: Option<UsedMarks<'m>>) -> ScenarioCheck<'m>
    ensures { result ≡ check_of check_args marks.entry }
{
    ScenarioCheck {
        queues: check_args.queues,
        options: check_args.options,
        marks,
    }
}

/// The lines of an answer on scenarios.
fn style_of(check_args: CheckArgs, drawn: bool) -> DiagramStyle
    ensures words { result.words ≡ check_args.event_style.words }
    ensures drawn { result.drawn ≡ drawn }
{
    DiagramStyle {
        words: check_args.event_style.words,
        drawn,
    }
}

/// Appends the first lines of the answer on a diagram of this name to a page.
fn print_top(
    page: &mut Page,
    name: &[u8],
    first: Option<&Chart>,
    queues: &Queues,
) -> Result<(), AllocError>
    ensures { OnOk result (page.new.bytes.items ≡ page.old.bytes.items
        ++ diagram_top name.now (option_map (λ chart. chart.now) first.entry) queues.now) }
{
    match write_diagram_top(page, name, first, queues) {
        Ok(()) => Ok(()),
        Err(_) => Err(AllocError),
    }
}

/// The first lines of the answer on these scenarios of a diagram of this name.
fn top_of(
    alloc: Global,
    name: &[u8],
    scenarios: &Charts<'_>,
    queues: &Queues,
) -> Result<Page, AllocError>
    ensures { IfOk result (λ page. page.bytes.items
        ≡ diagram_top name.now (first_chart scenarios.now) queues.now) }
{
    let mut page = Page::new(alloc);
    if scenarios.len() == 0 {
        print_top(&mut page, name, None, queues)?;
        return Ok(page);
    }
    let first = scenarios.scenario(alloc, 0)?;
    print_top(&mut page, name, Some(&first.get().chart), queues)?;
    Ok(page)
}

/// Writes the answer on the races of these scenarios in a format that has no words of the diagram.
fn tell_in<O: Write>(
    alloc: Global,
    check_args: CheckArgs,
    told: Told<'_>,
    marks: Option<UsedMarks<'_>>,
    format: DiagramFormat<'_, '_>,
    scenarios: &Charts<'_>,
    output: &mut O,
) -> Result<Judged, WriteFault>
    requires top { top_in format check_args told scenarios.now
        ≡ diagram_top told.name.now (first_chart scenarios.now) check_args.queues }
    requires format { IsFormatOf check_args told scenarios.now format }
    ensures { TellsFormat O.contents check_args told.entry marks.entry scenarios.now result
        output.old output.new }
{
    let top = top_of(alloc, told.name, scenarios, &check_args.queues)?;
    let top = top.bytes.as_slice();
    let check = check_of(check_args, marks);
    judge_scenarios(alloc, top, scenarios, check, format, output)
}

/// Writes the findings on these scenarios as people read them, by the words of their diagram.
// Apart from `tell_full`, whose words outlast what is lent of them here.
fn tell_with<'x, O: Write>(
    alloc: Global,
    check_args: CheckArgs,
    told: Told<'x>,
    marks: Option<UsedMarks<'_>>,
    shown: &'x ShownDiagram,
    first: &Scenario<'_>,
    scenarios: &Charts<'_>,
    output: &mut O,
) -> Result<Judged, WriteFault>
    requires format { check_args.format ≡ Format.Full }
    requires first { IsFirst scenarios.now first.now }
    requires shown { IsShownDiagram told.diagram first.now.spans.shown first.now.chart
        check_args.queues shown.now }
    ensures { TellsFormat O.contents check_args told.entry marks.entry scenarios.now result
        output.old output.new }
{
    let lent = LentDiagram::of(alloc, &shown.words, told.diagram.text)?;
    let format = DiagramFormat::Full(FullDiagram {
        lent: &lent,
        diagram: told.diagram.diagram,
        text: told.diagram.text,
        names: shown.names(check_args.colours),
        following: told.following,
    });
    let check = check_of(check_args, marks);
    judge_scenarios(alloc, &[], scenarios, check, format, output)
}

/// Writes the findings on these scenarios as people read them.
pub(crate) fn tell_full<O: Write>(
    alloc: Global,
    check_args: CheckArgs,
    told: Told<'_>,
    marks: Option<UsedMarks<'_>>,
    scenarios: &Charts<'_>,
    output: &mut O,
) -> Result<Judged, WriteFault>
    requires { check_args.format ≡ Format.Full }
    ensures { TellsFormat O.contents check_args told.entry marks.entry scenarios.now result
        output.old output.new }
{
    if scenarios.len() == 0 {
        return Err(WriteFault::Memory);
    }
    let first = scenarios.scenario(alloc, 0)?;
    let first = first.get();
    let names = first.spans.shown.as_slice();
    let shown = ShownDiagram::of(alloc, told.diagram, names, &first.chart, check_args.queues)?;
    tell_with(
        alloc, check_args, told, marks, &shown, first, scenarios, output,
    )
}

/// Writes the answer on the races of these scenarios.
fn tell_races<O: Write>(
    alloc: Global,
    check_args: CheckArgs,
    told: Told<'_>,
    marks: Option<UsedMarks<'_>>,
    scenarios: &Charts<'_>,
    output: &mut O,
) -> Result<Judged, WriteFault>
    ensures { TellsFormat O.contents check_args told.entry marks.entry scenarios.now result
        output.old output.new }
{
    match check_args.format {
        Format::Text => {
            let format = DiagramFormat::Lines(style_of(check_args, told.drawn));
            tell_in(alloc, check_args, told, marks, format, scenarios, output)
        }
        Format::Count => {
            let format = DiagramFormat::Count(told.counted);
            tell_in(alloc, check_args, told, marks, format, scenarios, output)
        }
        Format::Lines => {
            let format = DiagramFormat::Editor;
            tell_in(alloc, check_args, told, marks, format, scenarios, output)
        }
        Format::Full => tell_full(alloc, check_args, told, marks, scenarios, output),
    }
}

/// The end of a check of a diagram that found this; `marked` says whether the diagram has marks.
fn surveyed_of(judged: Judged, marked: bool) -> Surveyed
    ensures { result ≡ surveyed_of judged marked }
{
    Surveyed {
        status: ended_by(judged.listed == 0 && judged.stale == 0),
        listed: judged.listed,
        accepted: judged.accepted.unwrap_or(0),
        marked,
    }
}

/// Writes the answer on the races of these scenarios, with these marks.
fn tell_marked<O: Write>(
    alloc: Global,
    words: ScenarioArgs<'_>,
    told: Told<'_>,
    marks: Option<UsedMarks<'_>>,
    scenarios: &Charts<'_>,
    output: &mut O,
) -> Result<Surveyed, Refusal<'static>>
    requires { AreUsed words.check_args told marks }
    ensures { AnswersWith O.contents
        (PrintsCounted words.entry.quiet words.entry.check_args told.entry scenarios.now)
        (BeginsAll words.entry.quiet words.entry.check_args told.entry scenarios.now)
        (λ refusal. ⊥) result output.old output.new }
{
    let check_args = words.check_args;
    if words.quiet {
        let passes = scenarios_pass(alloc, scenarios, check_of(check_args, marks))?;
        return Ok(Surveyed {
            status: ended_by(passes),
            listed: 0,
            accepted: 0,
            marked: false,
        });
    }
    let judged = tell_races(alloc, check_args, told, marks, scenarios, output)?;
    Ok(surveyed_of(judged, has_marks(marks)))
}

/// Writes the answer on the races of these scenarios, with the marks that accept the races of these
/// arrows.
// `tell` cannot lend its own arrows for `'x`, so this function takes them.
fn tell_accepted<'x, O: Write>(
    alloc: Global,
    words: ScenarioArgs<'_>,
    told: Told<'x>,
    accepted: &'x AcceptedArrows<'x>,
    scenarios: &Charts<'_>,
    output: &mut O,
) -> Result<Surveyed, Refusal<'static>>
    requires { AreAccepted words.check_args told accepted.now }
    ensures { AnswersWith O.contents
        (PrintsCounted words.entry.quiet words.entry.check_args told.entry scenarios.now)
        (BeginsAll words.entry.quiet words.entry.check_args told.entry scenarios.now)
        (λ refusal. ⊥) result output.old output.new }
{
    let used = UsedMarks {
        accepted,
        file: told.diagram.file,
        chosen: told.chosen,
    };
    tell_marked(alloc, words, told, Some(used), scenarios, output)
}

/// Writes the answer on the races of these scenarios.
pub(crate) fn tell<O: Write>(
    alloc: Global,
    words: ScenarioArgs<'_>,
    told: Told<'_>,
    scenarios: &Charts<'_>,
    output: &mut O,
) -> Result<Surveyed, Refusal<'static>>
    ensures { AnswersWith O.contents
        (PrintsCounted words.entry.quiet words.entry.check_args told.entry scenarios.now)
        (BeginsAll words.entry.quiet words.entry.check_args told.entry scenarios.now)
        (λ refusal. ⊥) result output.old output.new }
{
    match told.marks {
        None => tell_marked(alloc, words, told, None, scenarios, output),
        Some(marks) => {
            let DiagramText { text, diagram, .. } = told.diagram;
            let usual = words.check_args.queues.usual();
            let accepted = AcceptedArrows::of(alloc, text, marks, diagram, usual)?;
            tell_accepted(alloc, words, told, &accepted, scenarios, output)
        }
    }
}

/// Writes the same, and returns the status.
fn tell_all<O: Write>(
    alloc: Global,
    words: ScenarioArgs<'_>,
    told: Told<'_>,
    scenarios: &Charts<'_>,
    output: &mut O,
) -> Result<Status, Refusal<'static>>
    ensures { AnswersWith O.contents
        (PrintsAll words.entry.quiet words.entry.check_args told.entry scenarios.now)
        (BeginsAll words.entry.quiet words.entry.check_args told.entry scenarios.now)
        (λ refusal. ⊥) result output.old output.new }
{
    match tell(alloc, words, told, scenarios, output) {
        Ok(one) => Ok(one.status),
        Err(refusal) => Err(refusal),
    }
}

/// The words with the queues that their rules give for these scenarios of a text.
pub(crate) fn linked<'w>(
    alloc: Global,
    words: ScenarioArgs<'w>,
    text: &'w [u8],
    scenarios: &Drawings<'_>,
) -> Result<ScenarioArgs<'w>, Refusal<'w>>
    requires { AreCharts scenarios.now }
    ensures { IsLinkedArgs words.entry text.entry.now scenarios.now result }
{
    let usual = words.check_args.queues.usual();
    let queues = queues_of_diagram(alloc, usual, words.links, text, scenarios)?;
    Ok(ScenarioArgs {
        check_args: CheckArgs {
            queues,
            ..words.check_args
        },
        ..words
    })
}

/// Writes the answer on the races of all scenarios of a diagram in the file of this name.
pub(crate) fn check_scenarios<'w, O: Write>(
    alloc: Global,
    words: ScenarioArgs<'w>,
    file: &str,
    text: &'w [u8],
    output: &mut O,
) -> Result<Status, Refusal<'w>>
    ensures { AnswersWith O.contents (PrintsScenarios words.entry file.now text.entry.now)
        (BeginsScenarios words.entry file.now text.entry.now)
        (RefusesScenarios words.entry text.entry.now) result output.old output.new }
{
    imports_are_charts();
    reading_comes_first();
    let diagram = diagram_of(alloc, words, text)?;
    let all = scenarios_of(alloc, words, &diagram)?;
    let linked = linked(alloc, words, text, &all.list)?;
    let marks = marks_of_diagram(alloc, words.check_args.accept, text, &diagram)?;
    let charts = Charts::of(alloc, file, all.list)?;
    let told = Told {
        diagram: DiagramText {
            file,
            text,
            diagram: &diagram,
            line: line_in(alloc, fence_of(words.diagram.fence), text)?,
        },
        name: all.name.as_slice(),
        counted: file.as_bytes(),
        drawn: all.drawn,
        marks: marks.as_ref(),
        chosen: words.choose.is_some(),
        following: words.check_args.following,
    };
    tell_all(alloc, linked, told, &charts, output)
}
