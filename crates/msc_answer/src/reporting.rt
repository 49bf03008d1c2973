//! The report of all scenarios of a diagram: one page in HTML.

ghost use Rattle.std.specs.Prelude.{◌≡◌, ◌<◌, ◌++◌, IfOk, IsTrue, OnOk, length};
ghost use Rattle.std.specs.Fmt.{decimal};
ghost use Rattle.std.specs.List.{flat_map};
ghost use Rattle.msc_draw.specs.Numbering.{AreAscending};
ghost use Rattle.msc_answer.specs.Reported.{choices_word, command_text, listed_check, AreSections};
ghost use Rattle.msc_answer.specs.Reported.{next_choice, reported_check, reported_scenarios};
ghost use Rattle.msc_answer.specs.Reported.{IsFoundText};
ghost use Rattle.msc_answer.specs.Reported.{IsHeading, IsPictureOf, IsReportBy, IsReportPage};
ghost use Rattle.msc_answer.specs.Reported.{IsSection, IsSectionAt};

use crate::arrow_marks::marks_of_diagram;
use crate::ending::Refusal;
use crate::importing::{chart_of, fence_of};
use crate::scenarios::{Charts, Told, diagram_of, linked, scenarios_of, tell_full};
use crate::shown_diagram::{DiagramText, line_in};
use crate::tasks::{
    CheckArgs, DiagramArgs, EventStyle, Format, GREATEST_LIMIT, ReportArgs, ScenarioArgs,
};
use crate::version::VERSION;
use itoa::Buffer;
use listed::Listed;
use msc_chart::{Chart, Queues};
use msc_diagram::{ScenarioCheck, Source, new_races};
use msc_draw::scene_of_races;
use msc_findings::Following;
use msc_html::{DiagramReport, ReportSection, report_diagram};
use msc_import::laws::reading_comes_first;
use msc_import::{arrow_numbers, draw};
use msc_import_laws::laws::imports_are_charts;
use msc_judge::CheckOptions;
use msc_mermaid::Diagram;
use msc_parser::Label;
use msc_picture::{Scene, plus};
use msc_print::{Page, Pair};
use msc_reason::KindSet;
use msc_shown_diagram::choices_said;
use std::alloc::{AllocError, Global};

/// The check whose races a report lists.
fn listed_check(check_args: CheckArgs) -> ScenarioCheck<'static>
    ensures { result ≡ listed_check check_args }
{
    ScenarioCheck {
        queues: check_args.queues,
        options: check_args.options.for_people(),
        marks: None,
    }
}

/// The check of a report on all scenarios of a diagram: of all closest races, as people read them.
fn reported_check(queues: Queues) -> CheckArgs
    ensures { result ≡ reported_check queues }
{
    CheckArgs {
        queues,
        options: CheckOptions {
            closest: true,
            why: true,
            allowed: KindSet::NONE,
            most: u32::MAX,
            show: 0,
            short: true,
        },
        accept: false,
        again: false,
        format: Format::Full,
        colours: false,
        event_style: EventStyle {
            places: false,
            words: false,
        },
        following: Following::Blank,
    }
}

/// The check of all scenarios of a diagram for a report.
fn reported_scenarios(words: ReportArgs<'_>) -> ScenarioArgs<'_>
    ensures { result ≡ reported_scenarios words.entry }
{
    ScenarioArgs {
        diagram: words.diagram,
        rounds: None,
        limit: GREATEST_LIMIT,
        choose: None,
        check_args: reported_check(words.queues),
        links: words.links,
        quiet: false,
    }
}

/// The greatest number of pictures of a report.
const PICTURE_LIMIT: usize = 8;

/// The findings on these scenarios as people read them.
fn found_text(
    alloc: Global,
    check_args: CheckArgs,
    told: Told<'_>,
    scenarios: &Charts<'_>,
) -> Result<Vec<u8>, AllocError>
    requires { check_args.format ≡ Format.Full }
    ensures { IfOk result (λ text. IsFoundText check_args told.entry scenarios.now text.items) }
{
    let mut page = Page::new(alloc);
    match tell_full(alloc, check_args, told, None, scenarios, &mut page) {
        Ok(_) => Ok(page.bytes),
        Err(_) => Err(AllocError),
    }
}

/// A scenario with new races: its number, from 1, and that of all scenarios; its choices; these races,
/// of which the first has number `first` + 1; and whether it has a picture.
#[derive(Clone, Copy)]
struct ReportedScenario<'s> {
    number: usize,
    scenarios: usize,
    choices: &'s [usize],
    races: &'s [Pair],
    first: usize,
    pictured: bool,
}

/// The heading of a scenario.
fn heading_of(
    alloc: Global,
    told: Told<'_>,
    shown: ReportedScenario<'_>,
) -> Result<Label, AllocError>
    ensures { IfOk result (IsHeading told.entry shown.entry) }
{
    let ReportedScenario {
        number,
        scenarios,
        ..
    } = shown;
    if scenarios == 1 {
        return Ok(Listed::from_vec(Vec::from_slice(alloc, b"The diagram")?));
    }
    let said = choices_said(
        alloc,
        told.diagram.diagram,
        told.diagram.text,
        shown.choices,
    )?;
    let heading = format!(in alloc; "Scenario {number} of {scenarios}: {said}")?;
    Ok(Listed::from_vec(heading.into_bytes()))
}

/// Appends a choice to a text.
fn print_choice(text: &mut Vec<u8>, choice: usize) -> Result<(), AllocError>
    ensures { OnOk result (text.new.items ≡ text.old.items ++ decimal choice) }
{
    let mut buffer = Buffer::new();
    text.extend_from_slice(buffer.format(choice).as_bytes())
}

/// Appends a further choice to a text, after a comma.
fn print_next(text: &mut Vec<u8>, choice: usize) -> Result<(), AllocError>
    ensures { OnOk result (text.new.items ≡ text.old.items ++ next_choice choice) }
{
    text.extend_from_slice(b",")?;
    print_choice(text, choice)
}

/// Appends further choices to a text.
fn print_more(text: &mut Vec<u8>, choices: &[usize]) -> Result<(), AllocError>
    ensures { OnOk result (text.new.items ≡ text.old.items ++ flat_map next_choice choices.now) }
{
    for choice in choices {
        print_next(text, *choice)?;
    }
    Ok(())
}

/// Appends choices to a text, with commas between.
fn print_choices(text: &mut Vec<u8>, choices: &[usize]) -> Result<(), AllocError>
    ensures { OnOk result (text.new.items ≡ text.old.items ++ choices_word choices.now) }
{
    let Some((first, more)) = choices.split_first() else {
        return Ok(());
    };
    print_choice(text, *first)?;
    print_more(text, more)
}

/// The command that draws the scenario with these choices.
fn command_of(alloc: Global, choices: &[usize]) -> Result<Label, AllocError>
    ensures { IfOk result (λ command. command ≡ command_text choices.now) }
{
    let mut text = Vec::from_slice(alloc, b"msc draw --choose ")?;
    print_choices(&mut text, choices)?;
    Ok(Listed::from_vec(text))
}

/// Whether these are pairs of events of a chart, and their first events do not fall along the list.
/// The races of a listing are.
fn are_ascending(chart: &Chart, races: &[Pair]) -> bool
    ensures { IsTrue result → AreAscending chart.now.events races.now }
{
    let many = chart.events();
    let mut last = 0;
    for (e, f) in races {
        if *e < last || many <= *e || many <= *f {
            return false;
        }
        last = *e;
    }
    true
}

/// The picture of the scenario with these choices, with the bars of these races, of which the first
/// has number `first` + 1. Its rows keep the order of the text.
fn picture_of(
    alloc: Global,
    words: DiagramArgs<'_>,
    diagram: &Diagram,
    choices: &[usize],
    races: &[Pair],
    first: usize,
) -> Result<Scene, AllocError>
    ensures { IfOk result (IsPictureOf words.entry diagram.now choices.now races.now first) }
{
    let Ok(draft) = draw(alloc, diagram, choices, words.manner, words.name) else {
        return Err(AllocError);
    };
    let Ok(ranks) = arrow_numbers(alloc, diagram, choices, words.manner) else {
        return Err(AllocError);
    };
    let Ok(chart) = chart_of(alloc, &draft) else {
        return Err(AllocError);
    };
    if !are_ascending(&chart, races) {
        return Err(AllocError);
    }
    scene_of_races(alloc, &draft, &chart, Some(ranks.as_slice()), races, first)
}

/// The scenario with these choices and these new races, of which the first has number `first` + 1;
/// with its picture, if it is one of the first.
fn section_of(
    alloc: Global,
    words: DiagramArgs<'_>,
    told: Told<'_>,
    shown: ReportedScenario<'_>,
) -> Result<ReportSection, AllocError>
    ensures { IfOk result (IsSection words.entry told.entry shown.entry) }
{
    let ReportedScenario {
        choices,
        races,
        first,
        ..
    } = shown;
    let picture = if shown.pictured {
        Some(picture_of(alloc, words, told.diagram.diagram, choices, races, first)?)
    } else {
        None
    };
    Ok(ReportSection {
        heading: heading_of(alloc, told, shown)?,
        picture,
        command: command_of(alloc, choices)?,
        races: races.len(),
    })
}

/// Scenario `i`, from 0, whose new races begin with number `first` + 1; with its picture, if
/// `pictured`.
fn section_at(
    alloc: Global,
    words: DiagramArgs<'_>,
    told: Told<'_>,
    scenarios: &Charts<'_>,
    i: usize,
    races: &[Pair],
    first: usize,
    pictured: bool,
) -> Result<ReportSection, AllocError>
    requires { i < length scenarios.now }
    ensures { IfOk result (IsSectionAt words.entry told.entry scenarios.now i races.now first pictured) }
{
    let scenario = scenarios.scenario(alloc, i)?;
    let shown = ReportedScenario {
        number: plus(i, 1)?,
        scenarios: scenarios.len(),
        choices: scenario.get().choices.as_slice(),
        races,
        first,
        pictured,
    };
    section_of(alloc, words, told, shown)
}

/// The scenarios with new races, in their order.
fn sections_of(
    alloc: Global,
    words: DiagramArgs<'_>,
    told: Told<'_>,
    scenarios: &Charts<'_>,
    new: &[Listed<Pair>],
) -> Result<Vec<ReportSection>, AllocError>
    requires { length new.now ≡ length scenarios.now }
    ensures { IfOk result (λ sections. AreSections words.entry told.entry scenarios.now new.now sections.items) }
{
    let mut sections = Vec::new(alloc);
    let mut first = 0;
    for i in 0..new.len() {
        let races = new[i].as_slice();
        if races.is_empty() {
            continue;
        }
        let pictured = sections.len() < PICTURE_LIMIT;
        let section = section_at(alloc, words, told, scenarios, i, races, first, pictured)?;
        sections.push(section)?;
        first = plus(first, races.len())?;
    }
    Ok(sections)
}

/// The report of these scenarios of a diagram.
pub(crate) fn report_page(
    alloc: Global,
    words: ScenarioArgs<'_>,
    told: Told<'_>,
    scenarios: &Charts<'_>,
) -> Result<Page, AllocError>
    requires { words.check_args.format ≡ Format.Full }
    ensures { IfOk result (λ page. IsReportPage words.entry told.entry scenarios.now page.bytes.items) }
{
    if scenarios.len() == 0 {
        return Err(AllocError);
    }
    let check_args = words.check_args;
    let found = found_text(alloc, check_args, told, scenarios)?;
    let new = new_races(alloc, scenarios, listed_check(check_args))?;
    let sections = sections_of(alloc, words.diagram, told, scenarios, new.as_slice())?;
    let report = DiagramReport {
        name: Listed::from_vec(Vec::from_slice(alloc, told.name)?),
        scenarios: scenarios.len(),
        sections: Listed::from_vec(sections),
        found: Listed::from_vec(found),
    };
    let first = scenarios.scenario(alloc, 0)?;
    let (chart, queues) = (&first.get().chart, check_args.queues);
    let page = report_diagram(alloc, &report, chart, queues, VERSION.as_bytes())?;
    Ok(page)
}

/// The report of the scenarios of the diagram of a text in the file of this name, by the words of a
/// check.
fn report_checked<'w>(
    alloc: Global,
    words: ScenarioArgs<'w>,
    file: &str,
    text: &'w [u8],
) -> Result<Page, Refusal<'w>>
    requires { words.check_args.format ≡ Format.Full }
    ensures { IsReportBy words.entry file.now text.entry.now result }
{
    imports_are_charts();
    reading_comes_first();
    let diagram = diagram_of(alloc, words, text)?;
    let all = scenarios_of(alloc, words, &diagram)?;
    let linked = linked(alloc, words, text, &all.list)?;
    let marks = marks_of_diagram(alloc, words.check_args.accept, text, &diagram)?;
    let charts = Charts::of(alloc, file, all.list)?;
    let told = Told {
        diagram: DiagramText {
            file,
            text,
            diagram: &diagram,
            line: line_in(alloc, fence_of(words.diagram.fence), text)?,
        },
        name: all.name.as_slice(),
        counted: file.as_bytes(),
        drawn: all.drawn,
        marks: marks.as_ref(),
        chosen: words.choose.is_some(),
        following: Following::Blank,
    };
    let page = report_page(alloc, linked, told, &charts)?;
    Ok(page)
}

/// The report of all scenarios of the diagram of a text in the file of this name.
pub(crate) fn report_scenarios<'w>(
    alloc: Global,
    words: ReportArgs<'w>,
    file: &str,
    text: &'w [u8],
) -> Result<Page, Refusal<'w>>
    ensures { IsReportBy (reported_scenarios words.entry) file.now text.entry.now result }
{
    report_checked(alloc, reported_scenarios(words), file, text)
}
