//! Writes the races of all scenarios of a diagram.

ghost use Rattle.std.specs.Prelude.{◌≡◌, ℕ, List, ◌++◌, IfOk, OnOk, length};
ghost use Rattle.msc_report.specs.Counts.{tally_line};
ghost use Rattle.msc_diagram.specs.Counts.{diagram_end, AreCountedIn, AreCountsOf, AreStale};
ghost use Rattle.msc_diagram.specs.Scenarios.{diagram_head};
ghost use Rattle.msc_diagram.specs.Judging.{asked, tallied, BeginsScenarios, JudgesScenarios};
ghost use Rattle.msc_diagram.specs.Judging.{TellsScenarios};
ghost use Rattle.msc_diagram.specs.Stale.{each_stale, stale_by};
ghost use Rattle.msc_diagram.specs.Tallies.{tally_at};
ghost use Rattle.msc_diagram.specs.Telling.{above_text, IsCountedAbove, IsKnownAbove};

use crate::answer::Above;
use crate::cases::{Asked, RaceFormat, print_cases};
use crate::check::{ScenarioCheck, UsedMarks};
use crate::closing::print_closing;
use crate::counting::{answer_of, count_places};
use crate::full::{FullDiagram, FullRaces};
use crate::heads::{write_counts, write_diagram_end, write_diagram_head};
use crate::numbers::{PlaceCounts, counts_from};
use crate::reported::ReportedRaces;
use crate::source::Source;
use crate::stale::print_stale;
use msc_chart::Queues;
use msc_judge::{CheckOptions, Heading};
use msc_print::{Page, WriteFault};
use msc_report::write_tally;
use std::alloc::{AllocError, Global};
use std::io::Write;

/// How the lines of a diagram are printed.
#[derive(Clone, Copy)]
pub struct DiagramStyle {
    /// Whether runs are printed in words.
    pub words: bool,
    /// Whether some parallel branches are drawn one below the other.
    pub drawn: bool,
}

/// What a check of scenarios found.
#[derive(Clone, Copy)]
pub struct Judged {
    /// The number of places of races that are listed.
    pub listed: u32,
    /// The number of places of races that marks accept, if marks are used and the format needs it:
    /// lines for editors do not.
    pub accepted: Option<u32>,
    /// The number of stale marks.
    pub stale: usize,
}

/// The form of an answer on the races of scenarios.
#[derive(Clone, Copy)]
pub enum DiagramFormat<'f, 'w> {
    /// Lines above and below the scenarios, and of each scenario with a listed race.
    Lines(DiagramStyle),
    /// One line for the file of this name, with the number of places that have a race, and of those
    /// that have a closest race among those that count.
    Count(&'f [u8]),
    /// The lines for editors of each listed race.
    Editor,
    /// The closest races as people read them, and a closing line.
    Full(FullDiagram<'f, 'w>),
}

/// The numbers of places of races and the stale marks, if options or marks select races.
fn counts_above<S: Source>(
    alloc: Global,
    scenarios: &S,
    check: ScenarioCheck<'_>,
) -> Result<Option<Above>, AllocError>
    ensures { IfOk result (IsCountedAbove (S.scenarios scenarios.now) check.entry) }
{
    if !check.chooses() {
        return Ok(None);
    }
    Ok(Some(count_places(alloc, scenarios, check)?))
}

/// The stale marks, if marks are used.
fn stale_marks<S: Source>(
    alloc: Global,
    scenarios: &S,
    check: ScenarioCheck<'_>,
) -> Result<Vec<usize>, AllocError>
    ensures { IfOk result (λ stale. AreStale (S.scenarios scenarios.now) check.entry stale.items) }
{
    if check.marks.is_none() {
        return Ok(Vec::new(alloc));
    }
    let above = count_places(alloc, scenarios, check)?;
    Ok(above.stale)
}

/// Appends the lines above all scenarios to a page: the first lines, and their number.
fn print_top(page: &mut Page, top: &[u8], count: usize) -> Result<(), AllocError>
    ensures { OnOk result (page.new.bytes.items
        ≡ page.old.bytes.items ++ diagram_head top.now count) }
{
    match write_diagram_head(page, top, count) {
        Ok(()) => Ok(()),
        Err(_) => Err(AllocError),
    }
}

/// Appends the numbers of places of races to a page, if they are known above the scenarios.
fn print_counts(
    page: &mut Page,
    check: ScenarioCheck<'_>,
    above: Option<PlaceCounts>,
) -> Result<(), AllocError>
    ensures { OnOk result (page.new.bytes.items
        ≡ page.old.bytes.items ++ above_text check.entry above) }
{
    let Some(counts) = above else {
        return Ok(());
    };
    match write_counts(page, check, counts) {
        Ok(()) => Ok(()),
        Err(_) => Err(AllocError),
    }
}

/// Appends the lines below all scenarios to a page, with these of stale marks.
fn print_bottom(
    page: &mut Page,
    drawn: bool,
    counts: PlaceCounts,
    stale: &[u8],
    passed: usize,
) -> Result<(), AllocError>
    ensures { OnOk result (page.new.bytes.items
        ≡ page.old.bytes.items ++ diagram_end drawn counts stale.now passed) }
{
    match write_diagram_end(page, drawn, counts, stale, passed) {
        Ok(()) => Ok(()),
        Err(_) => Err(AllocError),
    }
}

/// The lines of stale marks.
fn stale_page(
    alloc: Global,
    format: RaceFormat<'_, '_>,
    marks: Option<UsedMarks<'_>>,
    stale: &[usize],
) -> Result<Page, AllocError>
    ensures { IfOk result (λ page. page.bytes.items
        ≡ each_stale marks.entry (stale_by format.entry) stale.now) }
{
    let mut page = Page::new(alloc);
    print_stale(alloc, &mut page, format, marks, stale)?;
    Ok(page)
}

/// Writes the races of all scenarios in lines, if the numbers of their places are these, and these
/// marks are stale.
fn write_known<S: Source, W: Write>(
    alloc: Global,
    top: &[u8],
    scenarios: &S,
    check: ScenarioCheck<'_>,
    diagram_style: DiagramStyle,
    above: Option<PlaceCounts>,
    stale: &[usize],
    writer: &mut W,
) -> Result<Judged, WriteFault>
    requires { IsKnownAbove (S.scenarios scenarios.now) check above stale.now }
    ensures { TellsScenarios W.contents
        (JudgesScenarios top.now (S.scenarios scenarios.now) check.entry (DiagramFormat.Lines diagram_style))
        (BeginsScenarios top.now (S.scenarios scenarios.now) check.entry (DiagramFormat.Lines diagram_style))
        result writer.old writer.new }
{
    let asked = Asked {
        check,
        format: RaceFormat::Lines(diagram_style.words),
    };
    let count = scenarios.len();
    let mut page = Page::new(alloc);
    let mut reported = ReportedRaces::new(alloc);
    print_top(&mut page, top, count)?;
    print_counts(&mut page, check, above)?;
    let passed = print_cases(alloc, writer, &mut page, &mut reported, asked, scenarios)?;
    let counts = counts_from(above, reported.len());
    let lines = stale_page(alloc, asked.format, check.marks, stale)?;
    print_bottom(
        &mut page,
        diagram_style.drawn,
        counts,
        lines.bytes.as_slice(),
        passed,
    )?;
    writer.write_all(page.bytes.as_slice())?;
    Ok(Judged {
        listed: counts.listed,
        accepted: counts.accepted,
        stale: stale.len(),
    })
}

/// Writes the races of all scenarios in lines.
fn write_lines<S: Source, W: Write>(
    alloc: Global,
    top: &[u8],
    scenarios: &S,
    check: ScenarioCheck<'_>,
    diagram_style: DiagramStyle,
    writer: &mut W,
) -> Result<Judged, WriteFault>
    ensures { TellsScenarios W.contents
        (JudgesScenarios top.now (S.scenarios scenarios.now) check.entry (DiagramFormat.Lines diagram_style))
        (BeginsScenarios top.now (S.scenarios scenarios.now) check.entry (DiagramFormat.Lines diagram_style))
        result writer.old writer.new }
{
    match counts_above(alloc, scenarios, check)? {
        Some(above) => {
            let Above { counts, stale } = above;
            let (known, marks) = (Some(counts), stale.as_slice());
            write_known(
                alloc,
                top,
                scenarios,
                check,
                diagram_style,
                known,
                marks,
                writer,
            )
        }
        None => write_known(
            alloc,
            top,
            scenarios,
            check,
            diagram_style,
            None,
            &[],
            writer,
        ),
    }
}

/// Writes the races of all scenarios in lines for editors.
fn write_editor<S: Source, W: Write>(
    alloc: Global,
    top: &[u8],
    scenarios: &S,
    check: ScenarioCheck<'_>,
    writer: &mut W,
) -> Result<Judged, WriteFault>
    ensures { TellsScenarios W.contents
        (JudgesScenarios top.now (S.scenarios scenarios.now) check.entry DiagramFormat.Editor)
        (BeginsScenarios top.now (S.scenarios scenarios.now) check.entry DiagramFormat.Editor)
        result writer.old writer.new }
{
    let asked = Asked {
        check: check.with_options(check.options.for_editors()),
        format: RaceFormat::Editor,
    };
    let stale = stale_marks(alloc, scenarios, asked.check)?;
    let mut page = Page::new(alloc);
    let mut reported = ReportedRaces::new(alloc);
    print_cases(alloc, writer, &mut page, &mut reported, asked, scenarios)?;
    print_stale(
        alloc,
        &mut page,
        asked.format,
        check.marks,
        stale.as_slice(),
    )?;
    writer.write_all(page.bytes.as_slice())?;
    Ok(Judged {
        listed: reported.len(),
        accepted: None,
        stale: stale.len(),
    })
}

/// Appends the line with the number of places of races to a page, and the number of those of
/// closest races.
fn print_tally(
    page: &mut Page,
    file: &[u8],
    queues: Queues,
    races: u32,
    closest: u32,
) -> Result<(), AllocError>
    ensures { OnOk result (page.new.bytes.items
        ≡ page.old.bytes.items ++ tally_line file.now (tallied queues races closest)) }
{
    let heading = Heading {
        queues,
        races,
        left_out: None,
        accepted: None,
        counting: closest,
        closest: Some(closest),
    };
    match write_tally(page, file, heading) {
        Ok(()) => Ok(()),
        Err(_) => Err(AllocError),
    }
}

/// Writes the line with the number of places of races in the scenarios, and of those of closest races
/// among those that count.
fn write_count<S: Source, W: Write>(
    alloc: Global,
    scenarios: &S,
    check: ScenarioCheck<'_>,
    file: &[u8],
    writer: &mut W,
) -> Result<Judged, WriteFault>
    ensures { (top : List ℕ) → TellsScenarios W.contents
        (JudgesScenarios top (S.scenarios scenarios.now) check.entry (DiagramFormat.Count file.entry))
        (BeginsScenarios top (S.scenarios scenarios.now) check.entry (DiagramFormat.Count file.entry))
        result writer.old writer.new }
{
    let closest = check.with_options(CheckOptions::counted(check.options.allowed));
    let Above { counts, stale } = count_places(alloc, scenarios, closest)?;
    let mut page = Page::new(alloc);
    print_tally(&mut page, file, check.queues, counts.races, counts.listed)?;
    writer.write_all(page.bytes.as_slice())?;
    Ok(Judged {
        listed: counts.listed,
        accepted: counts.accepted,
        stale: stale.len(),
    })
}

/// Writes the closest races of all scenarios as people read them, these stale marks, and a closing
/// line with these numbers of places.
fn write_found<S: Source, W: Write>(
    alloc: Global,
    scenarios: &S,
    check: ScenarioCheck<'_>,
    races: FullRaces<'_, '_>,
    counts: PlaceCounts,
    stale: &[usize],
    writer: &mut W,
) -> Result<Judged, WriteFault>
    requires number { races.scenarios ≡ length (S.scenarios scenarios.now) }
    requires counted { AreCountedIn (S.scenarios scenarios.now)
        (asked (DiagramFormat.Full races.shown) check) (tally_at races.tally.now) }
    requires counts { AreCountsOf (S.scenarios scenarios.now)
        (asked (DiagramFormat.Full races.shown) check) counts stale.now }
    ensures { (top : List ℕ) → TellsScenarios W.contents
        (JudgesScenarios top (S.scenarios scenarios.now) check.entry (DiagramFormat.Full races.entry.shown))
        (BeginsScenarios top (S.scenarios scenarios.now) check.entry (DiagramFormat.Full races.entry.shown))
        result writer.old writer.new }
{
    let asked = Asked {
        check: check.with_options(check.options.for_people()),
        format: RaceFormat::Full(races),
    };
    let mut page = Page::new(alloc);
    let mut reported = ReportedRaces::new(alloc);
    let passed = print_cases(alloc, writer, &mut page, &mut reported, asked, scenarios)?;
    print_stale(alloc, &mut page, asked.format, check.marks, stale)?;
    let (shown, count, most) = (races.shown, races.scenarios, check.options.most);
    let marks = check.marks;
    print_closing(
        alloc,
        &mut page,
        shown,
        marks,
        counts,
        stale.len(),
        most,
        count,
        passed,
    )?;
    writer.write_all(page.bytes.as_slice())?;
    Ok(Judged {
        listed: counts.listed,
        accepted: counts.accepted,
        stale: stale.len(),
    })
}

/// Writes the closest races of all scenarios as people read them, the stale marks, and a closing
/// line.
fn write_full<S: Source, W: Write>(
    alloc: Global,
    scenarios: &S,
    check: ScenarioCheck<'_>,
    shown: FullDiagram<'_, '_>,
    writer: &mut W,
) -> Result<Judged, WriteFault>
    ensures { (top : List ℕ) → TellsScenarios W.contents
        (JudgesScenarios top (S.scenarios scenarios.now) check.entry (DiagramFormat.Full shown.entry))
        (BeginsScenarios top (S.scenarios scenarios.now) check.entry (DiagramFormat.Full shown.entry))
        result writer.old writer.new }
{
    let asked = check.with_options(check.options.for_people());
    let answer = answer_of(alloc, scenarios, asked, true)?;
    let races = FullRaces {
        shown,
        scenarios: scenarios.len(),
        tally: &answer.tally,
    };
    let counts = answer.counts(asked);
    let stale = answer.idle.as_slice();
    write_found(alloc, scenarios, check, races, counts, stale, writer)
}

/// Writes the races of all scenarios of a diagram in a form, each race once: a race is not listed
/// again if an earlier one has the places of its events. If marks are used, the races that they
/// accept do not count and are not listed, and the stale marks follow the races, except in a count.
/// Lines begin with `top` ([`write_diagram_top`](crate::write_diagram_top)). Returns the numbers of
/// listed races and of stale marks.
///
/// An error is `Memory` if a growth of memory was refused; a beginning may have been written then.
/// It is `Device` if the writer fails.
pub fn judge_scenarios<S: Source, W: Write>(
    alloc: Global,
    top: &[u8],
    scenarios: &S,
    check: ScenarioCheck<'_>,
    form: DiagramFormat<'_, '_>,
    writer: &mut W,
) -> Result<Judged, WriteFault>
    ensures { TellsScenarios W.contents
        (JudgesScenarios top.now (S.scenarios scenarios.now) check.entry form.entry)
        (BeginsScenarios top.now (S.scenarios scenarios.now) check.entry form.entry)
        result writer.old writer.new }
{
    match form {
        DiagramFormat::Lines(diagram_style) => {
            write_lines(alloc, top, scenarios, check, diagram_style, writer)
        }
        DiagramFormat::Count(file) => write_count(alloc, scenarios, check, file, writer),
        DiagramFormat::Editor => write_editor(alloc, top, scenarios, check, writer),
        DiagramFormat::Full(shown) => write_full(alloc, scenarios, check, shown, writer),
    }
}
