//! The report of a diagram: one page for all its scenarios.

ghost use Rattle.std.specs.Prelude.{◌≡◌, ◌+◌, ◌++◌, ◌∷◌, [], IfOk, OnOk, codes, option_map};
ghost use Rattle.msc_html.specs.DiagramReports.{diagram_body, diagram_checked, diagram_front};
ghost use Rattle.msc_html.specs.DiagramReports.{diagram_nodes, diagram_report_text, end_of_diagram};
ghost use Rattle.msc_html.specs.DiagramReports.{finding_node, IsCut};
ghost use Rattle.msc_html.specs.DiagramReports.{findings_nodes, paragraph_at, picture_node, race_title};
ghost use Rattle.msc_html.specs.DiagramReports.{races_in, scenarios_text, section_nodes};
ghost use Rattle.msc_html.specs.DiagramReports.{sections_nodes, verdict_style};
ghost use Rattle.msc_html.specs.Front.{diagram_advice};
ghost use Rattle.msc_html.specs.Paragraphs.{paragraphs};
ghost use Rattle.msc_html.specs.Parts.{sentence, words};
ghost use Rattle.msc_html.specs.Reports.{if_any, race_text, version_node};
ghost use Rattle.msc_tree.specs.Shapes.{plain};
ghost use Rattle.msc_tree.specs.Trees.{Node, children, line_text, lines_text};
ghost use Rattle.msc_tree.specs.Trees.Node.{block};

use crate::article::put_article_begin;
use crate::figure::put_figure;
use crate::front::{put_diagram_advice, put_store, put_wide_head};
use crate::opening::{put_race_text, put_said, queues_text};
use crate::paragraph::paragraphs;
use crate::part::{SentenceStyle, Tag, part_of, put_sentence, race_number};
use crate::report::put_version;
use listed::Listed;
use msc_chart::{Chart, Queues};
use msc_links::print_queues;
use msc_parser::Label;
use msc_picture::{Scene, plus};
use msc_print::Page;
use msc_tree::{put_decimal, put_plain};
use std::alloc::{AllocError, Global};

/// A scenario that first shows some races: its heading, its picture or none, the command that
/// draws it, and the number of these races.
#[derive(Drop)]
pub struct ReportSection {
    pub heading: Label,
    pub picture: Option<Scene>,
    pub command: Label,
    pub races: usize,
}

/// The report of a diagram: its name, the number of its scenarios, those that first show races,
/// and the text of its findings. That text has a paragraph for each of these races, in their
/// order, and then the verdict; an empty line follows each of them.
#[derive(Drop)]
pub struct DiagramReport {
    pub name: Label,
    pub scenarios: usize,
    pub sections: Listed<ReportSection>,
    pub found: Label,
}

/// A paragraph, or nothing if there are fewer.
fn paragraph_at(found: &[Label], j: usize) -> &[u8]
    ensures { result.now ≡ paragraph_at found.now j }
{
    if j < found.len() {
        found[j].as_slice()
    } else {
        &[]
    }
}

/// Appends the title of the article of race `k` to a page.
fn put_race_title(page: &mut Vec<u8>, alloc: Global, k: usize) -> Result<(), AllocError>
    ensures { OnOk result (page.new.items ≡ page.old.items ++ line_text (race_title k)) }
{
    let mut parts = Vec::new(alloc);
    parts.push(part_of(alloc, Tag::Words, b"Race ")?)?;
    parts.push(race_number(alloc, k)?)?;
    put_sentence(page, b"h3", SentenceStyle::Plain, &parts)?;
    Ok(())
}

/// Appends the article of race `k` to a page: its finding as people read it.
fn put_finding(page: &mut Vec<u8>, alloc: Global, k: usize, text: &[u8]) -> Result<(), AllocError>
    ensures { OnOk result (page.new.items ≡ page.old.items ++ line_text (finding_node k text.now)) }
{
    put_article_begin(page, alloc, k)?;
    put_race_title(page, alloc, k)?;
    put_said(page, alloc, b"pre", SentenceStyle::Scrolled, text)?;
    page.extend_from_slice(b"</article>\n")?;
    Ok(())
}

/// Appends the articles of these races to a page, of which the first is number `k` + 1.
fn put_findings(
    page: &mut Vec<u8>,
    alloc: Global,
    found: &[Label],
    k: usize,
    races: usize,
) -> Result<(), AllocError>
    ensures { OnOk result
        (page.new.items ≡ page.old.items ++ lines_text (findings_nodes found.now k races)) }
{
    let end = plus(k, races)?;
    for j in k..end {
        put_finding(page, alloc, plus(j, 1)?, paragraph_at(found, j))?;
    }
    Ok(())
}

/// The caption of the picture of a scenario.
const CAPTION: &[u8] =
    b"A capsule with a number marks a race, or several, told below by number; races \
that are told above are not marked. The small numbers are those of events.";

/// Appends the picture of a scenario to a page, or the command that draws it.
fn put_scene(
    page: &mut Vec<u8>,
    alloc: Global,
    heading: &[u8],
    command: &[u8],
    picture: Option<&Scene>,
) -> Result<(), AllocError>
    ensures { OnOk result (page.new.items ≡ page.old.items ++ line_text
        (picture_node heading.now command.now (option_map (λ s. s.now) picture.entry))) }
{
    match picture {
        Some(scene) => put_figure(page, alloc, scene, heading, CAPTION),
        None => {
            let mut parts = Vec::new(alloc);
            parts.push(part_of(alloc, Tag::Words, b"Its picture: ")?)?;
            parts.push(part_of(alloc, Tag::Code, command)?)?;
            put_sentence(page, b"p", SentenceStyle::Plain, &parts)
        }
    }
}

/// Appends a scenario to a page, of whose races the first is number `k` + 1.
fn put_section(
    page: &mut Vec<u8>,
    alloc: Global,
    found: &[Label],
    k: usize,
    section: &ReportSection,
) -> Result<(), AllocError>
    ensures { OnOk result
        (page.new.items ≡ page.old.items ++ lines_text (section_nodes found.now k section.now)) }
{
    let (heading, command) = (section.heading.as_slice(), section.command.as_slice());
    put_plain(page, b"h2", heading)?;
    put_scene(page, alloc, heading, command, section.picture.as_ref())?;
    put_findings(page, alloc, found, k, section.races)?;
    Ok(())
}

/// Appends these scenarios to a page.
fn put_sections(
    page: &mut Vec<u8>,
    alloc: Global,
    found: &[Label],
    sections: &[ReportSection],
) -> Result<(), AllocError>
    ensures { OnOk result
        (page.new.items ≡ page.old.items ++ lines_text (sections_nodes found.now 0 sections.now)) }
{
    let mut k = 0;
    for section in sections {
        put_section(page, alloc, found, k, section)?;
        k = plus(k, section.races)?;
    }
    Ok(())
}

/// The number of races of these scenarios.
fn races_in(sections: &[ReportSection]) -> Result<usize, AllocError>
    ensures { IfOk result (λ races. races ≡ races_in sections.now) }
{
    let mut races = 0;
    for section in sections {
        races = plus(races, section.races)?;
    }
    Ok(races)
}

/// Appends the number of scenarios to a text.
fn put_scenarios(text: &mut Vec<u8>, scenarios: usize) -> Result<(), AllocError>
    ensures { OnOk result (text.new.items ≡ text.old.items ++ scenarios_text scenarios) }
{
    if scenarios == 1 {
        text.extend_from_slice(b"Sequence diagram")?;
        return Ok(());
    }
    text.extend_from_slice(b"Sequence diagram with ")?;
    put_decimal(text, scenarios)?;
    text.extend_from_slice(b" scenarios")?;
    Ok(())
}

/// The sentence on the check.
fn diagram_checked(
    alloc: Global,
    scenarios: usize,
    chart: &Chart,
    queues: Queues,
) -> Result<Vec<u8>, AllocError>
    ensures { IfOk result (λ text. text.items ≡ diagram_checked scenarios chart.now queues) }
{
    let mut text = Vec::new(alloc);
    put_scenarios(&mut text, scenarios)?;
    text.extend_from_slice(b", checked with ")?;
    text.extend_from_slice(queues_text(queues))?;
    text.extend_from_slice(b" (")?;
    print_queues(&mut text, alloc, chart, &queues)?;
    text.extend_from_slice(b").")?;
    Ok(text)
}

/// The look of the verdict on a diagram with this number of races.
fn verdict_style(races: usize) -> SentenceStyle
    ensures { result ≡ verdict_style races }
{
    if races == 0 {
        SentenceStyle::Pass
    } else {
        SentenceStyle::Verdict
    }
}

/// Appends the explanation of a race to a page, if there are races.
fn put_explained(page: &mut Vec<u8>, races: usize) -> Result<(), AllocError>
    ensures { OnOk result (page.new.items ≡ page.old.items
        ++ lines_text (if_any races (plain (codes "p") race_text ∷ []))) }
{
    if races == 0 {
        return Ok(());
    }
    put_race_text(page)
}

/// Appends the advice on races to a page, if there are races.
fn put_advised(page: &mut Vec<u8>, races: usize) -> Result<(), AllocError>
    ensures { OnOk result
        (page.new.items ≡ page.old.items ++ lines_text (if_any races diagram_advice)) }
{
    if races == 0 {
        return Ok(());
    }
    put_diagram_advice(page)
}

/// A report whose findings are cut into paragraphs: these, the number of its races, the chart of a
/// scenario, and the architecture.
#[derive(Clone, Copy)]
struct CutReport<'a> {
    report: &'a DiagramReport,
    found: &'a [Label],
    races: usize,
    chart: &'a Chart,
    queues: Queues,
}

/// Appends the part before the scenarios to a page.
fn put_front(page: &mut Vec<u8>, alloc: Global, cut: CutReport<'_>) -> Result<(), AllocError>
    requires { IsCut cut }
    ensures { OnOk result (page.new.items ≡ page.old.items
        ++ lines_text (diagram_front cut.entry.report.now cut.entry.chart.now cut.entry.queues)) }
{
    let checked = diagram_checked(alloc, cut.report.scenarios, cut.chart, cut.queues)?;
    let verdict = paragraph_at(cut.found, cut.races);
    put_plain(page, b"h1", cut.report.name.as_slice())?;
    put_said(page, alloc, b"p", SentenceStyle::Soft, &checked)?;
    put_said(page, alloc, b"p", verdict_style(cut.races), verdict)?;
    put_explained(page, cut.races)?;
    Ok(())
}

/// Appends the part after the scenarios to a page.
fn put_end(
    page: &mut Vec<u8>,
    alloc: Global,
    races: usize,
    version: &[u8],
) -> Result<(), AllocError>
    ensures { OnOk result
        (page.new.items ≡ page.old.items ++ lines_text (end_of_diagram races version.now)) }
{
    put_advised(page, races)?;
    put_version(page, alloc, version)?;
    Ok(())
}

/// Appends the main part of a page to it.
fn put_main(
    page: &mut Vec<u8>,
    alloc: Global,
    cut: CutReport<'_>,
    version: &[u8],
) -> Result<(), AllocError>
    requires { IsCut cut }
    ensures { OnOk result (page.new.items ≡ page.old.items
        ++ lines_text (diagram_nodes cut.entry.report.now cut.entry.chart.now cut.entry.queues version.now)) }
{
    put_front(page, alloc, cut)?;
    put_sections(page, alloc, cut.found, cut.report.sections.as_slice())?;
    put_end(page, alloc, cut.races, version)?;
    Ok(())
}

/// Appends the body of a page to it.
fn put_body(
    page: &mut Vec<u8>,
    alloc: Global,
    cut: CutReport<'_>,
    version: &[u8],
) -> Result<(), AllocError>
    requires { IsCut cut }
    ensures { OnOk result (page.new.items ≡ page.old.items
        ++ line_text (diagram_body cut.entry.report.now cut.entry.chart.now cut.entry.queues version.now)) }
{
    page.extend_from_slice(b"<body>\n")?;
    put_store(page)?;
    page.extend_from_slice(b"<main>\n")?;
    put_main(page, alloc, cut, version)?;
    page.extend_from_slice(b"</main>\n")?;
    page.extend_from_slice(b"</body>\n")?;
    Ok(())
}

/// Appends a page to another one.
fn put_page(
    page: &mut Vec<u8>,
    alloc: Global,
    cut: CutReport<'_>,
    version: &[u8],
) -> Result<(), AllocError>
    requires { IsCut cut }
    ensures { OnOk result (page.new.items ≡ page.old.items
        ++ diagram_report_text cut.entry.report.now cut.entry.chart.now cut.entry.queues version.now) }
{
    page.extend_from_slice(b"<!DOCTYPE html>\n")?;
    page.extend_from_slice(b"<html lang=\"en\">\n")?;
    put_wide_head(page, alloc, paragraph_at(cut.found, cut.races))?;
    put_body(page, alloc, cut, version)?;
    page.extend_from_slice(b"</html>\n")?;
    Ok(())
}

/// The report of a diagram, by a program of this version: a page in HTML. The chart is that of one of
/// its scenarios, whose instances all of them have. An error is a growth of memory that was refused.
pub fn report_diagram(
    alloc: Global,
    report: &DiagramReport,
    chart: &Chart,
    queues: Queues,
    version: &[u8],
) -> Result<Page, AllocError>
    ensures { IfOk result (λ page. page.bytes.items
        ≡ diagram_report_text report.now chart.now queues version.now) }
{
    let found = paragraphs(alloc, report.found.as_slice())?;
    let cut = CutReport {
        report,
        found: &found,
        races: races_in(report.sections.as_slice())?,
        chart,
        queues,
    };
    let mut bytes = Vec::new(alloc);
    put_page(&mut bytes, alloc, cut, version)?;
    Ok(Page { bytes })
}
