//! The report of a chart's races.

ghost use Rattle.std.specs.Prelude.{◌≡◌, ◌++◌, IfOk, OnOk, map, option_copied};
ghost use Rattle.msc_chart.specs.Drawings.{chart_of};
ghost use Rattle.msc_html.specs.Findings.{PrintsReport};
ghost use Rattle.msc_html.specs.Front.{advice_nodes, head_node};
ghost use Rattle.msc_html.specs.Progress.{IsOfDraft, judged, TellsBody, TellsListing, TellsMain};
ghost use Rattle.msc_html.specs.Progress.{TellsPage, TellsRaces};
ghost use Rattle.msc_html.specs.Reports.{command_text, end_nodes, if_any, left_text, more_node};
ghost use Rattle.msc_html.specs.Reports.{more_nodes, races_title, shown_node, text_byte};
ghost use Rattle.msc_html.specs.Reports.{title_text, version_node};
ghost use Rattle.msc_tree.specs.Trees.{line_text, lines_text};

use crate::front::{put_advice, put_head, put_store};
use crate::opening::{put_front, put_said};
use crate::part::{SentenceStyle, Tag, part_of, put_sentence};
use crate::races::{ARTICLE_LIMIT, Source, put_articles};
use msc_chart::{Chart, Queues};
use msc_draw::{bars_listed, verdict};
use msc_links::print_queue_options;
use msc_parser::Draft;
use msc_picture::chart_scene;
use msc_print::Page;
use msc_race::Enforced;
use msc_reason::laws::{every_race_that_counts_spans_a_closest_one, what_counts_is_listed};
use msc_reason::{KindSet, LeftOut, Listing};
use msc_tree::{put_decimal, put_plain};
use std::alloc::{AllocError, Global};

/// The title of a page.
fn title_text(
    alloc: Global,
    name: &[u8],
    enforced: &Enforced,
    races: usize,
    closest: usize,
) -> Result<Vec<u8>, AllocError>
    ensures { IfOk result (λ text. text.items
        ≡ title_text name.now enforced.now.chart enforced.now.queues races closest) }
{
    let verdict = verdict(alloc, enforced.chart(), enforced.queues(), races, closest)?;
    let mut text = Vec::from_slice(alloc, name)?;
    text.extend_from_slice(b", ")?;
    text.extend_from_slice(&verdict)?;
    Ok(text)
}

/// The sentence on the number of closest races without an article.
fn left_text(alloc: Global, closest: usize) -> Result<Vec<u8>, AllocError>
    ensures { IfOk result (λ text. text.items ≡ left_text closest) }
{
    let mut text = Vec::from_slice(alloc, b"And ")?;
    put_decimal(&mut text, closest.saturating_sub(ARTICLE_LIMIT))?;
    text.extend_from_slice(b" more: ")?;
    Ok(text)
}

/// The command that lists them.
fn command_text(alloc: Global, enforced: &Enforced) -> Result<Vec<u8>, AllocError>
    ensures { IfOk result (λ text.
        text.items ≡ command_text enforced.now.chart enforced.now.queues) }
{
    let mut text = Vec::from_slice(alloc, b"msc check ")?;
    print_queue_options(&mut text, alloc, enforced.chart(), &enforced.queues())?;
    text.extend_from_slice(b" --closest --why FILE")?;
    Ok(text)
}

/// Appends the instructions for listing them to a page.
fn put_left(
    page: &mut Vec<u8>,
    alloc: Global,
    enforced: &Enforced,
    closest: usize,
) -> Result<(), AllocError>
    ensures { OnOk result (page.new.items ≡ page.old.items
        ++ line_text (more_node enforced.now.chart enforced.now.queues closest)) }
{
    let text = left_text(alloc, closest)?;
    let command = command_text(alloc, enforced)?;
    let mut parts = Vec::new(alloc);
    parts.push(part_of(alloc, Tag::Words, &text)?)?;
    parts.push(part_of(alloc, Tag::Code, &command)?)?;
    put_sentence(page, b"p", SentenceStyle::Plain, &parts)?;
    Ok(())
}

/// Appends the instructions for listing the other closest races to a page, if there are more.
fn put_more(
    page: &mut Vec<u8>,
    alloc: Global,
    enforced: &Enforced,
    closest: usize,
) -> Result<(), AllocError>
    ensures { OnOk result (page.new.items ≡ page.old.items
        ++ lines_text (more_nodes enforced.now.chart enforced.now.queues closest)) }
{
    if closest <= ARTICLE_LIMIT {
        return Ok(());
    }
    put_left(page, alloc, enforced, closest)?;
    Ok(())
}

/// The byte that is shown for a byte of a text.
fn text_byte(b: u8) -> u8
    ensures { result ≡ text_byte b }
{
    if b == b'\n' {
        return b;
    }
    if b < 32 || b > 126 { b'?' } else { b }
}

/// The text that is shown for a text.
fn shown_text(alloc: Global, text: &[u8]) -> Result<Vec<u8>, AllocError>
    ensures { IfOk result (λ shown. shown.items ≡ map text_byte text.now) }
{
    let mut shown = Vec::new(alloc);
    for b in text {
        shown.push(text_byte(*b))?;
    }
    Ok(shown)
}

/// Appends a text to a page.
fn put_shown(page: &mut Vec<u8>, alloc: Global, text: &[u8]) -> Result<(), AllocError>
    ensures { OnOk result
        (page.new.items ≡ page.old.items ++ line_text (shown_node text.now)) }
{
    let shown = shown_text(alloc, text)?;
    put_said(page, alloc, b"pre", SentenceStyle::Scrolled, &shown)?;
    Ok(())
}

/// Appends the version to a page.
pub fn put_version(page: &mut Vec<u8>, alloc: Global, version: &[u8]) -> Result<(), AllocError>
    ensures { OnOk result
        (page.new.items ≡ page.old.items ++ line_text (version_node version.now)) }
{
    let mut name = Vec::from_slice(alloc, b"msc ")?;
    name.extend_from_slice(version)?;
    put_plain(page, b"footer", &name)?;
    Ok(())
}

/// Appends the canonical text and the version to a page.
fn put_end(page: &mut Vec<u8>, alloc: Global, text: &[u8], version: &[u8]) -> Result<(), AllocError>
    ensures { OnOk result
        (page.new.items ≡ page.old.items ++ lines_text (end_nodes text.now version.now)) }
{
    put_plain(page, b"h2", b"The text")?;
    put_shown(page, alloc, text)?;
    put_version(page, alloc, version)?;
    Ok(())
}

/// Appends the title above the articles to a page, if there are races.
fn put_races_title(page: &mut Vec<u8>, races: usize) -> Result<(), AllocError>
    ensures { OnOk result
        (page.new.items ≡ page.old.items ++ lines_text (if_any races races_title)) }
{
    if races == 0 {
        return Ok(());
    }
    page.extend_from_slice(b"<h2>Closest races</h2>\n")?;
    Ok(())
}

/// Appends the advice on a race to a page, if there are races.
fn put_races_end(page: &mut Vec<u8>, races: usize) -> Result<(), AllocError>
    ensures { OnOk result
        (page.new.items ≡ page.old.items ++ lines_text (if_any races advice_nodes)) }
{
    if races == 0 {
        return Ok(());
    }
    put_advice(page)?;
    Ok(())
}

/// Appends the closest races, one by one, to a page.
fn put_races(
    page: &mut Vec<u8>,
    alloc: Global,
    source: &Source<'_>,
    races: usize,
    closest: usize,
) -> Result<(), AllocError>
    requires { IsOfDraft source.now }
    ensures { OnOk result (TellsRaces source.now page.old.items page.new.items races closest) }
{
    put_races_title(page, races)?;
    put_articles(page, alloc, source)?;
    put_more(page, alloc, source.listing.enforced(), closest)?;
    put_races_end(page, races)?;
    Ok(())
}

/// Appends the main part of a page to it.
fn put_main(
    page: &mut Vec<u8>,
    alloc: Global,
    source: &Source<'_>,
    races: usize,
    closest: usize,
    text: &[u8],
    version: &[u8],
) -> Result<(), AllocError>
    requires { IsOfDraft source.now }
    ensures { OnOk result (TellsMain source.now page.old.items page.new.items races closest text.now
        version.now) }
{
    let enforced = source.listing.enforced();
    put_front(page, alloc, source.scene, enforced, races, closest)?;
    put_races(page, alloc, source, races, closest)?;
    put_end(page, alloc, text, version)?;
    Ok(())
}

/// Appends the body of a page to it.
fn put_body(
    page: &mut Vec<u8>,
    alloc: Global,
    source: &Source<'_>,
    races: usize,
    closest: usize,
    text: &[u8],
    version: &[u8],
) -> Result<(), AllocError>
    requires { IsOfDraft source.now }
    ensures { OnOk result (TellsBody source.now page.old.items page.new.items races closest text.now
        version.now) }
{
    page.extend_from_slice(b"<body>\n")?;
    put_store(page)?;
    page.extend_from_slice(b"<main>\n")?;
    put_main(page, alloc, source, races, closest, text, version)?;
    page.extend_from_slice(b"</main>\n")?;
    page.extend_from_slice(b"</body>\n")?;
    Ok(())
}

/// Appends the head of a page to it.
fn put_titled_head(
    page: &mut Vec<u8>,
    alloc: Global,
    source: &Source<'_>,
    races: usize,
    closest: usize,
) -> Result<(), AllocError>
    ensures { OnOk result (page.new.items ≡ page.old.items
        ++ line_text (head_node (title_text source.now.scene.now.name (judged source.now).chart
        (judged source.now).queues races closest))) }
{
    let enforced = source.listing.enforced();
    let name = source.scene.name.as_slice();
    let title = title_text(alloc, name, enforced, races, closest)?;
    put_head(page, &title)?;
    Ok(())
}

/// Appends a page to another one.
fn put_page(
    page: &mut Vec<u8>,
    alloc: Global,
    source: &Source<'_>,
    races: usize,
    closest: usize,
    text: &[u8],
    version: &[u8],
) -> Result<(), AllocError>
    requires { IsOfDraft source.now }
    ensures { OnOk result (TellsPage source.now page.old.items page.new.items races closest text.now
        version.now) }
{
    page.extend_from_slice(b"<!DOCTYPE html>\n")?;
    page.extend_from_slice(b"<html lang=\"en\">\n")?;
    put_titled_head(page, alloc, source, races, closest)?;
    put_body(page, alloc, source, races, closest, text, version)?;
    page.extend_from_slice(b"</html>\n")?;
    Ok(())
}

/// The report on a listing of races of a chart that has this number of races.
fn report_listing(
    alloc: Global,
    draft: &Draft,
    ranks: Option<&[usize]>,
    listing: &Listing,
    races: usize,
    version: &[u8],
) -> Result<Page, AllocError>
    requires { listing.now.judged.chart ≡ chart_of draft.now }
    ensures { IfOk result (λ page. TellsListing draft.now listing.now
        (option_copied ranks.entry) races version.now page.bytes.items) }
{
    let chart = listing.enforced().chart();
    let (bars, closest) = bars_listed(alloc, listing)?;
    let scene = chart_scene(alloc, draft, chart, ranks, bars)?;
    let text = draft.write(alloc)?;
    let mut bytes = Vec::new(alloc);
    let source = Source {
        draft,
        ranks,
        listing,
        scene: &scene,
    };
    put_page(&mut bytes, alloc, &source, races, closest, &text, version)?;
    Ok(Page { bytes })
}

/// The report of a draft's chart with its enforced order.
fn report_enforced(
    alloc: Global,
    draft: &Draft,
    ranks: Option<&[usize]>,
    enforced: Enforced,
    version: &[u8],
) -> Result<Page, AllocError>
    requires { enforced.chart ≡ chart_of draft.now }
    ensures { IfOk result (λ page. PrintsReport draft.now enforced.entry.chart
        (option_copied ranks.entry) enforced.entry.queues version.now page.bytes.items) }
{
    every_race_that_counts_spans_a_closest_one();
    what_counts_is_listed();
    enforced.facts();
    let races = enforced.count_races() as usize;
    let listing = Listing::of(alloc, enforced, LeftOut::of_kinds(KindSet::NONE), true)?;
    let page = report_listing(alloc, draft, ranks, &listing, races, version)?;
    Ok(page)
}

/// The report on a draft's chart under an architecture, by a program of this version: a page in
/// HTML. If `ranks` are given, they have a number for each event, and the events of its pictures are
/// drawn by these numbers, as in `msc_picture::drawing_order`. An error is a growth of memory that
/// was refused.
pub fn report_chart(
    alloc: Global,
    draft: &Draft,
    chart: &Chart,
    ranks: Option<&[usize]>,
    queues: Queues,
    version: &[u8],
) -> Result<Page, AllocError>
    requires { chart.now ≡ chart_of draft.now }
    ensures { IfOk result (λ page.
        PrintsReport draft.now chart.now (option_copied ranks.entry) queues version.now
        page.bytes.items) }
{
    let enforced = Enforced::of(alloc, chart, queues)?;
    let page = report_enforced(alloc, draft, ranks, enforced, version)?;
    Ok(page)
}
