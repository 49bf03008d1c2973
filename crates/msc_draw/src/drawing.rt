//! The picture of a chart.

ghost use Rattle.std.specs.Prelude.{◌≡◌, ◌++◌, IfOk, OnOk, codes, length};
ghost use Rattle.std.specs.Prelude.{option_copied};
ghost use Rattle.std.specs.Fmt.{decimal};
ghost use Rattle.msc_chart.specs.Drawings.{chart_of};
ghost use Rattle.msc_draw.specs.Pictures.{PrintsChart, PrintsJudged, PrintsPicture};
ghost use Rattle.msc_draw.specs.Verdicts.{counts_text, races_word, verdict_text};

use crate::closest::closest_bars;
use crate::picture_format::{PictureFormat, page_in};
use itoa::Buffer;
use listed::Listed;
use msc_chart::{Chart, Queues};
use msc_links::print_queues;
use msc_parser::Draft;
use msc_picture::chart_scene;
use msc_print::Page;
use msc_race::Enforced;
use std::alloc::{AllocError, Global};

/// Appends the number of races to a text.
fn print_races(text: &mut Vec<u8>, races: usize) -> Result<(), AllocError>
    ensures { OnOk result
        (text.new.items ≡ text.old.items ++ (decimal races ++ races_word races)) }
{
    let mut buffer = Buffer::new();
    text.extend_from_slice(buffer.format(races).as_bytes())?;
    if races == 1 {
        return text.extend_from_slice(b" race, ");
    }
    text.extend_from_slice(b" races, ")
}

/// Appends the number of races, and the number of closest races among them, to a text.
fn print_counts(text: &mut Vec<u8>, races: usize, closest: usize) -> Result<(), AllocError>
    ensures { OnOk result (text.new.items ≡ text.old.items ++ counts_text races closest) }
{
    print_races(text, races)?;
    let mut buffer = Buffer::new();
    text.extend_from_slice(buffer.format(closest).as_bytes())?;
    text.extend_from_slice(b" closest")
}

/// The verdict above a chart with this number of races, after the architecture. An error is a
/// growth of memory that was refused.
pub fn verdict(
    alloc: Global,
    chart: &Chart,
    queues: Queues,
    races: usize,
    closest: usize,
) -> Result<Vec<u8>, AllocError>
    ensures { IfOk result (λ text. text.items ≡ verdict_text chart.now queues races closest) }
{
    let mut text = Vec::new(alloc);
    print_queues(&mut text, alloc, chart, &queues)?;
    text.extend_from_slice(b": ")?;
    if races == 0 {
        text.extend_from_slice(b"pass")?;
        return Ok(text);
    }
    print_counts(&mut text, races, closest)?;
    Ok(text)
}

/// The picture of a chart with the bars of its closest races under an architecture.
fn draw_judged(
    alloc: Global,
    draft: &Draft,
    chart: &Chart,
    ranks: Option<&[usize]>,
    queues: Queues,
    picture_format: PictureFormat,
) -> Result<Page, AllocError>
    requires { chart.now ≡ chart_of draft.now }
    ensures { IfOk result (λ page.
        PrintsJudged draft.now chart.now (option_copied ranks.entry) queues picture_format
        page.bytes.items) }
{
    chart.facts();
    let enforced = Enforced::of(alloc, chart, queues)?;
    enforced.facts();
    let races = enforced.count_races() as usize;
    let (bars, closest) = closest_bars(alloc, enforced)?;
    let more = verdict(alloc, chart, queues, races, closest)?;
    let scene = chart_scene(alloc, draft, chart, ranks, bars)?;
    let page = page_in(alloc, picture_format, &scene, more.as_slice())?;
    Ok(page)
}

/// The picture of a draft's chart, in a format; with the bars of its closest races under an
/// architecture, if one is given. If `ranks` are given, they have a number for each event, and the
/// events are drawn by these numbers, as in `msc_picture::drawing_order`. An error is a growth of
/// memory that was refused.
pub fn draw_chart(
    alloc: Global,
    draft: &Draft,
    chart: &Chart,
    ranks: Option<&[usize]>,
    queues: Option<Queues>,
    picture_format: PictureFormat,
) -> Result<Page, AllocError>
    requires { chart.now ≡ chart_of draft.now }
    ensures { IfOk result (λ page.
        PrintsPicture draft.now chart.now (option_copied ranks.entry) queues picture_format
        page.bytes.items) }
{
    if let Some(queues) = queues {
        return draw_judged(alloc, draft, chart, ranks, queues, picture_format);
    }
    let bars = Listed::from_vec(Vec::new(alloc));
    let scene = chart_scene(alloc, draft, chart, ranks, bars)?;
    let page = page_in(alloc, picture_format, &scene, b"")?;
    Ok(page)
}
