//! The picture of a run that reverses a race.

ghost use Rattle.std.specs.Prelude.{◌≡◌, ◌<◌, ◌++◌, IfOk, MatchOption, codes, length};
ghost use Rattle.std.specs.Prelude.{option_copied};
ghost use Rattle.std.specs.Fmt.{decimal};
ghost use Rattle.msc_chart.specs.Drawings.{chart_of};
ghost use Rattle.msc_chart.specs.Orders.{IsRace, wired};
ghost use Rattle.msc_race.specs.Reversals.{IsReversingRun};
ghost use Rattle.msc_race.specs.Views.{wiring_of};
ghost use Rattle.msc_reason.specs.Pairs.{AreTwoEvents};
ghost use Rattle.msc_draw.specs.Pictures.{IsNoRace, PrintsReversal, PrintsRun};
ghost use Rattle.msc_draw.specs.Verdicts.{reversal_text};

use crate::picture_format::{PictureFormat, page_in};
use itoa::Buffer;
use msc_chart::{Chart, Event, Queues};
use msc_links::print_queues;
use msc_parser::Draft;
use msc_picture::{Reversed, run_scene};
use msc_print::Page;
use msc_race::Enforced;
use msc_reason::is_race;
use std::alloc::{AllocError, Global};

/// The text above the picture of a run with event `f` before event `e`.
fn reversal(
    alloc: Global,
    chart: &Chart,
    queues: Queues,
    e: Event,
    f: Event,
) -> Result<Vec<u8>, AllocError>
    ensures { IfOk result (λ text. text.items ≡ reversal_text chart.now queues e f) }
{
    let mut buffer = Buffer::new();
    let mut text = Vec::new(alloc);
    print_queues(&mut text, alloc, chart, &queues)?;
    text.extend_from_slice(b": a run with ")?;
    text.extend_from_slice(buffer.format(f).as_bytes())?;
    text.extend_from_slice(b" before ")?;
    text.extend_from_slice(buffer.format(e).as_bytes())?;
    Ok(text)
}

/// The run that reverses a race.
fn run_of(alloc: Global, enforced: &Enforced, e: Event, f: Event) -> Result<Vec<Event>, AllocError>
    requires { IsRace (wiring_of enforced.now) e f }
    ensures { IfOk result (λ run. IsReversingRun (wiring_of enforced.now) e f run.items) }
{
    enforced.facts();
    match enforced.reversing_run(alloc, e, f)? {
        Some(run) => Ok(run),
        None => Err(AllocError),
    }
}

/// The picture of a run that reverses a race of a draft's chart under an architecture, in a format.
/// An error is a growth of memory that was refused.
fn draw_run(
    alloc: Global,
    draft: &Draft,
    enforced: &Enforced,
    ranks: Option<&[usize]>,
    picture_format: PictureFormat,
    race: (Event, Event),
) -> Result<Page, AllocError>
    requires drawn { enforced.now.chart ≡ chart_of draft.now }
    requires race { IsRace (wiring_of enforced.now) race.0 race.1 }
    ensures { IfOk result (λ page. PrintsRun draft.now enforced.now.chart
        (option_copied ranks.entry) enforced.now.queues picture_format race.0 race.1
        page.bytes.items) }
{
    enforced.facts();
    let (e, f) = race;
    let run = run_of(alloc, enforced, e, f)?;
    let reversed = Reversed {
        first: e,
        second: f,
        number: 0,
    };
    let wiring = enforced.wiring();
    let scene = run_scene(alloc, draft, wiring, ranks, run.as_slice(), reversed)?;
    let more = reversal(alloc, enforced.chart(), enforced.queues(), e, f)?;
    let page = page_in(alloc, picture_format, &scene, more.as_slice())?;
    Ok(page)
}

/// The picture of a run with the second of two events of a draft's chart before the first, under an
/// architecture, in a format; none if and only if the two are no race. If `ranks` are given, they
/// have a number for each event, and the events are drawn by these numbers, as in
/// `msc_picture::run_order`. An error is a growth of memory that was refused.
pub fn draw_reversal(
    alloc: Global,
    draft: &Draft,
    chart: &Chart,
    ranks: Option<&[usize]>,
    queues: Queues,
    picture_format: PictureFormat,
    race: (Event, Event),
) -> Result<Option<Page>, AllocError>
    requires drawn { chart.now ≡ chart_of draft.now }
    requires events { AreTwoEvents chart.now race.0 race.1 }
    ensures { IfOk result (λ page. MatchOption page (IsNoRace chart.now queues race.0 race.1)
        (λ page. PrintsReversal draft.now chart.now (option_copied ranks.entry) queues
        picture_format race.0 race.1 page.bytes.items)) }
{
    let enforced = Enforced::of(alloc, chart, queues)?;
    if !is_race(&enforced, race.0, race.1) {
        return Ok(None);
    }
    let page = draw_run(alloc, draft, &enforced, ranks, picture_format, race)?;
    Ok(Some(page))
}
