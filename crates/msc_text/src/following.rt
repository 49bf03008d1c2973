//! A run that keeps the drawing of a chart, or why no run does.

ghost use Rattle.std.specs.Prelude.{◌≡◌, IfOk};
ghost use Rattle.msc_reason.specs.Named.{AreEventsOf};
ghost use Rattle.msc_report.specs.Following.{follows_text, never_text, ring_steps, AreStepsOf};
ghost use Rattle.msc_report.specs.Styles.{event_positions_in};
ghost use Rattle.msc_text.specs.Following.{PrintsFollowed};

use msc_chart::{Chart, Event, Queues};
use msc_follow::{Followed, follow};
use msc_print::Page;
use msc_report::{Style, ring_steps, write_follows, write_never};
use std::alloc::{AllocError, Global};

/// The text that this run keeps the drawing.
fn follows_page(
    alloc: Global,
    chart: &Chart,
    queues: Queues,
    run: &[Event],
    style: Style<'_>,
) -> Result<Page, AllocError>
    requires { AreEventsOf chart.now run.now }
    ensures { IfOk result (λ page.
        page.bytes.items ≡ follows_text style.entry.words chart.now queues run.now) }
{
    let mut page = Page::new(alloc);
    let written = write_follows(&mut page, chart, queues, run, style.words);
    page.if_written(written)
}

/// The text that no run keeps the drawing, by the steps of a ring.
fn never_page(
    alloc: Global,
    chart: &Chart,
    queues: Queues,
    steps: &[(Event, Event)],
    style: Style<'_>,
) -> Result<Page, AllocError>
    requires { AreStepsOf chart.now steps.now }
    ensures { IfOk result (λ page. page.bytes.items
        ≡ never_text (event_positions_in style.entry) chart.now queues steps.now) }
{
    let mut page = Page::new(alloc);
    let written = write_never(&mut page, chart, queues, steps, style.event_positions);
    page.if_written(written)
}

/// The answer to whether some run keeps the drawing of a chart under an architecture: such a run, or
/// the steps of a ring by which none does. Returns also whether some run does. An error is a growth
/// of memory that was refused.
pub fn follow_drawing(
    alloc: Global,
    chart: &Chart,
    queues: Queues,
    style: Style<'_>,
) -> Result<(Page, bool), AllocError>
    ensures { IfOk result
        (λ p. PrintsFollowed chart.now queues style.entry p.1 p.0.bytes.items) }
{
    match follow(alloc, chart, queues)? {
        Followed::Follows(run) => {
            let page = follows_page(alloc, chart, queues, run.as_slice(), style)?;
            Ok((page, true))
        }
        Followed::Never(ring) => {
            let steps = ring_steps(alloc, ring.as_slice())?;
            let page = never_page(alloc, chart, queues, steps.as_slice(), style)?;
            Ok((page, false))
        }
    }
}
