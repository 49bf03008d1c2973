//! The list of a chart's events.

ghost use Rattle.std.specs.Prelude.{◌≡◌, IfOk, option_map};
ghost use Rattle.msc_report.specs.Lists.{listed_text};

use msc_chart::Chart;
use msc_place::EventPositions;
use msc_print::Page;
use msc_report::write_list;
use std::alloc::{AllocError, Global};

/// The events of a chart, a line for each, with their places if these are given. An error is a
/// growth of memory that was refused.
pub fn list_chart(
    alloc: Global,
    chart: &Chart,
    event_positions: Option<&EventPositions<'_>>,
) -> Result<Page, AllocError>
    ensures { IfOk result (λ page. page.bytes.items
        ≡ listed_text chart.now (option_map (λ s. s.now) event_positions.entry)) }
{
    let mut page = Page::new(alloc);
    let written = write_list(&mut page, chart, event_positions);
    page.if_written(written)
}
