//! Pictures of charts and of runs, and reports, as pages.

ghost use Rattle.std.specs.Prelude.{◌≡◌, IfOk, option_map};
ghost use Rattle.msc_chart.specs.Drawings.{chart_of};
ghost use Rattle.msc_answer.specs.Drawing.{AreRanks, IsDrawnOn};

use crate::ending::Refusal;
use crate::naming::pair_named;
use crate::tasks::{Drawn, ReverseArgs};
use crate::text_chart::TextChart;
use crate::version::VERSION;
use msc_draw::{draw_chart, draw_reversal};
use msc_html::report_chart;
use msc_import::arrow_numbers;
use msc_parser::Draft;
use msc_print::Page;
use msc_report::NamedFault;
use std::alloc::{AllocError, Global};

/// The number of the arrow of each event of a chart in the text, if it is a scenario of a diagram.
/// The only error is want of memory.
fn ranks_of(alloc: Global, source: &TextChart<'_, '_>) -> Result<Option<Vec<usize>>, AllocError>
    ensures { IfOk result (λ ranks. AreRanks source.now.drawing (option_map (λ v. v.items) ranks)) }
{
    let Some(drawing) = source.drawing() else {
        return Ok(None);
    };
    let choices = drawing.choices.as_slice();
    match arrow_numbers(alloc, &drawing.diagram, choices, drawing.manner) {
        Ok(numbers) => Ok(Some(numbers)),
        Err(_) => Err(AllocError),
    }
}

/// Ranks, lent.
fn lent(ranks: &Option<Vec<usize>>) -> Option<&[usize]>
    ensures { option_map (λ r. r.now) result ≡ option_map (λ v. v.items) ranks.now }
{
    match ranks {
        Some(ranks) => Some(ranks.as_slice()),
        None => None,
    }
}

/// The picture of a run that reverses a race of a draft's chart, with these ranks of its events.
fn reversal(
    alloc: Global,
    draft: &Draft,
    source: &TextChart<'_, '_>,
    ranks: Option<&[usize]>,
    reversing: ReverseArgs,
) -> Result<Page, Refusal<'static>>
    requires drawn { source.now.chart ≡ chart_of draft.now }
    requires ranks { AreRanks source.now.drawing (option_map (λ r. r.now) ranks) }
    ensures { IsDrawnOn (Drawn.Run reversing) draft.now source.now result }
{
    let (first, second) = (reversing.first, reversing.second);
    let race = match pair_named(alloc, source, first, second)? {
        Ok(pair) => pair,
        Err(fault) => return Err(Refusal::Pair(fault)),
    };
    let (chart, queues) = (source.chart(), reversing.queues);
    match draw_reversal(alloc, draft, chart, ranks, queues, reversing.format, race)? {
        Some(page) => Ok(page),
        None => Err(Refusal::Pair(NamedFault::NoRace(first, second))),
    }
}

/// The page of a picture of a draft's chart, or of its report.
pub(crate) fn page_of(
    alloc: Global,
    drawn: Drawn,
    draft: &Draft,
    source: &TextChart<'_, '_>,
) -> Result<Page, Refusal<'static>>
    requires { source.now.chart ≡ chart_of draft.now }
    ensures { IsDrawnOn drawn draft.now source.now result }
{
    let chart = source.chart();
    let ranks = ranks_of(alloc, source)?;
    let ranks = lent(&ranks);
    match drawn {
        Drawn::Chart(queues, format) => Ok(draw_chart(alloc, draft, chart, ranks, queues, format)?),
        Drawn::Run(reversing) => reversal(alloc, draft, source, ranks, reversing),
        Drawn::Report(queues) => {
            let version = VERSION.as_bytes();
            Ok(report_chart(alloc, draft, chart, ranks, queues, version)?)
        }
    }
}
