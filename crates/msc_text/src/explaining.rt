//! Why one event of a chart comes before another, or a run in which it does not.

ghost use Rattle.std.specs.Prelude.{◌≡◌, ◌<◌, length, IfOk};
ghost use Rattle.msc_chart.specs.Orders.{wired};
ghost use Rattle.msc_reason.specs.Named.{NamesAll};
ghost use Rattle.msc_reason.specs.Pairs.{AreTwoEvents};
ghost use Rattle.msc_reason.specs.Reasons.{IsReason};
ghost use Rattle.msc_report.specs.Reasons.{explained_text, NamesRun};
ghost use Rattle.msc_text.specs.Explaining.{is_enforced, PrintsReason};

use msc_chart::{Chart, Event, Queues};
use msc_print::Page;
use msc_race::Enforced;
use msc_reason::laws::{a_reason_names_events, a_why_is_enough};
use msc_reason::{Reason, explain};
use msc_report::{Style, write_explained};
use std::alloc::{AllocError, Global};

/// The reason why `e` is enforced before `f`, or a run in which it does not come first.
fn reason_of(
    alloc: Global,
    chart: &Chart,
    queues: Queues,
    e: Event,
    f: Event,
    short: bool,
) -> Result<Reason, AllocError>
    requires { AreTwoEvents chart.now e f }
    ensures { IfOk result (IsReason short (wired queues chart.now) e f) }
{
    let enforced = Enforced::of(alloc, chart, queues)?;
    explain(alloc, &enforced, e, f, short)
}

/// The text of a reason.
fn page_of(
    alloc: Global,
    chart: &Chart,
    queues: Queues,
    e: Event,
    f: Event,
    reason: &Reason,
    style: Style<'_>,
) -> Result<Page, AllocError>
    requires e_known { e < length chart.now.events }
    requires f_known { f < length chart.now.events }
    requires named { NamesAll chart.now reason.now }
    requires run { NamesRun chart.now reason.now }
    ensures { IfOk result (λ page.
        page.bytes.items ≡ explained_text style.entry chart.now queues e f reason.now) }
{
    let mut page = Page::new(alloc);
    let written = write_explained(&mut page, chart, queues, e, f, reason, style);
    page.if_written(written)
}

/// Whether the reason says that the first event is enforced before the second.
fn is_enforced(reason: &Reason) -> bool
    ensures { result ≡ is_enforced reason.now }
{
    match reason {
        Reason::Enforced(_) => true,
        Reason::Free(_, _, _) => false,
    }
}

/// The explanation of two events of a chart under an architecture. If `e` is enforced before `f`,
/// it is a chain of steps, each by a rule of the enforced order. Otherwise it is a run that has `f`
/// and not `e` before it, a short one if requested, and what the pair lacks if it is a race.
/// Returns also whether `e` is enforced before `f`. An error is a growth of memory that was
/// refused.
pub fn explain_pair(
    alloc: Global,
    chart: &Chart,
    queues: Queues,
    e: Event,
    f: Event,
    short: bool,
    style: Style<'_>,
) -> Result<(Page, bool), AllocError>
    requires { AreTwoEvents chart.now e f }
    ensures { IfOk result
        (λ p. PrintsReason chart.now queues e f short style.entry p.1 p.0.bytes.items) }
{
    a_reason_names_events();
    a_why_is_enough();
    chart.facts();
    let reason = reason_of(alloc, chart, queues, e, f, short)?;
    let page = page_of(alloc, chart, queues, e, f, &reason, style)?;
    Ok((page, is_enforced(&reason)))
}
