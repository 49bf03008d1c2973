//! The steps of a ring, and those between events of a chart.

ghost use Rattle.std.specs.Prelude.{◌≡◌, ◌<◌, IfOk, length, map};
ghost use Rattle.msc_full.specs.Steps.{chart_step, step_order, AreStepsOf};

use msc_chart::{Chart, Event};
use std::alloc::{AllocError, Global};

/// Why an event has to come before another.
#[derive(Clone, Copy, Debug, PartialEq, Eq)]
pub enum StepOrder {
    /// The second event receives what the first one sends.
    Sent,
    /// They are drawn in this order on one instance.
    Drawn,
    /// Both send to one queue, and what the first one sends is received first.
    Queued,
}

/// A step of a ring: its first event has to come before its second.
#[derive(Clone, Copy, Debug, PartialEq, Eq)]
pub struct ShownStep {
    pub first: Event,
    pub second: Event,
    pub order: StepOrder,
}

/// Why an event of a chart has to come before another: the other one receives its message, or is
/// drawn below it; otherwise its message has to be ahead in their queue.
fn step_order(chart: &Chart, first: Event, second: Event) -> StepOrder
    requires first_known { first < length chart.now.events }
    requires second_known { second < length chart.now.events }
    ensures { result ≡ step_order chart.now first second }
{
    if chart.is_output(first) && chart.other_end(first) == second {
        StepOrder::Sent
    } else if chart.before(first, second) {
        StepOrder::Drawn
    } else {
        StepOrder::Queued
    }
}

/// A step between two events of a chart.
fn chart_step(chart: &Chart, step: (Event, Event)) -> ShownStep
    requires first_known { step.0 < length chart.now.events }
    requires second_known { step.1 < length chart.now.events }
    ensures { result ≡ chart_step chart.now step }
{
    let (first, second) = step;
    ShownStep {
        first,
        second,
        order: step_order(chart, first, second),
    }
}

/// The steps between these events of a chart, from the first to the second of each pair. The only
/// error is want of memory.
pub fn chart_steps(
    alloc: Global,
    chart: &Chart,
    pairs: &[(Event, Event)],
) -> Result<Vec<ShownStep>, AllocError>
    requires { AreStepsOf chart.now pairs.now }
    ensures { IfOk result (λ steps. steps.items ≡ map (chart_step chart.now) pairs.now) }
{
    let mut steps = Vec::new(alloc);
    for pair in pairs {
        steps.push(chart_step(chart, *pair))?;
    }
    Ok(steps)
}
