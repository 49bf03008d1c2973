//! Whether no race of any scenario counts, and no mark is stale.

ghost use Rattle.std.specs.Prelude.{IfOk};
ghost use Rattle.msc_diagram.specs.Judging.{PassesCase, PassesScenarios};

use crate::answer::told_marks;
use crate::check::ScenarioCheck;
use crate::marked::{keep_idle, left_out, marked_races};
use crate::scenario::Scenario;
use crate::source::Source;
use msc_race::Enforced;
use msc_race::laws::{short_witnesses_show, the_witness_reverses};
use msc_reason::none_counts;
use std::alloc::{AllocError, Global};

/// Whether no race of a scenario counts. Of these marks, those that accept none of its races are
/// kept.
fn scenario_passes(
    alloc: Global,
    scenario: &Scenario<'_>,
    check: ScenarioCheck<'_>,
    idle: &mut Vec<usize>,
) -> Result<bool, AllocError>
    ensures { IfOk result
        (PassesCase scenario.now check.entry idle.old.items idle.new.items) }
{
    the_witness_reverses();
    short_witnesses_show();
    let enforced = Enforced::of(alloc, &scenario.chart, check.queues)?;
    enforced.facts();
    let marked = marked_races(alloc, check, scenario, &enforced)?;
    keep_idle(idle, check, marked.as_ref());
    let left = left_out(check.options.allowed, marked.as_ref());
    none_counts(alloc, &enforced, left)
}

/// Whether no race of any scenario counts, and no mark is stale. It stops at the first race that
/// does, and makes no text. An error is a growth of memory that was refused.
pub fn scenarios_pass<S: Source>(
    alloc: Global,
    scenarios: &S,
    check: ScenarioCheck<'_>,
) -> Result<bool, AllocError>
    ensures { IfOk result (PassesScenarios (S.scenarios scenarios.now) check.entry) }
{
    let mut idle = told_marks(alloc, check.marks)?;
    for i in 0..scenarios.len() {
        let scenario = scenarios.scenario(alloc, i)?;
        if !scenario_passes(alloc, scenario.get(), check, &mut idle)? {
            return Ok(false);
        }
    }
    Ok(idle.is_empty())
}
