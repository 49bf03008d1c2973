//! The verdict on a chart under an architecture.

ghost use Rattle.std.specs.Prelude.{IfOk};
ghost use Rattle.msc_chart.specs.Orders.{wired};
ghost use Rattle.msc_race.specs.Races.{IsVerdict, TellsRuns};

use crate::enforced::Enforced;
use crate::laws::races_are_what_runs_reverse;
use crate::racing::races;
use listed::Listed;
use msc_chart::{Chart, Event, Queues};
use std::alloc::{AllocError, Global};

/// The verdict on a chart under an architecture.
#[derive(Drop)]
pub enum Verdict {
    /// No drawn pair is a race.
    Pass,
    /// All races, ascending: pairs of events, the first drawn before the second.
    Races(Listed<(Event, Event)>),
}

/// Whether a chart has races under an architecture, and which: [`Verdict::Pass`] if and only if no
/// drawn pair is a race, that is, every run keeps the drawn order; otherwise all races, which are
/// the drawn pairs that some run reverses. An error is a growth of memory that was refused.
pub fn check(alloc: Global, chart: &Chart, queues: Queues) -> Result<Verdict, AllocError>
    ensures verdict { IfOk result (IsVerdict (wired queues chart.now)) }
    ensures runs { IfOk result (TellsRuns (wired queues chart.now)) }
{
    races_are_what_runs_reverse();
    let enforced = Enforced::of(alloc, chart, queues)?;
    enforced.facts();
    let list = races(alloc, chart, enforced.order())?;
    if list.is_empty() {
        return Ok(Verdict::Pass);
    }
    Ok(Verdict::Races(Listed::from_vec(list)))
}
