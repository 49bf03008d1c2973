//! Why the first of two events comes before the second, or a run in which it does not.

ghost use Rattle.std.specs.Prelude.{◌≡◌, ◌≢◌, ◌<◌, length, IfOk, MatchOption};
ghost use Rattle.msc_race.specs.Views.{wiring_of};
ghost use Rattle.msc_reason.specs.Reasons.{IsReason, IsNoRace, IsNotEnforced, IsRaceWith};
ghost use Rattle.msc_reason.specs.Rules.{IsChosenWhy};

use crate::cause::Cause;
use crate::chaining::why_of;
use crate::lacking::{cause_of, is_race};
use crate::reason::Reason;
use crate::why::Why;
use listed::Listed;
use msc_chart::Event;
use msc_race::Enforced;
use std::alloc::{AllocError, Global};

/// Why (`e`, `f`) is a race, if it is one.
fn cause_if_race(enforced: &Enforced, e: Event, f: Event) -> Option<Cause>
    requires e_known { e < length enforced.now.chart.events }
    requires f_known { f < length enforced.now.chart.events }
    ensures { MatchOption result (IsNoRace (wiring_of enforced.now) e f)
        (IsRaceWith (wiring_of enforced.now) e f) }
{
    if is_race(enforced, e, f) {
        return Some(cause_of(enforced, e, f));
    }
    None
}

/// Why `e` is enforced before `f`, if it is.
fn why_if_enforced(
    alloc: Global,
    enforced: &Enforced,
    e: Event,
    f: Event,
) -> Result<Option<Why>, AllocError>
    requires e_known { e < length enforced.now.chart.events }
    requires f_known { f < length enforced.now.chart.events }
    ensures { IfOk result (λ why. MatchOption why (IsNotEnforced (wiring_of enforced.now) e f)
        (IsChosenWhy (wiring_of enforced.now) e f)) }
{
    if enforced.holds(e, f) {
        return Ok(Some(why_of(alloc, enforced, e, f)?));
    }
    Ok(None)
}

/// Why `e` comes before `f`, or a run in which it does not: why it is enforced before it; or a run
/// that has `f` without `e` before it, which is the witness of `e` or, if requested, the short
/// run of both, with the reasons why the pair is a race, if it is one, and why `f` is enforced
/// before `e`, if it is. An error is a growth of memory that was refused.
pub fn explain(
    alloc: Global,
    enforced: &Enforced,
    e: Event,
    f: Event,
    short: bool,
) -> Result<Reason, AllocError>
    requires e_known { e < length enforced.now.chart.events }
    requires f_known { f < length enforced.now.chart.events }
    requires other { e ≢ f }
    ensures { IfOk result (IsReason short (wiring_of enforced.now) e f) }
{
    let Some(run) = enforced.shown_run(alloc, e, f, short)? else {
        return Ok(Reason::Enforced(why_of(alloc, enforced, e, f)?));
    };
    let cause = cause_if_race(enforced, e, f);
    let late = why_if_enforced(alloc, enforced, f, e)?;
    Ok(Reason::Free(Listed::from_vec(run), cause, late))
}
