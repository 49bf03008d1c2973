//! Why a race is one.

ghost use Rattle.std.specs.Prelude.{◌≡◌, ◌≢◌, ◌<◌, ◌↔◌, length, IsTrue};
ghost use Rattle.msc_chart.specs.Orders.{Enforced as IsEnforcedBefore, IsRace};
ghost use Rattle.msc_race.specs.Views.{wiring_of};
ghost use Rattle.msc_reason.specs.Causes.{IsKindOf, IsCauseOf};
ghost use Rattle.msc_reason.specs.Marked.{kind_in, cause_in, needed_in};

use crate::cause::{Cause, RaceKind};
use crate::laws::a_race_has_one_cause;
use msc_chart::{Chart, Event};
use msc_race::Enforced;

/// Whether (`e`, `f`) is a race. Both are numbers of events. It takes no memory.
pub fn is_race(enforced: &Enforced, e: Event, f: Event) -> bool
    requires e_known { e < length enforced.now.chart.events }
    requires f_known { f < length enforced.now.chart.events }
    ensures { IsTrue result ↔ IsRace (wiring_of enforced.now) e f }
{
    enforced.chart().before(e, f) && !enforced.holds(e, f)
}

/// The kind of the race (`e`, `f`). It takes no memory.
pub fn kind_of(enforced: &Enforced, e: Event, f: Event) -> RaceKind
    requires { IsRace (wiring_of enforced.now) e f }
    ensures kind { IsKindOf (wiring_of enforced.now) e f result }
    ensures by_order { result ≡ kind_in enforced.now e f }
{
    enforced.facts();
    let wiring = enforced.wiring();
    let chart = wiring.chart;
    if chart.is_controlled(e) {
        return RaceKind::Early;
    }
    if wiring.queue(e) != wiring.queue(f) {
        return RaceKind::Queues;
    }
    if enforced.holds(chart.other_end(f), chart.other_end(e)) {
        return RaceKind::Overtaken;
    }
    RaceKind::Unordered
}

/// The event that would have to come before the output of the second event, in a race of this kind
/// whose first event is `e`.
fn needed_of(chart: &Chart, kind: RaceKind, e: Event) -> Event
    requires { e < length chart.now.events }
    ensures value { result ≡ needed_in chart.now.events kind e }
    ensures known { result < length chart.now.events }
{
    match kind {
        RaceKind::Early | RaceKind::Queues => e,
        RaceKind::Unordered | RaceKind::Overtaken => chart.other_end(e),
    }
}

/// Why the race (`e`, `f`) is one: its kind, and the pair that is not enforced. It takes no memory.
// If it were copied into the loop over races, its room would be made anew for each.
#[inline(never)]
pub fn cause_of(enforced: &Enforced, e: Event, f: Event) -> Cause
    requires { IsRace (wiring_of enforced.now) e f }
    ensures cause { IsCauseOf (wiring_of enforced.now) e f result }
    ensures needed { result.needed < length enforced.now.chart.events }
    ensures output { result.output < length enforced.now.chart.events }
    ensures by_order { result ≡ cause_in enforced.now e f }

    // So the needed event is another event than the output, and is not enforced before it.
    ensures apart { result.needed ≢ result.output }
    ensures causes { IsEnforcedBefore (wiring_of enforced.now) result.needed result.output → ⊥ }
{
    a_race_has_one_cause();
    enforced.facts();
    let chart = enforced.chart();
    let kind = kind_of(enforced, e, f);
    Cause {
        kind,
        needed: needed_of(chart, kind, e),
        output: chart.other_end(f),
        always: enforced.holds(f, e),
    }
}
