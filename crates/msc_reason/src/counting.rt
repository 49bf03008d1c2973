//! Which races count, event by event.

ghost use Rattle.std.specs.Prelude.{◌≡◌, ◌+◌, ◌<◌, ◌++◌, length, OnOk};
ghost use Rattle.std.specs.List.{filter, list_any};
ghost use Rattle.msc_chart.specs.Charts.{IsSegmentEnd};
ghost use Rattle.msc_chart.specs.Orders.{IsRace};
ghost use Rattle.msc_race.specs.Views.{wiring_of, AreRacesOf};
ghost use Rattle.msc_race.specs.Walks.{HasReached};
ghost use Rattle.msc_reason.specs.Counting.{counts};
ghost use Rattle.msc_reason.specs.Marked.{counted_from, cause_in};

use crate::lacking::kind_of;
use crate::left_out::LeftOut;
use msc_chart::Event;
use msc_race::{Enforced, Walk};
use std::alloc::AllocError;

/// Whether a race counts: it is not accepted, and its kind is not left out. If nothing is left out,
/// the kind is not looked up. It takes no memory.
pub fn counts(enforced: &Enforced, allowed: LeftOut, race: (Event, Event)) -> bool
    requires { IsRace (wiring_of enforced.now) race.0 race.1 }
    ensures { result ≡ counts allowed.entry (cause_in enforced.now) race }
{
    if allowed.is_empty() {
        return true;
    }
    if allowed.accepts(race.0, race.1) {
        return false;
    }
    !allowed.kinds.has(kind_of(enforced, race.0, race.1))
}

/// Appends the races among these that count.
fn push_counting(
    list: &mut Vec<(Event, Event)>,
    enforced: &Enforced,
    allowed: LeftOut,
    races: &[(Event, Event)],
) -> Result<(), AllocError>
    requires { AreRacesOf enforced.now races.now }
    ensures { OnOk result (list.new.items
        ≡ list.old.items ++ filter (counts allowed.entry (cause_in enforced.now)) races.now) }
{
    for race in races {
        if counts(enforced, allowed, *race) {
            list.push(*race)?;
        }
    }
    Ok(())
}

/// Whether one of these races counts. It stops at the first that does.
pub(crate) fn some_counts(enforced: &Enforced, allowed: LeftOut, races: &[(Event, Event)]) -> bool
    requires { AreRacesOf enforced.now races.now }
    ensures { result ≡ list_any (counts allowed.entry (cause_in enforced.now)) races.now }
{
    for race in races {
        if counts(enforced, allowed, *race) {
            return true;
        }
    }
    false
}

/// Proceeds to event `e` of a walk: the list then has its races that count. `room` is for all of
/// its races. An error is a growth of memory that was refused.
pub(crate) fn next_counting(
    walk: &mut Walk,
    list: &mut Vec<(Event, Event)>,
    room: &mut Vec<(Event, Event)>,
    enforced: &Enforced,
    allowed: LeftOut,
    e: Event,
) -> Result<(), AllocError>
    requires known { e < length enforced.now.chart.events }
    requires reached { HasReached enforced.now.chart.events e walk.old }
    ensures reached { HasReached enforced.now.chart.events (e + 1) walk.new }
    ensures segment { IsSegmentEnd enforced.now.chart.events e walk.new.segment_end }
    ensures list { OnOk result (list.new.items ≡ counted_from enforced.now allowed.entry e) }
{
    if allowed.is_empty() {
        return enforced.next_races(walk, list, e);
    }
    enforced.next_races(walk, room, e)?;
    list.clear();
    push_counting(list, enforced, allowed, room.as_slice())
}
