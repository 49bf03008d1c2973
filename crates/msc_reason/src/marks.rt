//! The first and second events of the races that count, noted once for all events.
//!
//! Each race of an event spans another one, unless it is one of those that end first. Such a race
//! spans a race that begins later if that race ends in the same event, or before it.

ghost use Rattle.std.specs.Prelude.{◌≡◌, ◌⊎◌, ℕ, ◌+◌, ◌<◌, ◌≤◌, cond, get_or, length, nat_eq, IfOk};
ghost use Rattle.std.specs.Prelude.{IsTrue};
ghost use Rattle.std.specs.List.{list_any, All};
ghost use Rattle.msc_chart.specs.Lists.{Occurs};
ghost use Rattle.msc_reason.specs.Counting.{counting, is_within};
ghost use Rattle.msc_reason.specs.Marked.{is_counted, cause_in, AreMarks, IsMarked};
ghost use Rattle.msc_reason.specs.declared.left_out.LeftOut.{LeftOut};

use crate::counting::next_counting;
use crate::left_out::LeftOut;
use msc_chart::Event;
use msc_race::{Enforced, Walk};
use std::alloc::{AllocError, Global};

/// The first and second events of the races that count.
#[derive(Drop)]
pub(crate) struct Marks {
    /// For each event, the greatest first event of a race that counts and has it as the second
    /// event.
    pub last: Vec<Event>,
    /// For each number, the least second event of a race that counts and whose first event is not
    /// below the number; the number of events if there is none.
    pub least: Vec<Event>,
}

/// Notes `e` for the second event of each of these races.
fn mark_seconds(last: &mut Vec<Event>, races: &[(Event, Event)], e: Event)
    requires { All (λ p. p.1 < length last.old.items) races.now }
    ensures size { length last.new.items ≡ length last.old.items }
    ensures marked { (y : ℕ) → get_or last.new.items y 0
        ≡ cond (list_any (λ p. nat_eq p.1 y) races.now) e (get_or last.old.items y 0) }
{
    for race in races {
        last[race.1 as usize] = e;
    }
}

/// The least second event of these races, or `none` if that is less or there is none.
pub(crate) fn least_second(races: &[(Event, Event)], none: Event) -> Event
    ensures none_below { All (λ p. result ≤ p.1) races.now }
    ensures itself { (result ≡ none) ⊎ ((x : ℕ) × Occurs races.now (x, result)) }
{
    let mut least = none;
    for race in races {
        least = least.min(race.1);
    }
    least
}

/// For each number, the least of the entries from there on.
fn sink_least(least: &mut Vec<Event>)
    ensures size { length least.new.items ≡ length least.old.items }
    ensures none_below { (s x : ℕ) → s ≤ x → x < length least.old.items
        → get_or least.new.items s 0 ≤ get_or least.old.items x 0 }
    ensures itself { (s : ℕ) → s < length least.old.items
        → (x : ℕ) × (s ≤ x) × (x < length least.old.items)
        × (get_or least.new.items s 0 ≡ get_or least.old.items x 0) }
{
    let size = least.len();
    for k in 1..size {
        let s = size - 1 - k;
        least[s] = least[s].min(least[s + 1]);
    }
}

impl Marks {
    /// The marks of the races of a chart that count. An error is a growth of memory that was
    /// refused.
    pub fn of(alloc: Global, enforced: &Enforced, allowed: LeftOut) -> Result<Marks, AllocError>
        ensures { IfOk result (λ marks. AreMarks (is_counted enforced.now allowed.entry)
            (length enforced.now.chart.events) marks.last.items marks.least.items) }
    {
        let events = enforced.events();
        let mut last = vec![in alloc; 0; events as usize]?;
        let mut least = vec![in alloc; events; events as usize + 1]?;
        let mut list = Vec::new(alloc);
        let mut room = Vec::new(alloc);
        let mut walk = Walk::new();
        for e in 0..events {
            next_counting(&mut walk, &mut list, &mut room, enforced, allowed, e)?;
            mark_seconds(&mut last, list.as_slice(), e);
            least[e as usize] = least_second(list.as_slice(), events);
        }
        sink_least(&mut least);
        Ok(Marks { last, least })
    }

    /// Whether a race that counts spans another one: `first` is the least second event of the races
    /// with its first event, and `end` the number past the segment of its first event. The marks
    /// have the races that count.
    pub fn has_within(
        &self,
        enforced: &Enforced,
        first: Event,
        end: Event,
        race: (Event, Event),
    ) -> bool
        requires { (allowed : LeftOut) × IsMarked enforced.now allowed
            self.now.last.items self.now.least.items first end race }
        ensures { (allowed : LeftOut) → IsMarked enforced.now allowed
            self.now.last.items self.now.least.items first end race
            → result ≡ list_any (is_within enforced.now.chart.events race)
            (counting enforced.now allowed (cause_in enforced.now)) }
    {
        enforced.facts();
        let chart = enforced.chart();
        let (e, f) = race;
        if chart.before(first, f) {
            return true;
        }
        let least = self.least[end as usize];
        if least < chart.events() && chart.before(least, f) {
            return true;
        }
        chart.before(e, self.last[f as usize])
    }
}
