//! The races that are left, event by event: they are counted and enumerated without a list of all
//! of them.

ghost use Rattle.std.specs.Prelude.{◌≡◌, ℕ, ◌<◌, ◌≤◌, ◌↔◌, ◌++◌, [], Bool, length, IsTrue};
ghost use Rattle.std.specs.Prelude.{MatchOption, OnErr, OnOk};
ghost use Rattle.msc_chart.specs.Lists.{pairs_of, pairs_to, IsLeast};
ghost use Rattle.msc_ready.specs.Held.{ready_in, wiring_of};
ghost use Rattle.msc_ready.specs.BlockedPairs.{AreLeft, IsRaceLeft};

use crate::ready::Ready;
use msc_chart::Event;
use std::alloc::AllocError;

impl Ready<'_> {
    /// Whether two events are a race that is left: they are drawn in an order on a line that is not
    /// ready, and the ready order does not hold them in it. Both are numbers of events, from 0. It
    /// takes no memory.
    pub fn is_race_left(&self, e: Event, f: Event) -> bool
        requires e_known { e < length self.now.chart.events }
        requires f_known { f < length self.now.chart.events }
        ensures { IsTrue result ↔ IsRaceLeft (wiring_of self.now) (ready_in self.now) e f }
    {
        let chart = self.chart();
        if !chart.before(e, f) {
            return false;
        }
        if self.is_ready(chart.instance_of(e)) {
            return false;
        }
        !self.holds(e, f)
    }

    /// The least event from `start` on that makes a race that is left with `e` as the first event,
    /// if there is one. It takes no memory.
    pub fn next_race_left(&self, e: Event, start: Event) -> Option<Event>
        requires { e < length self.now.chart.events }
        ensures { MatchOption result ((f : ℕ) → start ≤ f
            → IsRaceLeft (wiring_of self.now) (ready_in self.now) e f → ⊥)
            (IsLeast (λ f. (start ≤ f) × IsRaceLeft (wiring_of self.now) (ready_in self.now) e f)) }
    {
        for f in start..self.events() {
            if self.is_race_left(e, f) {
                return Some(f);
            }
        }
        None
    }

    /// Fills the list with the races that are left whose first event is `e`, ascending. An error is
    /// a growth of memory that was refused; the list is empty then.
    pub fn next_left(&self, list: &mut Vec<(Event, Event)>, e: Event) -> Result<(), AllocError>
        requires { e < length self.now.chart.events }
        ensures list { OnOk result ((left : ℕ → ℕ → Bool)
            → AreLeft (wiring_of self.now) (ready_in self.now) left
            → list.new.items ≡ pairs_to left e (length self.now.chart.events)) }
        ensures error { OnErr result (list.new.items ≡ []) }
    {
        list.clear();
        let filled = self.push_left(list, e);
        if filled.is_err() {
            list.clear();
        }
        filled
    }

    /// Appends the races that are left whose first event is `e`, ascending. An error is a growth of
    /// memory that was refused.
    fn push_left(&self, list: &mut Vec<(Event, Event)>, e: Event) -> Result<(), AllocError>
        requires { e < length self.now.chart.events }
        ensures { OnOk result ((left : ℕ → ℕ → Bool)
            → AreLeft (wiring_of self.now) (ready_in self.now) left
            → list.new.items ≡ list.old.items ++ pairs_to left e (length self.now.chart.events)) }
    {
        for f in 0..self.events() {
            if self.is_race_left(e, f) {
                list.push((e, f))?;
            }
        }
        Ok(())
    }

    /// The number of races that are left with `e` as their first event. It takes no memory.
    fn count_left_from(&self, e: Event) -> u32
        requires { e < length self.now.chart.events }
        ensures few { result ≤ length self.now.chart.events }
        ensures number { (left : ℕ → ℕ → Bool)
            → AreLeft (wiring_of self.now) (ready_in self.now) left
            → result ≡ length (pairs_to left e (length self.now.chart.events)) }
    {
        let mut count = 0;
        for f in 0..self.events() {
            if self.is_race_left(e, f) {
                count += 1;
            }
        }
        count
    }

    /// The number of races that are left. It takes no memory.
    pub fn count_left(&self) -> u32
        ensures { (left : ℕ → ℕ → Bool) → AreLeft (wiring_of self.now) (ready_in self.now) left
            → result ≡ length (pairs_of left (length self.now.chart.events)) }
    {
        // A pair is of two events, so there are fewer than the square of `EVENT_LIMIT`, which fits.
        self.facts();
        let mut total = 0;
        for e in 0..self.events() {
            total += self.count_left_from(e);
        }
        total
    }
}
