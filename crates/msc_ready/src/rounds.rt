//! The blocked pairs between two rounds of a chart, event by event: they are counted and enumerated
//! without a list of all of them.
//!
//! Rounds are numbered from 0. A blocked pair consists of two inputs of one line. So for each input
//! of the first round the code visits only the events of its line in the second round.

ghost use Rattle.std.specs.Prelude.{◌≡◌, ◌↔◌, ◌<◌, ◌++◌, ◌&&◌, [], length, nat_eq, OnErr, OnOk};
ghost use Rattle.msc_chart.specs.Charts.{is_input, line};
ghost use Rattle.msc_chart.specs.Drawings.{IsAccepted};
ghost use Rattle.msc_chart.specs.Rounds.{round_of, two_rounds};
ghost use Rattle.msc_race.specs.Races.{AreAscending};
ghost use Rattle.msc_ready.specs.Held.{ready_in, wiring_of};
ghost use Rattle.msc_ready.specs.Rounds.{between_from, between_of, AreBetween, AreBetweenFrom};
ghost use Rattle.msc_ready.specs.Rounds.{AreSeconds, BeginsSecond, HasNoneBetween};

use crate::blocked_pairs::BlockedPairs;
use msc_chart::{Event, RoundNumbers};
use std::alloc::AllocError;

/// The blocked pairs of two rounds of a chart that lead from the first round to the second. They
/// are counted and enumerated, and no list of them is kept.
#[derive(Clone, Copy)]
pub struct RoundBlockedPairs<'r, 'a> {
    /// All blocked pairs of the chart of two rounds.
    pub blocked_pairs: &'r BlockedPairs<'a>,
    /// The events of the chart itself in these rounds.
    pub numbers: &'r RoundNumbers<'r>,
    ghost two: { blocked_pairs.now.chart ≡ two_rounds numbers.now },
}

impl RoundBlockedPairs<'_, '_> {
    /// Whether `x` is an input of the first round.
    fn is_begun(&self, x: Event) -> bool
        requires { x < length self.now.blocked_pairs.now.chart.events }
        ensures { result ≡ (nat_eq (round_of 2 self.now.numbers.now.events x) 0
            && is_input self.now.blocked_pairs.now.chart.events x) }
    {
        let (_, round) = self.numbers.place(x);
        if round != 0 {
            return false;
        }
        self.blocked_pairs.ready().is_input(x)
    }

    /// The first event of the second round on the line of `x`.
    fn second_round(&self, x: Event) -> Event
        requires accepted { IsAccepted self.now.numbers.now }
        requires known { x < length self.now.blocked_pairs.now.chart.events }
        ensures begins { BeginsSecond self.now.numbers.now x result }
        ensures known { result < length self.now.blocked_pairs.now.chart.events }
        ensures line { line self.now.blocked_pairs.now.chart.events result
            ≡ line self.now.blocked_pairs.now.chart.events x }
    {
        self.blocked_pairs.ready().facts();
        let chart = self.blocked_pairs.ready().chart();
        let (start, _) = chart.line(chart.instance_of(x));
        let (first, _) = self.numbers.place(start);
        self.numbers.number(first, 1)
    }

    /// The events that may make such a blocked pair with `x`, from the first to the number past the
    /// last: the events of its line in the second round if `x` is an input of the first round,
    /// otherwise none.
    fn seconds(&self, x: Event) -> (Event, Event)
        requires accepted { IsAccepted self.now.numbers.now }
        requires known { x < length self.now.blocked_pairs.now.chart.events }
        ensures { AreSeconds self.now.blocked_pairs.now self.now.numbers.now x result.0 result.1 }
    {
        if !self.is_begun(x) {
            return (0, 0);
        }
        let start = self.second_round(x);
        (start, self.blocked_pairs.ready().chart().line_end(x))
    }

    /// Appends the blocked pairs whose first event is `x`, ascending. An error is a growth of
    /// memory that was refused.
    fn push(&self, list: &mut Vec<(Event, Event)>, x: Event) -> Result<(), AllocError>
        requires accepted { IsAccepted self.now.numbers.now }
        requires known { x < length self.now.blocked_pairs.now.chart.events }
        ensures { OnOk result (list.new.items
            ≡ list.old.items ++ between_from self.now.blocked_pairs.now self.now.numbers.now x) }
    {
        let ready = self.blocked_pairs.ready();
        let (start, end) = self.seconds(x);
        for y in start..end {
            if ready.is_blocked_pair(x, y) {
                list.push((x, y))?;
            }
        }
        Ok(())
    }

    /// The number of blocked pairs with `x` as their first event. It takes no memory.
    fn count_from(&self, x: Event) -> u32
        requires accepted { IsAccepted self.now.numbers.now }
        requires known { x < length self.now.blocked_pairs.now.chart.events }
        ensures { result ≡ length (between_from self.now.blocked_pairs.now self.now.numbers.now x) }
    {
        let ready = self.blocked_pairs.ready();
        let (start, end) = self.seconds(x);
        let mut count = 0;
        for y in start..end {
            if ready.is_blocked_pair(x, y) {
                count += 1;
            }
        }
        count
    }

    /// The facts on these blocked pairs in their order. It does nothing when it runs; a caller that
    /// needs these facts calls it.
    pub fn facts(&self)
        ensures exact { AreBetween self.now.blocked_pairs.now self.now.numbers.now
            (between_of self.now.blocked_pairs.now self.now.numbers.now) }
        ensures ascending { AreAscending (between_of self.now.blocked_pairs.now self.now.numbers.now) }
    {
        self.blocked_pairs.ready().blocked_pairs_are_told();
    }

    /// The number of such blocked pairs. It takes no memory.
    pub fn count(&self) -> u32
        requires { IsAccepted self.now.numbers.now }
        ensures number { result ≡ length (between_of self.now.blocked_pairs.now self.now.numbers.now) }
        ensures none { (result ≡ 0) ↔ HasNoneBetween (wiring_of self.now.blocked_pairs.now)
            (ready_in self.now.blocked_pairs.now) self.now.numbers.now }
    {
        // A pair is of two events, so there are fewer than the square of `EVENT_LIMIT`, which fits.
        self.blocked_pairs.ready().facts();
        self.facts();
        let mut total = 0;
        for x in 0..self.blocked_pairs.ready().events() {
            total += self.count_from(x);
        }
        total
    }

    /// Fills the list with the blocked pairs whose first event is event `x` of two rounds,
    /// ascending. An error is a growth of memory that was refused; the list is empty then.
    pub fn next(&self, list: &mut Vec<(Event, Event)>, x: Event) -> Result<(), AllocError>
        requires accepted { IsAccepted self.now.numbers.now }
        requires known { x < length self.now.blocked_pairs.now.chart.events }
        ensures list { OnOk result (list.new.items
            ≡ between_from self.now.blocked_pairs.now self.now.numbers.now x) }
        ensures error { OnErr result (list.new.items ≡ []) }
        ensures blocked_pairs { AreBetweenFrom self.now.blocked_pairs.now self.now.numbers.now x
            (between_from self.now.blocked_pairs.now self.now.numbers.now x) }
    {
        self.blocked_pairs.ready().blocked_pairs_are_told();
        list.clear();
        let filled = self.push(list, x);
        if filled.is_err() {
            list.clear();
        }
        filled
    }
}
