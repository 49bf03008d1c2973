//! Two rounds of a chart: the closest races between the first and the second, as a source of pairs.
//!
//! Such a race begins in the last segment that a line has in the first round, and ends in the first
//! segment that it has in the second: nothing is drawn between its events. So for each event of the
//! first round only the segment below its own is examined. Rounds are numbered from 0, the events
//! of two rounds over all lines.

ghost use Rattle.std.specs.Prelude.{◌≡◌, ◌<◌, ◌++◌, [], true, IfOk, OnErr, OnOk, length, nat_eq};
ghost use Rattle.msc_chart.specs.Charts.{IsSegmentEnd};
ghost use Rattle.msc_chart.specs.Rounds.{round_of, two_rounds};
ghost use Rattle.msc_reason.specs.LeftOut.{of_kinds};
ghost use Rattle.msc_reason.specs.Marked.{cause_in};
ghost use Rattle.msc_judge.specs.Between.{are_next, is_told, told_of, told_with};
ghost use Rattle.msc_judge.specs.Rounds.{AreRoundRaces};

use msc_chart::{Event, RoundNumbers};
use msc_print::{Pair, Pairs};
use msc_reason::{Listing, counts, is_race};
use std::alloc::{AllocError, Global};

/// Two rounds of a chart under an architecture, with the kinds of races that are left out, and the
/// numbers of the chart's events in these rounds.
#[derive(Clone, Copy)]
pub struct Rounds<'r, 'a> {
    pub listing: &'r Listing<'a>,
    pub numbers: &'r RoundNumbers<'a>,
    ghost two: { listing.now.judged.chart ≡ two_rounds numbers.now },
}

impl<'r, 'a> Rounds<'r, 'a> {
    /// Whether the pair of `x`, of the first round, and `y`, with nothing drawn between them,
    /// counts.
    fn tells(self, x: Event, y: Event) -> bool
        requires x_known { x < length self.listing.now.judged.chart.events }
        requires y_known { y < length self.listing.now.judged.chart.events }
        requires first { round_of 2 self.numbers.now.events x ≡ 0 }
        requires next { are_next self.listing.now.judged.chart.events x y ≡ true }
        ensures { result ≡ is_told self.entry.numbers.now self.entry.listing.now.judged
            self.entry.listing.now.allowed x y }
    {
        if self.numbers.place(y).1 != 1 {
            return false;
        }
        let enforced = self.listing.enforced();
        enforced.facts();
        if !is_race(enforced, x, y) {
            return false;
        }
        counts(enforced, self.listing.left_out(), (x, y))
    }

    /// Appends the pairs of `x`, of the first round, that count. The segment below its own has the
    /// events from `start` up to `end`.
    fn push_told(
        self,
        list: &mut Vec<(Event, Event)>,
        x: Event,
        start: Event,
        end: Event,
    ) -> Result<(), AllocError>
        requires known { x < length self.listing.now.judged.chart.events }
        requires first { round_of 2 self.numbers.now.events x ≡ 0 }
        requires start { IsSegmentEnd self.listing.now.judged.chart.events x start }
        requires end { IsSegmentEnd self.listing.now.judged.chart.events start end }
        ensures { OnOk result (list.new.items ≡ list.old.items ++ told_with self.entry.numbers.now
            self.entry.listing.now.judged self.entry.listing.now.allowed x) }
    {
        let enforced = self.listing.enforced();
        enforced.facts();
        for y in start..end {
            if self.tells(x, y) {
                list.push((x, y))?;
            }
        }
        Ok(())
    }

    /// Visits event `x` of two rounds: the list then has the pairs that count and begin with it,
    /// ascending. An error is a growth of memory that was refused; the list is empty then.
    pub fn next_pairs(self, list: &mut Vec<(Event, Event)>, x: Event) -> Result<(), AllocError>
        requires known { x < length self.listing.now.judged.chart.events }
        ensures list { OnOk result (list.new.items ≡ told_with self.entry.numbers.now
            self.entry.listing.now.judged self.entry.listing.now.allowed x) }
        ensures error { OnErr result (list.new.items ≡ []) }
    {
        list.clear();
        if self.numbers.place(x).1 != 0 {
            return Ok(());
        }
        let chart = self.listing.enforced().chart();
        chart.facts();
        let start = chart.segment_end(x);
        if start >= chart.events() {
            return Ok(());
        }
        let end = chart.segment_end(start);
        let filled = self.push_told(list, x, start, end);
        if filled.is_err() {
            list.clear();
        }
        filled
    }

    /// The number of pairs that count. An error is a growth of memory that was refused.
    pub fn count(self, alloc: Global) -> Result<u32, AllocError>
        ensures { IfOk result (λ count. count ≡ length (told_of self.entry.numbers.now
            self.entry.listing.now.judged self.entry.listing.now.allowed)) }
    {
        // A pair is of two events, so there are fewer than the square of `EVENT_LIMIT`, which fits.
        self.listing.enforced().facts();
        let mut list = Vec::new(alloc);
        let mut count = 0;
        for x in 0..self.listing.events() {
            self.next_pairs(&mut list, x)?;
            count += list.len() as u32;
        }
        Ok(count)
    }

    /// Whether no pair counts. It stops at the first event that has some. An error is a growth of
    /// memory that was refused.
    pub fn has_none(self, alloc: Global) -> Result<bool, AllocError>
        ensures { IfOk result (λ none. none ≡ nat_eq (length (told_of self.entry.numbers.now
            self.entry.listing.now.judged self.entry.listing.now.allowed)) 0) }
    {
        let mut list = Vec::new(alloc);
        for x in 0..self.listing.events() {
            self.next_pairs(&mut list, x)?;
            if !list.is_empty() {
                return Ok(false);
            }
        }
        Ok(true)
    }

    /// The pairs that count are the closest races between the first and the second round, of no
    /// kind that is left out. It does nothing; a caller calls it for this fact.
    pub fn are_closest(self)
        requires { self.listing.now.allowed ≡ of_kinds self.listing.now.allowed.kinds }
        ensures { AreRoundRaces self.entry.numbers.now self.entry.listing.now.judged
            self.entry.listing.now.allowed.kinds (cause_in self.entry.listing.now.judged)
            (told_of self.entry.numbers.now self.entry.listing.now.judged self.entry.listing.now.allowed) }
    {
        self.listing.enforced().facts();
    }
}

impl<'r, 'a> Pairs for Rounds<'r, 'a> {
    type Walk = Vec<Pair>;

    ghost size = { λ s. length s.listing.now.judged.chart.events };

    ghost from = { λ s e. told_with s.numbers.now s.listing.now.judged s.listing.now.allowed e };

    ghost has_reached = { λ s w e. Unit {0} };

    ghost at = { λ w. w.items };

    fn size(&self) -> u32 {
        self.listing.events()
    }

    fn next(&self, walk: &mut Vec<Pair>, e: u32) -> Result<(), AllocError> {
        self.next_pairs(walk, e)
    }

    fn pairs<'w>(&self, walk: &'w Vec<Pair>) -> &'w [Pair] {
        walk.as_slice()
    }
}
