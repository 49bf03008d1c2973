//! All blocked pairs of a chart, and which of them come first.

ghost use Rattle.std.specs.Prelude.{◌≡◌, ℕ, ◌<◌, ◌↔◌, [], length, IfOk, IsTrue, MatchOption, OnErr};
ghost use Rattle.std.specs.Prelude.{OnOk};
ghost use Rattle.msc_chart.specs.Lists.{IsLeast};
ghost use Rattle.msc_ready.specs.Held.{ready_in, wiring_of};
ghost use Rattle.msc_ready.specs.BlockedPairs.{HasNoBlockedPair, IsAhead, IsFirstBlockedPair};
ghost use Rattle.msc_ready.specs.BlockedPairs.{IsLeastAhead};
ghost use Rattle.msc_ready.specs.Views.{blocked_pairs_from, blocked_pairs_of, AreLeastFirsts};
ghost use Rattle.msc_ready.specs.Views.{AreBlockedPairs};
ghost use Rattle.msc_ready.specs.Views.{AreBlockedPairsFrom, HasAhead};
ghost use Rattle.msc_race.specs.Races.{AreAscending};
ghost use Rattle.msc_ready.specs.Lesser.{lesser_of};

use crate::ready::Ready;
use msc_chart::Event;
use std::alloc::{AllocError, Global};
use std::marker::Model;

/// All blocked pairs of a chart with ready instances: they are counted and enumerated, and no list
/// of them is kept. Contracts see the chart.
#[derive(Drop)]
pub struct BlockedPairs<'a> {
    ready: Ready<'a>,
    /// For each event, the least event that makes a blocked pair with it as the second event, or
    /// the number of events.
    firsts: Vec<Event>,
}

impl<'a> Model for BlockedPairs<'a> {
    ghost use Rattle.msc_ready.specs.Held.{ReadyChart};
    ghost use Rattle.msc_ready.specs.Views.{HasLeastFirsts};

    ghost Value = { ReadyChart };

    ghost view = { λ s. s.ready };

    ghost invariant = { λ s. HasLeastFirsts s.ready s.firsts.items };
}

/// For each event, the least event that makes a blocked pair with it as the second event.
fn least_firsts(alloc: Global, ready: &Ready) -> Result<Vec<Event>, AllocError>
    ensures each { IfOk result
        (λ firsts. length firsts.items ≡ length ready.now.chart.events) }
    ensures least { IfOk result
        (λ firsts. AreLeastFirsts ready.now firsts.items (length ready.now.chart.events)) }
{
    let mut firsts = Vec::new(alloc);
    for h in 0..ready.events() {
        firsts.push(ready.least_first(h))?;
    }
    Ok(firsts)
}

/// The lesser of a pair and `(g, h)`, whose second event is greater. If there is only one of the
/// two, that one.
fn lesser(least: Option<(Event, Event)>, g: Option<Event>, h: Event) -> Option<(Event, Event)>
    ensures { result ≡ lesser_of least g h }
{
    match (least, g) {
        (least, None) => least,
        (Some(pair), Some(g)) if pair.0 <= g => Some(pair),
        (_, Some(g)) => Some((g, h)),
    }
}

impl<'a> BlockedPairs<'a> {
    /// The blocked pairs of a chart. An error is a growth of memory that was refused.
    pub fn of(alloc: Global, ready: Ready<'a>) -> Result<BlockedPairs<'a>, AllocError>
        ensures { IfOk result (λ blocked_pairs. blocked_pairs ≡ ready.entry) }
    {
        let firsts = least_firsts(alloc, &ready)?;
        Ok(BlockedPairs { ready, firsts })
    }

    /// The chart with its ready instances.
    pub fn ready(&self) -> &Ready<'a>
        ensures { result.now ≡ self.now }
    {
        &self.ready
    }

    /// The facts on the blocked pairs in their order. It does nothing when it runs; a caller that
    /// needs these facts calls it.
    pub fn facts(&self)
        ensures { AreBlockedPairs self.now (blocked_pairs_of self.now) }
    {
        self.ready.blocked_pairs_are_told();
    }

    /// The number of blocked pairs. It takes no memory.
    pub fn count(&self) -> u32
        ensures number { result ≡ length (blocked_pairs_of self.now) }
        ensures exact { AreBlockedPairs self.now (blocked_pairs_of self.now) }
        ensures ascending { AreAscending (blocked_pairs_of self.now) }
        ensures none { (result ≡ 0) ↔ HasNoBlockedPair (wiring_of self.now) (ready_in self.now) }
    {
        self.ready.blocked_pairs_are_told();
        self.ready.count_blocked_pairs()
    }

    /// Fills the list with the blocked pairs whose first event is `e`, ascending. An error is a
    /// growth of memory that was refused; the list is empty then.
    pub fn next(&self, list: &mut Vec<(Event, Event)>, e: Event) -> Result<(), AllocError>
        requires { e < length self.now.chart.events }
        ensures list { OnOk result (list.new.items ≡ blocked_pairs_from self.now e) }
        ensures error { OnErr result (list.new.items ≡ []) }
        ensures blocked_pairs { AreBlockedPairsFrom self.now e (blocked_pairs_from self.now e) }
    {
        self.ready.blocked_pairs_are_told();
        list.clear();
        let filled = self.ready.push_blocked_pairs(list, e);
        if filled.is_err() {
            list.clear();
        }
        filled
    }

    /// The least event that makes a blocked pair with `h` as the second event whose second output
    /// precedes that of input `f`.
    fn ahead_with(&self, h: Event, f: Event) -> Option<Event>
        requires h_known { h < length self.now.chart.events }
        requires f_known { f < length self.now.chart.events }
        ensures { MatchOption result ((g : ℕ) → IsAhead (wiring_of self.now) (ready_in self.now) f
            (g, h) → ⊥) (λ g. IsLeast (λ x. IsAhead (wiring_of self.now) (ready_in self.now) f
            (x, h)) g) }
    {
        let ready = &self.ready;
        let g = self.firsts[h as usize];
        if g >= ready.events() {
            return None;
        }
        let chart = ready.chart();
        if !ready.holds(chart.other_end(h), chart.other_end(f)) {
            return None;
        }
        Some(g)
    }

    /// The least blocked pair whose second output precedes that of input `f`, if there is one. A
    /// blocked pair is first if there is none for its second event. It takes no memory.
    pub fn ahead_of(&self, f: Event) -> Option<(Event, Event)>
        requires { f < length self.now.chart.events }
        ensures { MatchOption result ((p : ℕ × ℕ) → IsAhead (wiring_of self.now)
            (ready_in self.now) f p → ⊥) (IsLeastAhead (wiring_of self.now) (ready_in self.now) f) }
    {
        let mut least = None;
        for h in 0..self.ready.events() {
            least = lesser(least, self.ahead_with(h, f), h);
        }
        least
    }

    /// For each event, as the second event of blocked pairs, the least blocked pair that is ahead
    /// of it, if there is one. An error is a growth of memory that was refused.
    pub fn all_ahead(&self, alloc: Global) -> Result<Vec<Option<(Event, Event)>>, AllocError>
        ensures { IfOk result (λ all. HasAhead self.now all.items) }
    {
        let mut all = Vec::new(alloc);
        for f in 0..self.ready.events() {
            all.push(self.ahead_of(f))?;
        }
        Ok(all)
    }

    /// Whether two events are a first blocked pair: a blocked pair such that no blocked pair's
    /// second output precedes its own second output. Both are numbers of events, from 0. It takes
    /// no memory.
    pub fn is_first(&self, e: Event, f: Event) -> bool
        requires e_known { e < length self.now.chart.events }
        requires f_known { f < length self.now.chart.events }
        ensures { IsTrue result ↔ IsFirstBlockedPair (wiring_of self.now) (ready_in self.now) e f }
    {
        if !self.ready.is_blocked_pair(e, f) {
            return false;
        }
        match self.ahead_of(f) {
            Some(_) => false,
            None => true,
        }
    }
}
