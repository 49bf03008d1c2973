//! Runs after which a system has stuck.

ghost use Rattle.std.specs.Prelude.{◌≡◌, ℕ, ◌<◌, ◌≤◌, ◌↔◌, [], false, get_or, length, IfNone, IfOk};
ghost use Rattle.std.specs.Prelude.{IfSome, IsTrue, MatchOption, OnOk};
ghost use Rattle.msc_chart.specs.Charts.{line, partner};
ghost use Rattle.msc_chart.specs.Lists.{occurs, IsLeast, Steps};
ghost use Rattle.msc_ready.specs.Beginnings.{HasFronts, HoldsRun};
ghost use Rattle.msc_ready.specs.Held.{ready_in, wiring_of};
ghost use Rattle.msc_ready.specs.Looking.{ComesAmong, ComesOn, IsAmong, NoneComesFrom};
ghost use Rattle.msc_ready.specs.Readiness.{MayComeReady};
ghost use Rattle.msc_ready.specs.Running.{GoesOnAs, HasOutputsUpTo, IsBlockedPairNext};
ghost use Rattle.msc_ready.specs.Running.{IsBlockedPairRun};
ghost use Rattle.msc_ready.specs.Running.{IsTowardNext};
ghost use Rattle.msc_ready.specs.BlockedPairs.{IsFirstBlockedPair};

use crate::beginning::Beginning;
use crate::ready::Ready;
use msc_chart::Event;
use msc_chart::laws::{ends_share_queues, inputs_share_lines};
use std::alloc::{AllocError, Global};

/// The events among which the next one is searched.
#[derive(Clone, Copy)]
pub enum Among {
    /// An event, and all that precedes it in the ready order.
    UpTo(Event),
    /// The inputs.
    Inputs,
    /// The events that are in turn: each output that has to precede them has occurred.
    InTurn,
    /// All events.
    All,
}

impl Beginning {
    /// Whether `x` is one of these events.
    fn is_among(&self, ready: &Ready, among: Among, x: Event) -> bool
        requires known { x < length ready.now.chart.events }
        requires held { HoldsRun ready.now self.now }
        requires up_to { (t : ℕ) → among ≡ Among.UpTo t → t < length ready.now.chart.events }
        ensures { IsTrue result ↔ IsAmong (wiring_of ready.now) (ready_in ready.now) among
            self.now.run.items x }
    {
        match among {
            Among::UpTo(t) => x == t || ready.holds(x, t),
            Among::Inputs => ready.is_input(x),
            Among::InTurn => self.is_in_turn(ready, x),
            Among::All => true,
        }
    }

    /// Whether neither `x` nor a later event of line `i` may come next: the line has ended, or it
    /// is ready and `x` may not come. The search calls it from the front of the line on.
    fn is_barred(&self, ready: &Ready, i: u32, x: Event) -> bool
        requires known { x < length ready.now.chart.events }
        requires line { i < length ready.now.chart.instances }
        requires fronts { HasFronts ready.now.chart self.now.run.items self.now.fronts.items }
        requires later { get_or self.now.fronts.items i 0 ≤ x }
        ensures barred { IsTrue result → NoneComesFrom (wiring_of ready.now) (ready_in ready.now)
            self.now.run.items i x }
        ensures on_line { result ≡ false → line ready.now.chart.events x ≡ i }
    {
        ready.facts();
        if ready.chart().instance_of(x) != i {
            return true;
        }
        if !ready.is_ready(i) {
            return false;
        }
        !self.is_settled(ready, x)
    }

    /// Whether `x` is one of these events and may come next.
    fn comes_among(&self, ready: &Ready, among: Among, x: Event) -> bool
        requires known { x < length ready.now.chart.events }
        requires held { HoldsRun ready.now self.now }
        requires up_to { (t : ℕ) → among ≡ Among.UpTo t → t < length ready.now.chart.events }
        ensures { IsTrue result ↔ ComesAmong (wiring_of ready.now) (ready_in ready.now) among
            self.now.run.items x }
    {
        if !self.may_come(ready, x) {
            return false;
        }
        self.is_among(ready, among, x)
    }

    /// The least of these events of line `i` that may come next.
    fn least_on(&self, ready: &Ready, among: Among, i: u32) -> Option<Event>
        requires held { HoldsRun ready.now self.now }
        requires up_to { (t : ℕ) → among ≡ Among.UpTo t → t < length ready.now.chart.events }
        requires line { i < length ready.now.chart.instances }
        ensures { MatchOption result ((x : ℕ) → ComesOn (wiring_of ready.now)
            (ready_in ready.now) among self.now.run.items i x → ⊥)
            (IsLeast (ComesOn (wiring_of ready.now) (ready_in ready.now) among
            self.now.run.items i)) }
    {
        for x in self.fronts[i as usize]..ready.events() {
            if self.is_barred(ready, i, x) {
                return None;
            }
            if self.comes_among(ready, among, x) {
                return Some(x);
            }
        }
        None
    }

    /// The least of these events that may come next.
    pub fn least_next(&self, ready: &Ready, among: Among) -> Option<Event>
        requires held { HoldsRun ready.now self.now }
        requires up_to { (t : ℕ) → among ≡ Among.UpTo t → t < length ready.now.chart.events }
        ensures { MatchOption result ((x : ℕ) → ComesAmong (wiring_of ready.now)
            (ready_in ready.now) among self.now.run.items x → ⊥)
            (IsLeast (ComesAmong (wiring_of ready.now) (ready_in ready.now) among
            self.now.run.items)) }
    {
        ready.facts();
        for i in 0..ready.chart().instances() {
            if let Some(x) = self.least_on(ready, among, i) {
                return Some(x);
            }
        }
        None
    }

    /// The next event on the way to `t`, the second output of a first blocked pair: the least event
    /// up to
    /// `t` that may come or, if none may, the least input that may come; none once `t` has
    /// occurred.
    fn next_toward(&self, ready: &Ready, t: Event) -> Option<Event>
        requires known { t < length ready.now.chart.events }
        requires held { HoldsRun ready.now self.now }
        ensures some { IfSome result
            (IsTowardNext (wiring_of ready.now) (ready_in ready.now) t self.now.run.items) }
        ensures none { (e f : ℕ) → IsFirstBlockedPair (wiring_of ready.now) (ready_in ready.now) e f
            → t ≡ partner ready.now.chart.events f
            → HasOutputsUpTo (wiring_of ready.now) (ready_in ready.now) t self.now.run.items
            → IfNone result (IsTrue (occurs self.now.run.items t)) }
    {
        ready.facts();
        ends_share_queues();
        inputs_share_lines();
        if self.done[t as usize] {
            return None;
        }
        match self.least_next(ready, Among::UpTo(t)) {
            Some(x) => Some(x),
            None => self.least_next(ready, Among::Inputs),
        }
    }

    /// Continues the run with the least event that may come, until none may. An error is a growth
    /// of memory that was refused.
    fn finish(&mut self, ready: &Ready) -> Result<(), AllocError>
        requires { HoldsRun ready.now self.old }
        ensures held { OnOk result (HoldsRun ready.now self.new) }
        ensures longer { OnOk result (GoesOnAs self.old.run.items self.new.run.items) }
        ensures none { OnOk result ((x : ℕ) → MayComeReady (wiring_of ready.now)
            (ready_in ready.now) self.new.run.items x → ⊥) }
        ensures witness { OnOk result ((t : ℕ) → IsTrue (occurs self.old.run.items t)
            → Steps (IsBlockedPairNext (wiring_of ready.now) (ready_in ready.now) t) []
            self.old.run.items → Steps (IsBlockedPairNext (wiring_of ready.now) (ready_in ready.now) t)
            [] self.new.run.items) }
    {
        while let Some(x) = self.least_next(ready, Among::All) {
            self.occur(ready, x)?;
        }
        Ok(())
    }
}

impl Ready<'_> {
    /// A run after which the system has stuck, for a first blocked pair: it has the second output
    /// without the first output before it. While an event up to the second output is left, the next
    /// event is the least of these that may come or, if none may, the least input that may come.
    /// After that it is the least event that may come, until none may. An error is a growth of
    /// memory that was refused.
    pub fn blocked_pair_run(
        &self,
        alloc: Global,
        e: Event,
        f: Event,
    ) -> Result<Vec<Event>, AllocError>
        requires { IsFirstBlockedPair (wiring_of self.now) (ready_in self.now) e f }
        ensures { IfOk result
            (λ run. IsBlockedPairRun (wiring_of self.now) (ready_in self.now) e f run.items) }
    {
        self.facts();
        ends_share_queues();
        let t = self.chart().other_end(f);
        let mut beginning = Beginning::start(alloc, self)?;
        while let Some(x) = beginning.next_toward(self, t) {
            beginning.occur(self, x)?;
        }
        beginning.finish(self)?;
        Ok(beginning.run)
    }
}
