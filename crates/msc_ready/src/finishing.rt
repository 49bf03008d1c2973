//! Whether a ready run can be whole.
//!
//! The search makes one run, in which each output waits for those that have to precede it. If this
//! run becomes whole, some ready run is whole. If it does not, no ready run is whole, since the
//! required precedences have a ring.

ghost use Rattle.std.specs.Prelude.{◌≡◌, ℕ, ◌<◌, ◌↔◌, length, IfOk, IsTrue, MatchOption};
ghost use Rattle.msc_chart.specs.Lists.{IsLeast};
ghost use Rattle.msc_chart.specs.Runs.{IsWhole};
ghost use Rattle.msc_ready.specs.Beginnings.{HoldsRun};
ghost use Rattle.msc_ready.specs.Finishing.{IsFinishingRun, IsInTurn, MayComeInTurn, MayFinish};
ghost use Rattle.msc_ready.specs.Held.{ready_in, wiring_of};
ghost use Rattle.msc_ready.specs.BlockedPairs.{is_lined};
ghost use Rattle.msc_ready.specs.Readiness.{ReadyRun};

use crate::beginning::Beginning;
use crate::ready::Ready;
use crate::running::Among;
use msc_chart::Event;
use msc_chart::laws::{ends_share_queues, inputs_share_lines};
use std::alloc::{AllocError, Global};

impl Beginning {
    /// Whether `x` is no output that has to wait for another.
    pub fn is_in_turn(&self, ready: &Ready, x: Event) -> bool
        requires known { x < length ready.now.chart.events }
        requires held { HoldsRun ready.now self.now }
        ensures { IsTrue result
            ↔ IsInTurn (wiring_of ready.now) (ready_in ready.now) self.now.run.items x }
    {
        ready.facts();
        ends_share_queues();
        let chart = ready.chart();
        let u = chart.other_end(x);
        // A pair of a line: all that is drawn before `u` has a smaller number. The inputs before the
        // front of the line have occurred, so their messages were sent.
        for r in self.fronts[chart.instance_of(u) as usize]..u {
            if ready.is_lined(r, u) && !self.done[chart.other_end(r) as usize] {
                return false;
            }
        }
        true
    }

    /// The least event that may come next in turn.
    fn next_in_turn(&self, ready: &Ready) -> Option<Event>
        requires { HoldsRun ready.now self.now }
        ensures { MatchOption result ((x : ℕ) → MayComeInTurn (wiring_of ready.now)
            (ready_in ready.now) self.now.run.items x → ⊥)
            (IsLeast (MayComeInTurn (wiring_of ready.now) (ready_in ready.now)
            self.now.run.items)) }
    {
        self.least_next(ready, Among::InTurn)
    }
}

impl Ready<'_> {
    /// The finishing run: each event is the least that may come next in turn, that is, whose message
    /// does not have to wait for another to be sent. After the run none may come in turn. It has all
    /// events if and only if some ready run is whole. An error is a growth of memory that was
    /// refused.
    pub fn finishing_run(&self, alloc: Global) -> Result<Vec<Event>, AllocError>
        ensures run { IfOk result
            (λ run. IsFinishingRun (wiring_of self.now) (ready_in self.now) run.items) }
        ensures ready { IfOk result
            (λ run. ReadyRun (wiring_of self.now) (ready_in self.now) run.items) }
        ensures all { IfOk result (λ run. (length run.items ≡ length self.now.chart.events)
            ↔ IsWhole (wiring_of self.now) run.items) }
        ensures whole { IfOk result (λ run. IsWhole (wiring_of self.now) run.items
            ↔ MayFinish (wiring_of self.now) (ready_in self.now)) }
    {
        self.facts();
        ends_share_queues();
        inputs_share_lines();
        let mut beginning = Beginning::start(alloc, self)?;
        while let Some(x) = beginning.next_in_turn(self) {
            beginning.occur(self, x)?;
        }
        Ok(beginning.run)
    }

    /// Whether some ready run is whole; if none is, each ready run sticks sooner or later. An error
    /// is a growth of memory that was refused.
    pub fn may_finish(&self, alloc: Global) -> Result<bool, AllocError>
        ensures { IfOk result
            (λ may. IsTrue may ↔ MayFinish (wiring_of self.now) (ready_in self.now)) }
    {
        let run = self.finishing_run(alloc)?;
        Ok(run.len() == self.events() as usize)
    }
}
