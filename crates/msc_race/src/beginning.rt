//! The beginning of a witness, and the event that comes next in it.
//!
//! Sets of events are rows of bits, so that the least event of a set is found in a few steps.

ghost use Rattle.std.specs.Prelude.{◌≡◌, ◌<◌, ◌↔◌, [], ◌∷◌, ◌++◌, IfOk, IfSome, IfNone, IsTrue};
ghost use Rattle.std.specs.Prelude.{OnOk};
ghost use Rattle.msc_chart.specs.Runs.{IsWhole};
ghost use Rattle.msc_chart.specs.Witness.{IsWitnessNext};
ghost use Rattle.msc_race.specs.Choices.{wired_chart, IsChoice};
ghost use Rattle.msc_race.specs.Beginnings.{HaveCommon, IsBeginning, IsWitnessSoFar};
ghost use Rattle.msc_race.specs.Beginnings.{run_of};
ghost use Rattle.msc_race.specs.Remainders.{HasFirstWords};

use crate::choosing::Choice;
use crate::laws::{a_witness_goes_on, no_run_is_stuck};
use crate::lines::Lines;
use crate::queued_run::QueuedRun;
use crate::remaining::Remaining;
use crate::rows::lowest;
use msc_chart::Event;
use msc_chart::laws::ends_share_queues;
use std::alloc::{AllocError, Global};

/// The beginning of a witness, and the facts on the events that it does not have.
#[derive(Drop)]
pub struct Beginning {
    pub remaining: Remaining,
    pub lines: Lines,
    pub queued: QueuedRun,
}

impl Beginning {
    /// The empty beginning.
    pub fn start(alloc: Global, choice: &Choice) -> Result<Beginning, AllocError>
        requires { IsChoice choice.now }
        ensures { IfOk result (λ f. IsBeginning choice.now f) }
    {
        let lines = Lines::start(alloc, choice)?;
        Ok(Beginning {
            remaining: Remaining::start(alloc, choice, &lines.left)?,
            lines,
            queued: QueuedRun::start(alloc, choice)?,
        })
    }

    /// The events so far.
    pub fn into_run(self) -> Vec<Event>
        ensures { result.items ≡ run_of self }
    {
        self.queued.into_run()
    }

    /// Whether a free event is left.
    fn has_free(&self) -> bool
        requires { HasFirstWords self.now.remaining self.now.lines.left.items }
        ensures { IsTrue result
            ↔ HaveCommon self.now.remaining.free.items self.now.lines.left.items }
    {
        self.remaining.free_from < self.remaining.free.len()
    }

    /// Whether an output to the queue of `e` that is passed on is left.
    fn has_passed(&self) -> bool
        requires { HasFirstWords self.now.remaining self.now.lines.left.items }
        ensures { IsTrue result
            ↔ HaveCommon self.now.remaining.passed.items self.now.lines.left.items }
    {
        self.remaining.passed_from < self.remaining.passed.len()
    }

    /// The next event of the witness, or none if the run is whole.
    pub fn next(&self) -> Option<Event>
        requires { (choice : Choice) × IsWitnessSoFar choice self.now }
        ensures some { (choice : Choice) → IsWitnessSoFar choice self.now → IfSome result
            (λ x. IsWitnessNext (wired_chart choice) choice.e (run_of self.now) x) }
        ensures none { (choice : Choice) → IsWitnessSoFar choice self.now → IfNone result
            (IsWhole (wired_chart choice) (run_of self.now)) }
    {
        a_witness_goes_on();
        no_run_is_stuck();
        ends_share_queues();
        let controlled = &self.lines.controlled;
        let inputs = &self.queued.inputs;
        if !self.has_free() {
            return lowest(controlled, inputs, &self.lines.left);
        }
        if self.has_passed() {
            return lowest(controlled, inputs, &self.remaining.unheld);
        }
        lowest(controlled, inputs, &self.remaining.free)
    }

    /// `x` comes next.
    pub fn occur(&mut self, choice: &Choice, x: Event) -> Result<(), AllocError>
        requires settled { IsChoice choice.now }
        requires kept { IsBeginning choice.now self.old }
        requires next { IsWitnessNext (wired_chart choice.now) choice.now.e (run_of self.old) x }
        ensures kept { OnOk result (IsBeginning choice.now self.new) }
        ensures run { OnOk result (run_of self.new ≡ run_of self.old ++ x ∷ []) }
    {
        a_witness_goes_on();
        self.lines.occur(choice, x);
        self.remaining.seek(&self.lines.left);
        self.queued.occur(choice, x)
    }
}
