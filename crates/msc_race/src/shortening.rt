//! The past of an event, put in the order of a run.

ghost use Rattle.std.specs.Prelude.{◌≡◌, ℕ, ◌<◌, ◌↔◌, false, [], ◌∷◌, ◌++◌, IfOk, IfSome, IfNone};
ghost use Rattle.std.specs.Prelude.{OnOk, IsTrue};
ghost use Rattle.msc_chart.specs.Lists.{occurs};
ghost use Rattle.msc_race.specs.Choices.{event_count, wired_chart, IsChoice};
ghost use Rattle.msc_race.specs.Short.{IsShortNext, MayComeFor};
ghost use Rattle.msc_race.specs.Shortenings.{IsShortening, IsShortSoFar, events_of};

use crate::choosing::Choice;
use crate::laws::short_steps_are_a_run;
use crate::lines::Lines;
use crate::needing::Needs;
use crate::queued_run::QueuedRun;
use crate::rows::lowest;
use bit_rows::row::has;
use msc_chart::Event;
use msc_chart::laws::ends_share_queues;
use std::alloc::{AllocError, Global};

/// Events of the past of the choice's event, in the order of the short witness, and the facts on
/// those that have not come.
#[derive(Drop)]
pub struct Shortening {
    pub needs: Needs,
    pub lines: Lines,
    pub queued: QueuedRun,
}

impl Shortening {
    /// Before any event.
    pub fn start(alloc: Global, choice: &Choice) -> Result<Shortening, AllocError>
        requires { IsChoice choice.now }
        ensures { IfOk result (λ s. IsShortening choice.now s) }
    {
        let lines = Lines::start(alloc, choice)?;
        Ok(Shortening {
            needs: Needs::start(alloc, choice, &lines.left)?,
            lines,
            queued: QueuedRun::start(alloc, choice)?,
        })
    }

    /// The events so far.
    pub fn into_run(self) -> Vec<Event>
        ensures { result.items ≡ events_of self }
    {
        self.queued.into_run()
    }

    /// Whether event `f` has not come.
    pub fn lacks(&self, choice: &Choice, f: Event) -> bool
        requires kept { IsShortening choice.now self.now }
        requires known { f < event_count choice.now }
        ensures { IsTrue result ↔ (occurs (events_of self.now) f ≡ false) }
    {
        has(&self.lines.left, f)
    }

    /// The event of the past that comes next, or none if each event that may come waits.
    pub fn next(&self) -> Option<Event>
        requires { (choice : Choice) × IsShortSoFar choice self.now }
        ensures some { (choice : Choice) → IsShortSoFar choice self.now → IfSome result
            (λ x. IsShortNext (wired_chart choice) choice.e (events_of self.now) x) }
        ensures none { (choice : Choice) → IsShortSoFar choice self.now → IfNone result
            ((y : ℕ) → MayComeFor (wired_chart choice) choice.e (events_of self.now) y → ⊥) }
    {
        ends_share_queues();
        lowest(
            &self.lines.controlled,
            &self.queued.inputs,
            self.needs.ready.words(),
        )
    }

    /// `x` comes next.
    pub fn occur(&mut self, choice: &Choice, x: Event) -> Result<(), AllocError>
        requires settled { IsChoice choice.now }
        requires kept { IsShortening choice.now self.old }
        requires next { IsShortNext (wired_chart choice.now) choice.now.e (events_of self.old) x }
        ensures kept { OnOk result (IsShortening choice.now self.new) }
        ensures run { OnOk result (events_of self.new ≡ events_of self.old ++ x ∷ []) }
    {
        short_steps_are_a_run();
        self.lines.occur(choice, x);
        self.needs.occur(choice, &self.lines.left, x);
        self.queued.occur(choice, x)
    }
}
