//! A run, and the contents of its queues, so that the inputs that may come next are known. The code
//! for each event is inlined: both chosen and short witnesses use it, and it would be a call in
//! each.

ghost use Rattle.std.specs.Prelude.{◌≡◌, ℕ, ◌<◌, ◌≤◌, [], ◌∷◌, ◌++◌, IfOk, OnOk};
ghost use Rattle.std.specs.Prelude.{IsTrue};
ghost use Rattle.msc_chart.specs.Charts.{is_input, is_output};
ghost use Rattle.msc_chart.specs.Orders.{queue};
ghost use Rattle.msc_chart.specs.Runs.{MayCome, Run};
ghost use Rattle.msc_race.specs.QueuedRuns.{HoldsQueues, IsComing};
ghost use Rattle.msc_race.specs.Choices.{wired_chart, IsChoice};

use crate::choosing::Choice;
use crate::rows::empty;
use bit_rows::set::Set;
use msc_chart::Event;
use msc_chart::laws::ends_share_queues;
use std::alloc::{AllocError, Global};

/// A run, and its queues as linked lists: the first and the last output of each queue, and for an
/// output the next one of its queue. If a queue is empty, its head is the number of events. The
/// last part is the inputs whose messages are the first of their queues.
#[derive(Drop)]
pub struct QueuedRun {
    pub run: Vec<Event>,
    pub heads: Vec<Event>,
    pub lasts: Vec<Event>,
    pub next: Vec<Event>,
    pub inputs: Set,
}

impl QueuedRun {
    /// The empty run.
    pub fn start(alloc: Global, choice: &Choice) -> Result<QueuedRun, AllocError>
        requires { IsChoice choice.now }
        ensures queues { IfOk result (λ c. HoldsQueues (wired_chart choice.now) [] c) }
        ensures run { IfOk result (λ c. c.run.items ≡ []) }
    {
        let events = choice.wiring.chart.events();
        let queues = choice.wiring.queue_count() as usize;
        Ok(QueuedRun {
            run: Vec::new(alloc),
            heads: vec![in alloc; events; queues]?,
            lasts: vec![in alloc; 0; queues]?,
            next: vec![in alloc; 0; events as usize]?,
            inputs: empty(alloc, events)?,
        })
    }

    /// The events so far.
    pub fn into_run(self) -> Vec<Event>
        ensures { result ≡ self.run }
    {
        self.run
    }

    /// Puts output `x` at the end of its queue.
    #[inline(always)]
    fn send(&mut self, choice: &Choice, x: Event)
        requires settled { IsChoice choice.now }
        requires coming { IsComing (wired_chart choice.now) self.old x }
        requires output { IsTrue (is_output choice.now.wiring.chart.now.events x) }
        ensures queues { HoldsQueues (wired_chart choice.now)
            (self.old.run.items ++ x ∷ []) self.new }
        ensures run { self.new.run ≡ self.old.run }
    {
        let q = choice.wiring.queue(x) as usize;
        let last = self.lasts[q];
        self.lasts[q] = x;
        if self.heads[q] == choice.wiring.chart.events() {
            self.heads[q] = x;
            self.inputs
                .put_where(choice.wiring.chart.other_end(x), true);
        } else {
            self.next[last as usize] = x;
        }
    }

    /// Takes the message of input `x` out of its queue.
    #[inline(always)]
    fn take(&mut self, choice: &Choice, x: Event)
        requires settled { IsChoice choice.now }
        requires coming { IsComing (wired_chart choice.now) self.old x }
        requires input { IsTrue (is_input choice.now.wiring.chart.now.events x) }
        ensures queues { HoldsQueues (wired_chart choice.now)
            (self.old.run.items ++ x ∷ []) self.new }
        ensures run { self.new.run ≡ self.old.run }
    {
        let events = choice.wiring.chart.events();
        let q = choice.wiring.queue(x) as usize;
        let output = choice.wiring.chart.other_end(x);
        self.inputs.clear(x);
        if self.lasts[q] == output {
            self.heads[q] = events;
        } else {
            let following = self.next[output as usize];
            self.heads[q] = following;
            self.inputs
                .put_where(choice.wiring.chart.other_end(following), true);
        }
    }

    /// Updates the queues for `x`: puts the message of an output, and takes the message of an
    /// input.
    #[inline(always)]
    fn change(&mut self, choice: &Choice, x: Event)
        requires settled { IsChoice choice.now }
        requires queues { HoldsQueues (wired_chart choice.now) self.old.run.items self.old }
        requires run { Run (wired_chart choice.now) self.old.run.items }
        requires may { MayCome (wired_chart choice.now) self.old.run.items x }
        ensures queues { HoldsQueues (wired_chart choice.now)
            (self.old.run.items ++ x ∷ []) self.new }
        ensures run { self.new.run ≡ self.old.run }
    {
        ends_share_queues();
        if choice.wiring.chart.is_output(x) {
            return self.send(choice, x);
        }
        if !choice.wiring.chart.is_local(x) {
            self.take(choice, x);
        }
    }

    /// `x` occurs.
    #[inline(always)]
    pub fn occur(&mut self, choice: &Choice, x: Event) -> Result<(), AllocError>
        requires settled { IsChoice choice.now }
        requires queues { HoldsQueues (wired_chart choice.now) self.old.run.items self.old }
        requires run { Run (wired_chart choice.now) self.old.run.items }
        requires may { MayCome (wired_chart choice.now) self.old.run.items x }
        ensures queues { OnOk result
            (HoldsQueues (wired_chart choice.now) self.new.run.items self.new) }
        ensures run { OnOk result (self.new.run.items ≡ self.old.run.items ++ x ∷ []) }
    {
        self.change(choice, x);
        self.run.push(x)?;
        Ok(())
    }
}
