//! The beginning of a ready run, and which events may come next.

ghost use Rattle.std.specs.Prelude.{◌≡◌, ℕ, ◌<◌, ◌↔◌, List, [], ◌∷◌, ◌++◌, length, IfOk};
ghost use Rattle.std.specs.Prelude.{IsTrue, OnOk};
ghost use Rattle.std.specs.List.{All};
ghost use Rattle.msc_chart.specs.Charts.{before, is_input, partner};
ghost use Rattle.msc_chart.specs.Lists.{occurs, IsFirst};
ghost use Rattle.msc_chart.specs.Orders.{queue, queue_bound};
ghost use Rattle.msc_chart.specs.Runs.{is_waiting, state};
ghost use Rattle.msc_ready.specs.Held.{ready_in, wiring_of};
ghost use Rattle.msc_ready.specs.Readiness.{MayComeReady};
ghost use Rattle.msc_ready.specs.Beginnings.{HasFronts, HasHeads, HasMarks, HoldsRun, IsHead};
ghost use Rattle.msc_ready.specs.Beginnings.{IsNextFront};

use crate::ready::Ready;
use msc_chart::Event;
use msc_chart::laws::{ends_share_queues, queue_numbers_are_bounded};
use std::alloc::{AllocError, Global};

/// The beginning of a ready run.
#[derive(Drop)]
pub struct Beginning {
    /// The events so far.
    pub run: Vec<Event>,
    /// For each event, whether it has occurred.
    pub done: Vec<bool>,
    /// For each line, the first event that has not occurred, or a number past the line.
    pub fronts: Vec<Event>,
    /// For each queue, the output whose message is first in it, or the number of events if it is
    /// empty.
    pub heads: Vec<Event>,
}

/// The first event of each line.
fn first_events(alloc: Global, ready: &Ready) -> Result<Vec<Event>, AllocError>
    ensures { IfOk result (λ fronts. HasFronts ready.now.chart [] fronts.items) }
{
    ready.facts();
    let chart = ready.chart();
    let mut fronts = Vec::new(alloc);
    for i in 0..chart.instances() {
        fronts.push(chart.line(i).0)?;
    }
    Ok(fronts)
}

/// The first event of line `i` from `start` on that has not occurred, or a number past the line.
fn next_front(ready: &Ready, done: &[bool], i: u32, start: Event) -> Event
    requires { length done.now ≡ length ready.now.chart.events }
    ensures { IsNextFront ready.now.chart.events done.now i start result }
{
    let chart = ready.chart();
    let events = chart.events();
    for f in start..events {
        if chart.instance_of(f) != i {
            return f;
        }
        if !done[f as usize] {
            return f;
        }
    }
    start.max(events)
}

/// Whether the message of event `x` is in queue `q`.
fn waits(ready: &Ready, done: &[bool], q: u32, x: Event) -> bool
    requires known { x < length ready.now.chart.events }
    requires marks { length done.now ≡ length ready.now.chart.events }
    ensures { (run : List ℕ) → HasMarks (length ready.now.chart.events) run done.now
        → result ≡ is_waiting (wiring_of ready.now) q run x }
{
    ready.facts();
    let chart = ready.chart();
    if !chart.is_output(x) {
        return false;
    }
    if ready.queue(x) != q {
        return false;
    }
    !done[chart.other_end(x) as usize]
}

/// The first of these events whose message is in queue `q`, or the number of all events if there is
/// none.
fn first_waiting(ready: &Ready, run: &[Event], done: &[bool], q: u32) -> Event
    requires events { All (λ x. x < length ready.now.chart.events) run.now }
    requires marks { HasMarks (length ready.now.chart.events) run.now done.now }
    ensures { IsHead (length ready.now.chart.events) (state (wiring_of ready.now) q run.now)
        result }
{
    for x in run {
        if waits(ready, done, q, *x) {
            return *x;
        }
    }
    ready.events()
}

impl Beginning {
    /// The empty run.
    pub fn start(alloc: Global, ready: &Ready) -> Result<Beginning, AllocError>
        ensures held { IfOk result (λ b. HoldsRun ready.now b) }
        ensures none { IfOk result (λ b. b.run.items ≡ []) }
    {
        let events = ready.events();
        let queues = ready.wiring().queue_count();
        Ok(Beginning {
            run: Vec::new(alloc),
            done: vec![in alloc; false; events as usize]?,
            fronts: first_events(alloc, ready)?,
            heads: vec![in alloc; events; queues as usize]?,
        })
    }

    /// Whether all events drawn before `x` have occurred.
    pub fn is_settled(&self, ready: &Ready, x: Event) -> bool
        requires known { x < length ready.now.chart.events }
        requires fronts { HasFronts ready.now.chart self.now.run.items self.now.fronts.items }
        ensures { IsTrue result ↔ ((y : ℕ) → IsTrue (before ready.now.chart.events y x)
            → IsTrue (occurs self.now.run.items y)) }
    {
        ready.facts();
        let chart = ready.chart();
        let front = self.fronts[chart.instance_of(x) as usize];
        if front >= chart.events() {
            return true;
        }
        !chart.before(front, x)
    }

    /// Whether the message of input `x` is the first of its queue.
    fn has_arrived(&self, ready: &Ready, x: Event) -> bool
        requires input { IsTrue (is_input ready.now.chart.events x) }
        requires heads { HasHeads (wiring_of ready.now)
            (queue_bound ready.now.queues ready.now.chart) self.now.run.items
            self.now.heads.items }
        ensures { IsTrue result ↔ IsFirst (state (wiring_of ready.now)
            (queue (wiring_of ready.now) x) self.now.run.items)
            (partner ready.now.chart.events x) }
    {
        ready.facts();
        queue_numbers_are_bounded();
        let head = self.heads[ready.queue(x) as usize];
        head == ready.chart().other_end(x)
    }

    /// Whether `x` may come next.
    pub fn may_come(&self, ready: &Ready, x: Event) -> bool
        requires known { x < length ready.now.chart.events }
        requires held { HoldsRun ready.now self.now }
        ensures { IsTrue result ↔ MayComeReady (wiring_of ready.now) (ready_in ready.now)
            self.now.run.items x }
    {
        if self.done[x as usize] {
            return false;
        }
        if !ready.is_input(x) {
            return self.is_settled(ready, x);
        }
        if !self.has_arrived(ready, x) {
            return false;
        }
        if !ready.is_ready(ready.chart().instance_of(x)) {
            return true;
        }
        self.is_settled(ready, x)
    }

    /// `x` occurs. An error is a growth of memory that was refused.
    pub fn occur(&mut self, ready: &Ready, x: Event) -> Result<(), AllocError>
        requires held { HoldsRun ready.now self.old }
        requires next { MayComeReady (wiring_of ready.now) (ready_in ready.now)
            self.old.run.items x }
        ensures held { OnOk result (HoldsRun ready.now self.new) }
        ensures run { OnOk result (self.new.run.items ≡ self.old.run.items ++ x ∷ []) }
    {
        ready.facts();
        ends_share_queues();
        queue_numbers_are_bounded();
        let chart = ready.chart();
        self.run.push(x)?;
        self.done[x as usize] = true;
        let i = chart.instance_of(x);
        let front = next_front(ready, &self.done, i, self.fronts[i as usize]);
        self.fronts[i as usize] = front;
        if !chart.is_local(x) {
            let q = ready.queue(x);
            let head = first_waiting(ready, &self.run, &self.done, q);
            self.heads[q as usize] = head;
        }
        Ok(())
    }
}
