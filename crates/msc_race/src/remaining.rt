//! The events on which the choice of the next one depends, as rows of bits.

ghost use Rattle.std.specs.Prelude.{◌≡◌, ℕ, ◌+◌, ◌<◌, ◌≤◌, length, IfOk, IsTrue};
ghost use Rattle.msc_chart.specs.Charts.{is_input};
ghost use Rattle.msc_chart.specs.Orders.{queue};
ghost use Rattle.msc_race.specs.Choices.{event_count, wired_chart, IsChoice};
ghost use Rattle.msc_race.specs.Remainders.{AreLeftFrom, AreRows, AreSameRows, AreTold};
ghost use Rattle.msc_race.specs.Remainders.{AreToldBelow, HasFirstWords};
ghost use Rattle.msc_race.specs.Rows.{IsRow};

use crate::choosing::Choice;
use crate::rows::blank;
use bit_rows::row::{clear, first_common, put};
use msc_chart::Event;
use msc_chart::laws::ends_share_queues;
use std::alloc::{AllocError, Global};

/// The events that are free of `e`, the events among them that are not held, and the outputs to the
/// queue of `e` that are passed on; and the first words in which free events, and such outputs, are
/// left.
#[derive(Drop)]
pub struct Remaining {
    pub free: Vec<u64>,
    pub unheld: Vec<u64>,
    pub passed: Vec<u64>,
    pub free_from: usize,
    pub passed_from: usize,
}

impl Remaining {
    /// The free events, before it is known which of them are held or passed on.
    fn untold(alloc: Global, choice: &Choice) -> Result<Remaining, AllocError>
        requires { IsChoice choice.now }
        ensures rows { IfOk result (λ r. AreRows (event_count choice.now) r) }
        ensures told { IfOk result (λ r. AreToldBelow choice.now r 0) }
    {
        let free = choice.free(alloc)?;
        Ok(Remaining {
            unheld: Vec::from_slice(alloc, free.as_slice())?,
            free,
            passed: blank(alloc, choice.wiring.chart.events())?,
            free_from: 0,
            passed_from: 0,
        })
    }

    /// Notes whether `x` is held, or passed on to queue `q`, the queue of `e`, an input.
    fn tell(&mut self, choice: &Choice, q: u32, x: Event)
        requires settled { IsChoice choice.now }
        requires known { x < event_count choice.now }
        requires input { IsTrue (is_input choice.now.wiring.chart.now.events choice.now.e) }
        requires queue { q ≡ queue (wired_chart choice.now) choice.now.e }
        requires rows { AreRows (event_count choice.now) self.old }
        requires told { AreToldBelow choice.now self.old x }
        ensures rows { AreRows (event_count choice.now) self.new }
        ensures told { AreToldBelow choice.now self.new (x + 1) }
    {
        ends_share_queues();
        if !choice.is_free_with(q, x) {
            return;
        }
        if choice.is_free(choice.wiring.chart.other_end(x)) {
            put(&mut self.passed, x);
        } else {
            clear(&mut self.unheld, x);
        }
    }

    /// Notes which events are held or passed on: none if `e` is no input.
    fn tell_all(&mut self, choice: &Choice)
        requires settled { IsChoice choice.now }
        requires rows { AreRows (event_count choice.now) self.old }
        requires told { AreToldBelow choice.now self.old 0 }
        ensures rows { AreRows (event_count choice.now) self.new }
        ensures told { AreToldBelow choice.now self.new (event_count choice.now) }
    {
        ends_share_queues();
        if choice.wiring.chart.is_controlled(choice.e) {
            return;
        }
        let q = choice.wiring.queue(choice.e);
        for x in 0..choice.wiring.chart.events() {
            self.tell(choice, q, x);
        }
    }

    /// The rows, if these events are left.
    pub fn start(alloc: Global, choice: &Choice, left: &[u64]) -> Result<Remaining, AllocError>
        requires settled { IsChoice choice.now }
        requires left { IsRow (event_count choice.now) left.now }
        ensures rows { IfOk result (λ r. AreRows (event_count choice.now) r) }
        ensures told { IfOk result (λ r. AreTold choice.now r) }
        ensures first { IfOk result (λ r. HasFirstWords r left.now) }
    {
        let mut rows = Remaining::untold(alloc, choice)?;
        rows.tell_all(choice);
        rows.free_from = 0;
        rows.passed_from = 0;
        rows.seek(left);
        Ok(rows)
    }

    /// Advances to the first words in which free events, and outputs that are passed on, are left.
    pub fn seek(&mut self, left: &[u64])
        requires free { length left.now ≡ length self.old.free.items }
        requires passed { length left.now ≡ length self.old.passed.items }
        requires from { AreLeftFrom self.old left.now }
        ensures same { AreSameRows self.old self.new }
        ensures first { HasFirstWords self.new left.now }
    {
        self.free_from = first_common(&self.free, left, self.free_from);
        self.passed_from = first_common(&self.passed, left, self.passed_from);
    }
}
