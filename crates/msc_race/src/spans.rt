//! The places of the outputs of each queue in a chart.

ghost use Rattle.std.specs.Prelude.{◌+◌, ◌<◌, IfOk};
ghost use Rattle.msc_race.specs.Choices.{event_count, wired_chart, IsChoice};
ghost use Rattle.msc_race.specs.PastEvents.{HoldsSpans};

use crate::choosing::Choice;
use msc_chart::Event;
use std::alloc::{AllocError, Global};

/// For each queue, its first output and a number past its last one. For a queue without outputs
/// these are the number of events, and 0.
#[derive(Drop)]
pub struct Spans {
    pub firsts: Vec<Event>,
    pub ends: Vec<Event>,
}

impl Spans {
    /// Takes in event `x`.
    fn take_in(&mut self, choice: &Choice, x: Event)
        requires settled { IsChoice choice.now }
        requires known { x < event_count choice.now }
        requires spans { HoldsSpans (wired_chart choice.now) self.old x }
        ensures { HoldsSpans (wired_chart choice.now) self.new (x + 1) }
    {
        if !choice.wiring.chart.is_output(x) {
            return;
        }
        let q = choice.wiring.queue(x) as usize;
        self.firsts[q] = self.firsts[q].min(x);
        self.ends[q] = x + 1;
    }

    /// The places of the outputs of each queue of a chart. An error is a growth of memory that was
    /// refused.
    pub fn of(alloc: Global, choice: &Choice) -> Result<Spans, AllocError>
        requires { IsChoice choice.now }
        ensures { IfOk result (λ spans. HoldsSpans (wired_chart choice.now) spans
            (event_count choice.now)) }
    {
        let events = choice.wiring.chart.events();
        let queues = choice.wiring.queue_count() as usize;
        let mut spans = Spans {
            firsts: vec![in alloc; events; queues]?,
            ends: vec![in alloc; 0; queues]?,
        };
        for x in 0..events {
            spans.take_in(choice, x);
        }
        Ok(spans)
    }
}
