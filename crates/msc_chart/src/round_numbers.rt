//! The numbers of a chart's events in two rounds, and the way back from them.

ghost use Rattle.std.specs.Prelude.{◌≡◌, ◌*◌, ◌<◌, length, IfOk};
ghost use Rattle.msc_chart.specs.Rounds.{event_of, number_of, round_of};
ghost use Rattle.msc_chart.specs.Spans.{HasSpans};

use crate::chart::Chart;
use crate::event::Event;
use crate::rounds::{Rounds, Span, spans};
use std::alloc::{AllocError, Global};
use std::marker::Model;

/// The events of a chart in two rounds. Rounds are numbered from 0. Contracts see the chart.
#[derive(Drop)]
pub struct RoundNumbers<'a> {
    chart: &'a Chart,
    spans: Vec<Span>,
}

impl<'a> Model for RoundNumbers<'a> {
    ghost use Rattle.std.specs.Prelude.{◌≡◌};
    ghost use Rattle.msc_chart.specs.Drawings.{Drawing};
    ghost use Rattle.msc_chart.specs.Spans.{spans_of};

    ghost Value = { Drawing };

    ghost view = { λ r. r.chart.now };

    ghost invariant = { λ r. r.spans.items ≡ spans_of r.chart.now };
}

impl<'a> RoundNumbers<'a> {
    /// The events of this chart in two rounds. The only error is that memory ran out.
    pub fn of(alloc: Global, chart: &'a Chart) -> Result<RoundNumbers<'a>, AllocError>
        ensures { IfOk result (λ numbers. numbers ≡ chart.now) }
    {
        let spans = spans(alloc, chart)?;
        Ok(RoundNumbers { chart, spans })
    }

    /// The same with the parts from which the chart of two rounds is made.
    fn rounds(&self) -> Rounds<'_>
        ensures chart { result.chart.now ≡ self.now }
        ensures spans { HasSpans result }
    {
        Rounds {
            chart: self.chart,
            spans: self.spans.as_slice(),
        }
    }

    /// The number of event `e` of the chart in this round, 0 or 1, among those of the chart of two
    /// rounds. It takes no memory.
    pub fn number(&self, e: Event, round: u32) -> Event
        requires known { e < length self.now.events }
        requires round { round < 2 }
        ensures value { result ≡ number_of 2 self.now.events e round }
        ensures within { result < 2 * length self.now.events }
    {
        self.rounds().number(e, round)
    }

    /// The event of the chart that event `k` of the chart of two rounds is, and its round, 0 or 1.
    /// It takes no memory.
    pub fn place(&self, k: Event) -> (Event, u32)
        requires known { k < 2 * length self.now.events }
        ensures event { result.0 ≡ event_of 2 self.now.events k }
        ensures round { result.1 ≡ round_of 2 self.now.events k }
        ensures known { result.0 < length self.now.events }
        ensures few { result.1 < 2 }
    {
        self.rounds().place(k)
    }
}
