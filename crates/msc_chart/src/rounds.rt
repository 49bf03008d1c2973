//! The parts of the chart of two rounds of a chart.
//!
//! Each line has its events twice. Rounds are numbered from 0: event `e` of the chart in round `r`
//! has the number `2 * first + r * count + (e - first)`, where `first` is the first event of its
//! line and `count` is the number of events of that line.

ghost use Rattle.std.specs.Prelude.{◌≡◌, ◌+◌, ◌*◌, ◌<◌, ◌≤◌, ◌++◌, cond, map, length, IfOk, OnOk};
ghost use Rattle.msc_chart.specs.Charts.{IsLinearOrder, is_local, message};
ghost use Rattle.msc_chart.specs.Drawings.{message_at};
ghost use Rattle.msc_chart.specs.Rounds.{count_below, event_of, message_in, number_of};
ghost use Rattle.msc_chart.specs.Rounds.{repeated_event, round_of, segments_of, two_rounds};
ghost use Rattle.msc_chart.specs.Spans.{HasSpans, IsSpanOf, spans_of};

use crate::chart::Chart;
use crate::charting::owned_number;
use crate::event::{ChartEvent, Event};
use crate::message::Message;
use listed::Listed;
use msc_parser::{Label, Name};
use std::alloc::{AllocError, Global};

/// The events of a line: its first, and the number past its last.
#[derive(Clone, Copy)]
pub(crate) struct Span {
    pub first: Event,
    pub past: Event,
}

/// The spans of the lines of a chart.
pub(crate) fn spans(alloc: Global, chart: &Chart) -> Result<Vec<Span>, AllocError>
    ensures { IfOk result (λ spans. spans.items ≡ spans_of chart.now) }
{
    let mut spans = Vec::new(alloc);
    for i in 0..chart.instances() {
        let (first, past) = chart.line(i);
        spans.push(Span { first, past })?;
    }
    Ok(spans)
}

/// A copy of the text of an action.
fn copied_label(alloc: Global, label: &[u8]) -> Result<Label, AllocError>
    ensures { IfOk result (λ copy. copy ≡ label.now) }
{
    Ok(Label::from_vec(label.to_vec(alloc)?))
}

/// A chart with the spans of its lines. Its events in two rounds are computed from these.
#[derive(Clone, Copy)]
pub(crate) struct Rounds<'a> {
    pub chart: &'a Chart,
    pub spans: &'a [Span],
}

impl Rounds<'_> {
    /// The span of the line of event `e`.
    fn span(&self, e: Event) -> Span
        requires spans { HasSpans self.now }
        requires known { e < length self.now.chart.now.events }
        ensures { IsSpanOf self.now.chart.now.events e result }
    {
        self.chart.facts();
        self.spans[self.chart.instance_of(e) as usize]
    }

    /// The number of event `e` in this round, 0 or 1.
    pub fn number(&self, e: Event, round: u32) -> Event
        requires spans { HasSpans self.now }
        requires known { e < length self.now.chart.now.events }
        requires round { round < 2 }
        ensures value { result ≡ number_of 2 self.now.chart.now.events e round }
        ensures within { result < 2 * length self.now.chart.now.events }
    {
        self.chart.facts();
        let span = self.span(e);
        2 * span.first + (round * (span.past - span.first) + (e - span.first))
    }

    /// The event of the chart that event `k` of two rounds is, and its round, 0 or 1.
    pub fn place(&self, k: Event) -> (Event, u32)
        requires spans { HasSpans self.now }
        requires known { k < 2 * length self.now.chart.now.events }
        ensures event { result.0 ≡ event_of 2 self.now.chart.now.events k }
        ensures round { result.1 ≡ round_of 2 self.now.chart.now.events k }
        ensures known { result.0 < length self.now.chart.now.events }
        ensures few { result.1 < 2 }
    {
        // The lines before its own have twice as many events as in the chart, so half of the number
        // is on the same line.
        let span = self.span(k / 2);
        let count = span.past - span.first;
        let offset = k - 2 * span.first;
        (span.first + offset % count, offset / count)
    }

    /// The number of segments of the line of event `e`.
    fn segments(&self, e: Event) -> u32
        requires spans { HasSpans self.now }
        requires known { e < length self.now.chart.now.events }
        ensures value { result ≡ segments_of self.now.chart.now.events e }
        ensures few { result ≤ length self.now.chart.now.events }
    {
        self.chart.facts();
        self.chart.segment(self.span(e).past - 1) + 1
    }

    /// The subject of event `e` in this round, if `locals` local events come before it.
    fn subject(&self, e: Event, round: u32, locals: u32) -> u32
        requires known { e < length self.now.chart.now.events }
        requires round { round < 2 }
        ensures { result ≡ cond (is_local self.now.chart.now.events e) locals
            (round * length self.now.chart.now.messages + message self.now.chart.now.events e) }
    {
        self.chart.facts();
        if self.chart.is_local(e) {
            locals
        } else {
            round * self.chart.messages() + self.chart.message_of(e)
        }
    }

    /// Event `k` of two rounds, if `locals` local events come before it.
    fn event(&self, k: Event, locals: u32) -> ChartEvent
        requires spans { HasSpans self.now }
        requires known { k < 2 * length self.now.chart.now.events }
        requires locals { locals ≡ count_below 2 self.now.chart.now.events k }
        ensures { result
            ≡ repeated_event 2 (length self.now.chart.now.messages) self.now.chart.now.events k }
    {
        self.chart.facts();
        let (e, round) = self.place(k);
        ChartEvent {
            line: self.chart.instance_of(e),
            segment: round * self.segments(e) + self.chart.segment(e),
            kind: self.chart.kind(e),
            partner: self.number(self.chart.other_end(e), round),
            subject: self.subject(e, round, locals),
        }
    }

    /// The events of two rounds.
    pub fn events(&self, alloc: Global) -> Result<Vec<ChartEvent>, AllocError>
        requires spans { HasSpans self.now }
        ensures { IfOk result (λ events. events.items ≡ (two_rounds self.now.chart.now).events) }
    {
        let mut events = Vec::new(alloc);
        let mut locals = 0;
        for k in 0..2 * self.chart.events() {
            let event = self.event(k, locals);
            events.push(event)?;
            if event.kind.is_local() {
                locals += 1;
            }
        }
        Ok(events)
    }

    /// Message `m` of the chart, in this round.
    fn message(&self, alloc: Global, m: u32, round: u32) -> Result<Message, AllocError>
        requires spans { HasSpans self.now }
        requires known { m < length self.now.chart.now.messages }
        requires round { round < 2 }
        ensures { IfOk result (λ message. message
            ≡ message_in 2 self.now.chart.now.events (message_at self.now.chart.now m) round) }
    {
        self.chart.facts();
        let output = self.number(self.chart.output_of(m), round);
        let name = Name::from_slice(alloc, self.chart.message_name(m))?;
        let number = owned_number(alloc, self.chart.message_number(m))?;
        Ok(Message {
            name,
            number,
            output,
        })
    }

    /// The messages of two rounds: the messages of the first, and then the messages of the second.
    pub fn messages(&self, alloc: Global) -> Result<Listed<Message>, AllocError>
        requires spans { HasSpans self.now }
        ensures { IfOk result (λ messages. messages ≡ (two_rounds self.now.chart.now).messages) }
    {
        let count = self.chart.messages();
        let mut messages = Vec::new(alloc);
        for m in 0..2 * count {
            messages.push(self.message(alloc, m % count, m / count)?)?;
        }
        Ok(Listed::from_vec(messages))
    }

    /// The texts of the actions of two rounds, in the order of the events.
    pub fn actions(&self, alloc: Global) -> Result<Listed<Label>, AllocError>
        requires spans { HasSpans self.now }
        ensures { IfOk result (λ actions. actions ≡ (two_rounds self.now.chart.now).actions) }
    {
        let mut actions = Vec::new(alloc);
        for k in 0..2 * self.chart.events() {
            let (e, _) = self.place(k);
            if let Some(label) = self.chart.label(e) {
                actions.push(copied_label(alloc, label)?)?;
            }
        }
        Ok(Listed::from_vec(actions))
    }

    /// Appends these events, in this round, to the others.
    fn push_round(
        &self,
        events: &[Event],
        order: &mut Vec<Event>,
        round: u32,
    ) -> Result<(), AllocError>
        requires spans { HasSpans self.now }
        requires linear { IsLinearOrder self.now.chart.now.events events.now }
        requires round { round < 2 }
        ensures { OnOk result (order.new.items ≡ order.old.items
            ++ map (λ e. number_of 2 self.now.chart.now.events e round) events.now) }
    {
        for e in events {
            order.push(self.number(*e, round))?;
        }
        Ok(())
    }

    /// A linear order of the events of two rounds: the order of the chart in the first round, and
    /// then in the second.
    pub fn order(&self, alloc: Global) -> Result<Vec<Event>, AllocError>
        requires spans { HasSpans self.now }
        ensures { IfOk result (λ order.
            IsLinearOrder (two_rounds self.now.chart.now).events order.items) }
    {
        self.chart.facts();
        let events = self.chart.linear_order();
        let mut order = Vec::new(alloc);
        self.push_round(events, &mut order, 0)?;
        self.push_round(events, &mut order, 1)?;
        Ok(order)
    }
}
