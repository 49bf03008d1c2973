//! Charts: instances, events and messages by number.
//!
//! Instances, events and messages are numbered from 0: instances by their sections, events in the
//! order of the text, messages by their outputs. Contracts see the lists of all three, and the
//! texts of the actions. The terms are from Z.120; the visual order is from Alur, Holzmann and
//! Peled (1996).

ghost use Rattle.std.specs.Prelude.{◌≡◌, ◌≢◌, ◌<◌, ◌≤◌, ◌+◌, ◌↔◌, IsTrue, false, cond, None, Some};
ghost use Rattle.std.specs.Prelude.{length, IfOk, IfErr, OnOk, slice_get};
ghost use Rattle.std.specs.Option.{option_copied};
ghost use Rattle.msc_chart.specs.Building.{IsBuilt};
ghost use Rattle.msc_chart.specs.Charts.{before, IsLineEnd, IsLinearOrder, IsSegmentEnd};
ghost use Rattle.msc_chart.specs.Charts.{ShareSegment, is_controlled, is_local, is_output, kind};
ghost use Rattle.msc_chart.specs.Charts.{line, line_start, message, partner, segment};
ghost use Rattle.msc_chart.specs.Drawings.{Drawing, IsAccepted, IsLine, chart_of, drawing};
ghost use Rattle.msc_chart.specs.Drawings.{input_of, label_of, message_at, output_of, receiver_of};
ghost use Rattle.msc_chart.specs.Drawings.{sender_of};
ghost use Rattle.msc_chart.specs.Orders.{queue_of};
ghost use Rattle.msc_chart.specs.Faults.{IsFaultless, IsFirstFault};

use crate::building::lawful_events;
use crate::charting::{names, subjects};
use crate::event::{ChartEvent, Event, EventKind};
use crate::fault::ChartFault;
use crate::message::Message;
use crate::queue::Queues;
use crate::wiring::queue_number;
use crate::{INSTANCE_LIMIT, MESSAGE_LIMIT};
use listed::Listed;
use msc_parser::{Draft, Label, Name};
use std::alloc::Global;
use std::marker::Model;

mod two_rounds;

/// The chart of a draft.
#[derive(Drop)]
pub struct Chart {
    name: Name,
    instances: Listed<Name>,
    events: Vec<ChartEvent>,
    messages: Listed<Message>,
    actions: Listed<Label>,
    order: Vec<Event>,
}

impl Model for Chart {
    ghost Value = { Drawing };

    ghost view = { λ c. drawing c.name c.instances c.events.items c.messages c.actions };

    // The facts that hold for every chart that was built.
    ghost invariant = { λ c.
        IsBuilt (drawing c.name c.instances c.events.items c.messages c.actions) c.order.items };
}

impl Chart {
    /// The chart of a draft, or the draft's first fault: the first of the variants of
    /// [`ChartFault`] that applies, at its least place. `Memory` is returned if a growth of memory
    /// was refused.
    pub fn build(alloc: Global, draft: &Draft) -> Result<Chart, ChartFault>
        ensures chart { IfOk result (λ chart. chart ≡ chart_of draft.now) }

        // A chart is returned only if there is no fault, and a fault only if it is the first.
        ensures faultless { OnOk result (IsFaultless draft.now) }
        ensures fault { IfErr result (λ f. f ≢ ChartFault.Memory → IsFirstFault draft.now f) }
    {
        let (events, order, places) = lawful_events(alloc, draft)?;
        let (name, instances) = names(alloc, draft)?;
        let (messages, actions) = subjects(alloc, places.as_slice())?;
        Ok(Chart {
            name,
            instances,
            events,
            messages,
            actions,
            order,
        })
    }

    /// The chart's name. It takes no memory.
    pub fn name(&self) -> &[u8]
        ensures { result.now ≡ self.now.name }
    {
        self.name.as_slice()
    }

    /// The number of instances. It takes no memory.
    pub fn instances(&self) -> u32
        ensures number { result ≡ length self.now.instances }
        ensures few { length self.now.instances ≤ INSTANCE_LIMIT }
    {
        self.instances.as_slice().len() as u32
    }

    /// The number of events. It takes no memory.
    pub fn events(&self) -> u32
        ensures number { result ≡ length self.now.events }

        // The facts on every chart: partners match, no event precedes itself, and all is bounded.
        ensures accepted { IsAccepted self.now }
    {
        self.events.len() as u32
    }

    /// The facts that hold for every chart: partners match, no event precedes itself, all is
    /// bounded. It does nothing when it runs; a caller that needs these facts calls it.
    pub fn facts(&self)
        ensures { IsAccepted self.now }
    {
        // A look at a field makes the facts on every chart known.
        let _events = &self.events;
    }

    /// The number of messages. It takes no memory.
    pub fn messages(&self) -> u32
        ensures number { result ≡ length self.now.messages }
        ensures few { length self.now.messages ≤ MESSAGE_LIMIT }
    {
        // A look at a field makes the facts on every chart known.
        let _events = &self.events;
        self.messages.as_slice().len() as u32
    }

    /// The name of instance `i`, from 0. It takes no memory.
    pub fn instance_name(&self, i: u32) -> &[u8]
        requires { i < length self.now.instances }
        ensures { slice_get self.now.instances i ≡ Some result.now }
    {
        let name = &self.instances.as_slice()[i as usize];
        name.as_slice()
    }

    /// The number of events on lines before line `i`.
    fn line_start(&self, i: u32) -> u32
        ensures { result ≡ line_start self.now.events i }
    {
        self.events.iter().filter(|event| event.line < i).count() as u32
    }

    /// The first event of instance `i`, and the number past its last. It takes no memory.
    pub fn line(&self, i: u32) -> (Event, Event)
        requires { i < length self.now.instances }
        ensures first { result.0 ≡ line_start self.now.events i }
        ensures past_last { result.1 ≡ line_start self.now.events (i + 1) }

        // The numbers between them are exactly those of the events of the line.
        ensures range { IsLine self.now i result.0 result.1 }
    {
        // A look at a field makes the facts on every chart known.
        let _instances = &self.instances;
        (self.line_start(i), self.line_start(i + 1))
    }

    /// The instance of event `e`. It takes no memory.
    pub fn instance_of(&self, e: Event) -> u32
        requires { e < length self.now.events }
        ensures { result ≡ line self.now.events e }
    {
        self.events[e as usize].line
    }

    /// The segment of event `e` on its line, from 0: an event outside coregions is a segment of its
    /// own, and the events of a coregion share one. An empty coregion takes none. It takes no
    /// memory.
    pub fn segment(&self, e: Event) -> u32
        requires { e < length self.now.events }
        ensures { result ≡ segment self.now.events e }
    {
        self.events[e as usize].segment
    }

    /// Whether events `e` and `f` are on one line, and in one segment of it. It takes no memory.
    pub fn share_segment(&self, e: Event, f: Event) -> bool
        requires e_known { e < length self.now.events }
        requires f_known { f < length self.now.events }
        ensures { IsTrue result ↔ ShareSegment self.now.events e f }
    {
        self.instance_of(e) == self.instance_of(f) && self.segment(e) == self.segment(f)
    }

    /// The number past the events of the segment of event `e`, from `e` on. It takes no memory.
    pub fn segment_end(&self, e: Event) -> Event
        requires { e < length self.now.events }
        ensures { IsSegmentEnd self.now.events e result }
    {
        let events = self.events();
        for f in e + 1..events {
            if !self.share_segment(e, f) {
                return f;
            }
        }
        events
    }

    /// The number past the events of the line of event `e`, from `e` on. It takes no memory.
    pub fn line_end(&self, e: Event) -> Event
        requires { e < length self.now.events }
        ensures { IsLineEnd self.now.events e result }
    {
        let events = self.events();
        for f in e + 1..events {
            if self.instance_of(f) != self.instance_of(e) {
                return f;
            }
        }
        events
    }

    /// Whether event `e` is an output, an input or a local event. It takes no memory.
    pub fn kind(&self, e: Event) -> EventKind
        requires { e < length self.now.events }
        ensures { result ≡ kind self.now.events e }
    {
        self.events[e as usize].kind
    }

    /// Whether event `e` is an output. It takes no memory.
    pub fn is_output(&self, e: Event) -> bool
        requires { e < length self.now.events }
        ensures { result ≡ is_output self.now.events e }
    {
        self.kind(e).is_output()
    }

    /// Whether event `e` is a local event. It takes no memory.
    pub fn is_local(&self, e: Event) -> bool
        requires { e < length self.now.events }
        ensures { result ≡ is_local self.now.events e }
    {
        self.kind(e).is_local()
    }

    /// Whether the instance of event `e` controls when it comes: it is an output or a local event.
    /// An input waits for its message. It takes no memory.
    pub fn is_controlled(&self, e: Event) -> bool
        requires { e < length self.now.events }
        ensures { result ≡ is_controlled self.now.events e }
    {
        self.kind(e).is_controlled()
    }

    /// The message of event `e`: some for every output and input, none for a local event. It takes
    /// no memory.
    pub fn message(&self, e: Event) -> Option<u32>
        requires { e < length self.now.events }
        ensures { result
            ≡ cond (is_local self.now.events e) None (Some (message self.now.events e)) }
    {
        if self.is_local(e) {
            return None;
        }
        Some(self.message_of(e))
    }

    /// The event at the other end of the message of event `e`: some for every output and input,
    /// none for a local event. It takes no memory.
    pub fn partner(&self, e: Event) -> Option<Event>
        requires { e < length self.now.events }
        ensures { result
            ≡ cond (is_local self.now.events e) None (Some (partner self.now.events e)) }
    {
        if self.is_local(e) {
            return None;
        }
        Some(self.other_end(e))
    }

    /// The message of event `e`, an output or an input. It takes no memory.
    pub fn message_of(&self, e: Event) -> u32
        requires known { e < length self.now.events }
        requires message { is_local self.now.events e ≡ false }
        ensures value { result ≡ message self.now.events e }
        ensures known { result < length self.now.messages }
    {
        self.events[e as usize].subject
    }

    /// The text of the action of event `e`: some for every local event, none for an output or an
    /// input. It takes no memory.
    pub fn label(&self, e: Event) -> Option<&[u8]>
        requires { e < length self.now.events }
        ensures { option_copied result
            ≡ cond (is_local self.now.events e) (Some (label_of self.now e)) None }
    {
        if !self.is_local(e) {
            return None;
        }
        let label = &self.actions.as_slice()[self.events[e as usize].subject as usize];
        Some(label.as_slice())
    }

    /// The event at the other end of the message of event `e`, or `e` itself for a local event. It
    /// takes no memory.
    pub fn other_end(&self, e: Event) -> Event
        requires { e < length self.now.events }
        ensures value { result ≡ partner self.now.events e }
        ensures known { result < length self.now.events }
    {
        self.events[e as usize].partner
    }

    /// Whether `e` is drawn before `f`: on one line, in a smaller segment. It takes no memory.
    pub fn before(&self, e: Event, f: Event) -> bool
        requires e_known { e < length self.now.events }
        requires f_known { f < length self.now.events }
        ensures { IsTrue result ↔ IsTrue (before self.now.events e f) }
    {
        let first = self.events[e as usize];
        let second = self.events[f as usize];
        if first.line != second.line {
            return false;
        }
        first.segment < second.segment
    }

    /// A list of all events, each once, in which an event that precedes another in the visual order
    /// comes earlier. It takes no memory.
    pub fn linear_order(&self) -> &[Event]
        ensures { IsLinearOrder self.now.events result.now }
    {
        self.order.as_slice()
    }

    /// The output of message `m`. It takes no memory.
    pub fn output_of(&self, m: u32) -> Event
        requires { m < length self.now.messages }
        ensures { result ≡ output_of self.now m }
    {
        let message = &self.messages.as_slice()[m as usize];
        message.output
    }

    /// The input of message `m`. It takes no memory.
    pub fn input_of(&self, m: u32) -> Event
        requires { m < length self.now.messages }
        ensures { result ≡ input_of self.now m }
    {
        self.events[self.output_of(m) as usize].partner
    }

    /// The instance that sends message `m`. It takes no memory.
    pub fn sender(&self, m: u32) -> u32
        requires { m < length self.now.messages }
        ensures value { result ≡ sender_of self.now m }
        ensures known { result < length self.now.instances }
    {
        self.events[self.output_of(m) as usize].line
    }

    /// The instance that takes message `m`. It takes no memory.
    pub fn receiver(&self, m: u32) -> u32
        requires { m < length self.now.messages }
        ensures value { result ≡ receiver_of self.now m }
        ensures known { result < length self.now.instances }
    {
        self.events[self.input_of(m) as usize].line
    }

    /// The name of message `m`. It takes no memory.
    pub fn message_name(&self, m: u32) -> &[u8]
        requires { m < length self.now.messages }
        ensures { result.now ≡ (message_at self.now m).name }
    {
        let message = &self.messages.as_slice()[m as usize];
        message.name.as_slice()
    }

    /// The message instance name of message `m`, if it has one. It takes no memory.
    pub fn message_number(&self, m: u32) -> Option<&[u8]>
        requires { m < length self.now.messages }
        ensures { option_copied result ≡ (message_at self.now m).number }
    {
        let message = &self.messages.as_slice()[m as usize];
        match &message.number {
            Some(number) => Some(number.as_slice()),
            None => None,
        }
    }

    /// The number of the queue of message `m`. It takes no memory.
    ///
    /// If all links are of one kind, the number is `sender * n + receiver` for `Pair` with `n`
    /// instances, `receiver` for `Mailbox`, and `m` for `Single`. Otherwise mailboxes are numbered
    /// from `n * n` on, and the queues of messages from `n * n + n` on.
    pub fn queue(&self, m: u32, queues: Queues) -> u32
        requires { m < length self.now.messages }
        ensures { result ≡ queue_of queues self.now m }
    {
        self.facts();
        queue_number(
            &queues,
            self.instances(),
            self.sender(m),
            self.receiver(m),
            m,
        )
    }
}
