//! A chart under an architecture, with its ready instances.
//!
//! The visual order is kept with it, since the ready order is computed from it, whichever instances
//! are ready. If a list says which instances are ready, the rows of the ready order are made of it
//! once. The numbers of the queues are computed once too, since each pair of inputs needs two.

ghost use Rattle.std.specs.Prelude.{◌≡◌, ℕ, ◌<◌, ◌↔◌, [], false, length, nat_eq, IfOk, IsTrue};
ghost use Rattle.msc_chart.specs.Charts.{is_input, is_local, line};
ghost use Rattle.msc_chart.specs.Orders.{queue};
ghost use Rattle.msc_chart.specs.Drawings.{IsAccepted};
ghost use Rattle.msc_order.specs.Tables.{orders};
ghost use Rattle.msc_ready.specs.Held.{HasVisualOrder, ready_in, ready_of, wiring_of};
ghost use Rattle.msc_ready.specs.Readiness.{ReadyOrder};
ghost use Rattle.msc_ready.specs.BlockedPairs.{is_awaited, is_lined, is_blocked_pair};
ghost use Rattle.msc_ready.specs.BlockedPairs.{IsBlockedPair};

use crate::queue_numbers::queue_numbers_of;
use bit_rows::table::has;
use msc_chart::laws::{ends_share_queues, inputs_share_lines};
use msc_chart::{Chart, Event, Queues, Wiring};
use msc_order::Order;
use std::alloc::{AllocError, Global};
use std::marker::Model;

/// A chart under an architecture, which of its lines are ready, and its visual order. Contracts see
/// the chart, the architecture, the lines and the visual order.
#[derive(Drop)]
pub struct Ready<'a> {
    wiring: Wiring<'a>,
    lines: Vec<bool>,
    order: Order,
    /// The number of the queue of each output and input.
    queue_numbers: Vec<u32>,
    /// The rows of the ready order, if a list says which lines are ready.
    rows: Vec<u64>,
}

impl<'a> Model for Ready<'a> {
    ghost use Rattle.msc_chart.specs.Orders.{wired};
    ghost use Rattle.msc_ready.specs.Held.{ReadyChart, ready_chart, HasVisualOrder};
    ghost use Rattle.msc_ready.specs.QueueNumbers.{AreQueueNumbers};
    ghost use Rattle.msc_ready.specs.Rows.{HasRows};

    ghost Value = { ReadyChart };

    ghost view = { λ r. ready_chart r.wiring.chart.now r.wiring.queues r.lines.items r.order };

    ghost invariant = { λ r.
        HasVisualOrder (ready_chart r.wiring.chart.now r.wiring.queues r.lines.items r.order)
        × HasRows (ready_chart r.wiring.chart.now r.wiring.queues r.lines.items r.order)
        r.rows.items
        × AreQueueNumbers (wired r.wiring.queues r.wiring.chart.now) r.queue_numbers.items };
}

/// Whether line `i` is ready by a list. A line past the list is ready.
pub(crate) fn is_listed(lines: &[bool], i: u32) -> bool
    ensures { result ≡ ready_of lines.now i }
{
    match lines.get(i as usize) {
        Some(ready) => *ready,
        None => true,
    }
}

impl<'a> Ready<'a> {
    /// A chart under an architecture, all of whose instances are ready. An error is a growth of
    /// memory that was refused.
    pub fn all(alloc: Global, chart: &'a Chart, queues: Queues) -> Result<Ready<'a>, AllocError>
        ensures chart { IfOk result (λ ready. ready.chart ≡ chart.now) }
        ensures queues { IfOk result (λ ready. ready.queues ≡ queues) }
        ensures lines { IfOk result (λ ready. ready.lines ≡ []) }
    {
        Ready::some(alloc, chart, queues, Vec::new(alloc))
    }

    /// A chart under an architecture, with the ready instances of a list. An instance past the list
    /// is ready. An error is a growth of memory that was refused.
    pub fn some(
        alloc: Global,
        chart: &'a Chart,
        queues: Queues,
        lines: Vec<bool>,
    ) -> Result<Ready<'a>, AllocError>
        ensures chart { IfOk result (λ ready. ready.chart ≡ chart.now) }
        ensures queues { IfOk result (λ ready. ready.queues ≡ queues) }
        ensures lines { IfOk result (λ ready. ready.lines ≡ lines.items) }
    {
        let order = Order::visual(alloc, chart)?;
        let wiring = Wiring { chart, queues };
        let queue_numbers = queue_numbers_of(alloc, &wiring)?;
        let all = Ready {
            wiring,
            lines: Vec::new(alloc),
            order,
            queue_numbers,
            rows: Vec::new(alloc),
        };
        if lines.is_empty() {
            return Ok(all);
        }
        let rows = all.rows_of(alloc, lines.as_slice())?;
        let order = all.order;
        let queue_numbers = all.queue_numbers;
        Ok(Ready {
            wiring,
            lines,
            order,
            queue_numbers,
            rows,
        })
    }

    /// The chart.
    pub fn chart(&self) -> &'a Chart
        ensures { result.now ≡ self.now.chart }
    {
        self.wiring.chart
    }

    /// The architecture.
    pub fn queues(&self) -> Queues
        ensures { result ≡ self.now.queues }
    {
        self.wiring.queues
    }

    /// The chart under the architecture.
    pub fn wiring(&self) -> &Wiring<'a>
        ensures chart { result.now.chart.now ≡ self.now.chart }
        ensures queues { result.now.queues ≡ self.now.queues }
    {
        &self.wiring
    }

    /// The facts that hold for every such chart. It does nothing when it runs; a caller that needs
    /// these facts calls it.
    pub fn facts(&self)
        ensures order { HasVisualOrder self.now }
        ensures chart { IsAccepted self.now.chart }
    {
        let chart = self.wiring.chart;
        chart.facts();
    }

    /// The number of events of the chart. It takes no memory.
    pub fn events(&self) -> u32
        ensures { result ≡ length self.now.chart.events }
    {
        self.wiring.chart.events()
    }

    /// Whether line `i` is ready. It takes no memory.
    pub fn is_ready(&self, i: u32) -> bool
        ensures { result ≡ ready_in self.now i }
    {
        is_listed(&self.lines, i)
    }

    /// Whether `e` precedes `f` in the visual order.
    pub(crate) fn precedes(&self, e: Event, f: Event) -> bool
        requires e_known { e < length self.now.chart.events }
        requires f_known { f < length self.now.chart.events }
        ensures { result ≡ orders self.now.order e f }
    {
        self.order.holds(e, f)
    }

    /// Whether `x` precedes `y` in the ready order. Both are numbers of events, from 0. It takes no
    /// memory.
    pub fn holds(&self, x: Event, y: Event) -> bool
        requires x_known { x < length self.now.chart.events }
        requires y_known { y < length self.now.chart.events }
        ensures { IsTrue result ↔ ReadyOrder (wiring_of self.now) (ready_in self.now) x y }
    {
        self.facts();
        ends_share_queues();
        if self.lines.is_empty() {
            return self.precedes(x, y);
        }
        has(&self.rows, self.events(), x, y)
    }

    /// Whether event `e` is an input. It takes no memory.
    pub fn is_input(&self, e: Event) -> bool
        requires { e < length self.now.chart.events }
        ensures { result ≡ is_input self.now.chart.events e }
    {
        let chart = self.chart();
        !chart.is_controlled(e)
    }

    /// Whether `e` is drawn before `f`, and the line of `f` is ready.
    fn is_awaited(&self, e: Event, f: Event) -> bool
        requires e_known { e < length self.now.chart.events }
        requires f_known { f < length self.now.chart.events }
        ensures { result ≡ is_awaited (wiring_of self.now) (ready_in self.now) e f }
    {
        let chart = self.chart();
        let above = chart.before(e, f);
        if !above {
            return false;
        }
        self.is_ready(chart.instance_of(f))
    }

    /// The number of the queue of the message of event `e`, an output or an input.
    pub(crate) fn queue(&self, e: Event) -> u32
        requires known { e < length self.now.chart.events }
        requires message { is_local self.now.chart.events e ≡ false }
        ensures { result ≡ queue (wiring_of self.now) e }
    {
        self.queue_numbers[e as usize]
    }

    /// Whether the inputs `e` and `f` share a queue.
    pub(crate) fn share_queue(&self, e: Event, f: Event) -> bool
        requires e_input { IsTrue (is_input self.now.chart.events e) }
        requires f_input { IsTrue (is_input self.now.chart.events f) }
        ensures { result ≡ nat_eq (queue (wiring_of self.now) e) (queue (wiring_of self.now) f) }
    {
        self.queue(e) == self.queue(f)
    }

    /// Whether these are two inputs of one queue, `e` drawn before `f` on a ready line.
    pub(crate) fn is_lined(&self, e: Event, f: Event) -> bool
        requires e_known { e < length self.now.chart.events }
        requires f_known { f < length self.now.chart.events }
        ensures { result ≡ is_lined (wiring_of self.now) (ready_in self.now) e f }
    {
        if !self.is_awaited(e, f) {
            return false;
        }
        if !self.is_input(e) {
            return false;
        }
        if !self.is_input(f) {
            return false;
        }
        self.share_queue(e, f)
    }

    /// Whether two events are a blocked pair. Both are numbers of events, from 0. It takes no
    /// memory.
    pub fn is_blocked_pair(&self, e: Event, f: Event) -> bool
        requires e_known { e < length self.now.chart.events }
        requires f_known { f < length self.now.chart.events }
        ensures value { result
            ≡ is_blocked_pair (wiring_of self.now) (ready_in self.now) self.now.order e f }
        ensures exact { IsTrue result ↔ IsBlockedPair (wiring_of self.now) (ready_in self.now) e f }
    {
        self.blocked_pairs_are_told();
        if !self.is_lined(e, f) {
            return false;
        }
        let chart = self.chart();
        !self.precedes(chart.other_end(e), chart.other_end(f))
    }

    /// The test for blocked pairs is right. It does nothing when it runs.
    pub(crate) fn blocked_pairs_are_told(&self)
        ensures { (e f : ℕ) → IsTrue (is_blocked_pair (wiring_of self.now) (ready_in self.now)
            self.now.order e f) ↔ IsBlockedPair (wiring_of self.now) (ready_in self.now) e f }
    {
        self.facts();
        ends_share_queues();
        inputs_share_lines();
    }
}
