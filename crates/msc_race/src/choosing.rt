//! The source of a witness, and the role of each event in it.

ghost use Rattle.std.specs.Prelude.{◌≡◌, ℕ, ◌<◌, IsTrue, IfOk, ◌↔◌};
ghost use Rattle.bit_rows.specs.Rows.{has};
ghost use Rattle.msc_chart.specs.Charts.{is_input};
ghost use Rattle.msc_chart.specs.Orders.{queue};
ghost use Rattle.msc_chart.specs.Witness.{IsFree};
ghost use Rattle.msc_race.specs.Choices.{wired_chart, event_count, IsChoice};
ghost use Rattle.msc_race.specs.Remainders.{IsFreeWith};
ghost use Rattle.msc_race.specs.Rows.{IsRow};

use bit_rows::row::{clear, full, part};
use msc_chart::{Event, Wiring};
use msc_order::Order;
use std::alloc::{AllocError, Global};

/// The source of the witness of an event: a chart under an architecture, its enforced order, and
/// the event.
#[derive(Clone, Copy)]
pub struct Choice<'a> {
    pub wiring: Wiring<'a>,
    pub order: &'a Order,
    pub e: Event,
}

impl Choice<'_> {
    /// Whether `x` is free of `e`: another event, and not enforced after it.
    pub fn is_free(&self, x: Event) -> bool
        requires settled { IsChoice self.now }
        requires known { x < event_count self.now }
        ensures { IsTrue result ↔ IsFree (wired_chart self.now) self.now.e x }
    {
        if x == self.e {
            return false;
        }
        !self.order.holds(self.e, x)
    }

    /// The row of the events that are free of `e`. An error is a growth of memory that was refused.
    pub fn free(&self, alloc: Global) -> Result<Vec<u64>, AllocError>
        requires settled { IsChoice self.now }
        ensures row { IfOk result (λ row. IsRow (event_count self.now) row.items) }
        ensures free { IfOk result (λ row. (y : ℕ) → IsTrue (has row.items y)
            ↔ IsFree (wired_chart self.now) self.now.e y) }
    {
        let mut row = full(alloc, self.wiring.chart.events())?;
        part(&mut row, self.order.row(self.e));
        clear(&mut row, self.e);
        Ok(row)
    }

    /// Whether `x` is a free output to queue `q`, the queue of `e`, an input.
    pub fn is_free_with(&self, q: u32, x: Event) -> bool
        requires settled { IsChoice self.now }
        requires known { x < event_count self.now }
        requires input { IsTrue (is_input self.now.wiring.chart.now.events self.now.e) }
        requires queue { q ≡ queue (wired_chart self.now) self.now.e }
        ensures { IsTrue result ↔ IsFreeWith (wired_chart self.now) self.now.e x }
    {
        if !self.wiring.chart.is_output(x) {
            return false;
        }
        self.wiring.queue(x) == q && self.is_free(x)
    }
}
