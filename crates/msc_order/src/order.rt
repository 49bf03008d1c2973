//! An order of a chart's events, closed once by its maker and then only read.
//!
//! Events are numbered from 0, over all lines. Contracts see a row of truth values for each.

ghost use Rattle.std.specs.Prelude.{◌≡◌, ℕ, ◌<◌, length, IfOk};
ghost use Rattle.msc_chart.specs.Orders.{IsEnforcedOrder, IsVisualOrder, wired};
ghost use Rattle.bit_rows.specs.Rows.{has, word_count};
ghost use Rattle.bit_rows.specs.Tables.{cell};
ghost use Rattle.msc_order.specs.Closing.{IsWellKept};
ghost use Rattle.msc_order.specs.Tables.{Table, table_of, orders};

use crate::closing::close;
use crate::queueing::close_under_queues;
use bit_rows::table::{blank, has, row_of};
use msc_chart::{Chart, Event, Queues, Wiring};
use std::alloc::{AllocError, Global};
use std::marker::Model;

/// An order of the events of a chart.
#[derive(Drop)]
pub struct Order {
    events: u32,
    words: Vec<u64>,
}

impl Model for Order {
    ghost Value = { Table };

    ghost view = { λ o. table_of o.events (cell o.events o.words.items) };

    ghost invariant = { λ o. IsWellKept o.events o.words.items };
}

impl Order {
    /// The visual order of a chart (Alur, Holzmann, Peled 1996): the least transitive relation that
    /// contains the drawn order of each line and puts each output before its input. An error is a
    /// growth of memory that was refused.
    pub fn visual(alloc: Global, chart: &Chart) -> Result<Order, AllocError>
        ensures events { IfOk result (λ order. length order ≡ length chart.now.events) }
        ensures visual { IfOk result (λ order. IsVisualOrder chart.now.events (orders order)) }
    {
        let events = chart.events();
        let mut words = blank(alloc, events, events)?;
        close(alloc, &mut words, chart, true)?;
        Ok(Order { events, words })
    }

    /// The enforced order of a chart under an architecture: the least transitive relation that puts
    /// the events drawn before an output or an action before it, each output before its input, and
    /// the inputs of one queue in the order of their outputs. An error is a growth of memory that
    /// was refused.
    pub fn enforced(alloc: Global, chart: &Chart, queues: Queues) -> Result<Order, AllocError>
        ensures events { IfOk result (λ order. length order ≡ length chart.now.events) }
        ensures enforced { IfOk result (λ order. IsEnforcedOrder (wired queues chart.now)
            (orders order)) }
    {
        let events = chart.events();
        let mut words = blank(alloc, events, events)?;
        close_under_queues(alloc, &mut words, &Wiring { chart, queues })?;
        Ok(Order { events, words })
    }

    /// Whether `e` comes before `f`. Both are numbers of events, from 0. It takes no memory.
    pub fn holds(&self, e: Event, f: Event) -> bool
        requires e_known { e < length self.now }
        requires f_known { f < length self.now }
        ensures { result ≡ orders self.now e f }
    {
        has(&self.words, self.events, e, f)
    }

    /// The row of `e`: the numbers of exactly those events that `e` comes before ([`bit_rows`]). It
    /// takes no memory.
    pub fn row(&self, e: Event) -> &[u64]
        requires { e < length self.now }
        ensures words { length result.now ≡ word_count (length self.now) }
        ensures numbers { (f : ℕ) → has result.now f ≡ orders self.now e f }
    {
        row_of(&self.words, self.events, e)
    }
}
