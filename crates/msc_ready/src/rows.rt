//! The rows of the ready order, made of the visual order.
//!
//! All that comes before its output precedes an input of a line that is not ready, and so do the
//! inputs of its queue whose outputs come first. The visual order gives what precedes any other
//! event, together with what comes before it over one such step between two inputs.

ghost use Rattle.std.specs.Prelude.{◌≡◌, ℕ, ◌*◌, ◌<◌, ◌↔◌, false, length, IfOk, IsTrue};
ghost use Rattle.bit_rows.specs.Rows.{word_count};
ghost use Rattle.bit_rows.specs.Tables.{cell};
ghost use Rattle.msc_chart.specs.Charts.{is_input, line};
ghost use Rattle.msc_order.specs.Closing.{HoldsOnly, Keeps};
ghost use Rattle.msc_ready.specs.Held.{ready_of, wiring_of};
ghost use Rattle.msc_ready.specs.Plain.{AreMates, Plain};
ghost use Rattle.msc_ready.specs.Readiness.{ReadyOrder};
ghost use Rattle.msc_ready.specs.Rows.{AreRowsOf, HasOver, HasPlain};

use crate::ready::{Ready, is_listed};
use bit_rows::table::{blank, put, take_in};
use msc_chart::Event;
use msc_chart::laws::{ends_share_queues, inputs_share_lines};
use std::alloc::{AllocError, Global};

impl Ready<'_> {
    /// Whether `e` is an input of a line that is not ready.
    fn is_loose(&self, lines: &[bool], e: Event) -> bool
        requires { e < length self.now.chart.events }
        ensures { IsTrue result ↔ (IsTrue (is_input self.now.chart.events e)
            × (ready_of lines.now (line self.now.chart.events e) ≡ false)) }
    {
        if !self.is_input(e) {
            return false;
        }
        !is_listed(lines, self.chart().instance_of(e))
    }

    /// Whether lines and messages by themselves put `x` before `y`.
    fn is_plain(&self, lines: &[bool], x: Event, y: Event) -> bool
        requires x_known { x < length self.now.chart.events }
        requires y_known { y < length self.now.chart.events }
        ensures { IsTrue result ↔ Plain (wiring_of self.now) (ready_of lines.now) x y }
    {
        self.facts();
        ends_share_queues();
        if !self.is_loose(lines, y) {
            return self.precedes(x, y);
        }
        let output = self.chart().other_end(y);
        if x == output {
            return true;
        }
        self.precedes(x, output)
    }

    /// Whether the rule of queues puts `r` before `u`: both are inputs of one queue whose line is
    /// not ready, and their outputs have that order.
    fn are_mates(&self, lines: &[bool], r: Event, u: Event) -> bool
        requires r_known { r < length self.now.chart.events }
        requires u_known { u < length self.now.chart.events }
        ensures { IsTrue result ↔ AreMates (wiring_of self.now) (ready_of lines.now) r u }
    {
        self.facts();
        if !self.is_input(r) {
            return false;
        }
        if !self.is_loose(lines, u) {
            return false;
        }
        if !self.share_queue(r, u) {
            return false;
        }
        let chart = self.chart();
        self.is_plain(lines, chart.other_end(r), chart.other_end(u))
    }

    /// Row `x` takes in the events that lines and messages by themselves put after `x`.
    fn put_plain(&self, lines: &[bool], rows: &mut [u64], x: Event)
        requires square { length rows.old
            ≡ length self.now.chart.events * word_count (length self.now.chart.events) }
        requires known { x < length self.now.chart.events }
        requires sound { HoldsOnly (ReadyOrder (wiring_of self.now) (ready_of lines.now))
            (cell (length self.now.chart.events) rows.old) }
        ensures sound { HoldsOnly (ReadyOrder (wiring_of self.now) (ready_of lines.now))
            (cell (length self.now.chart.events) rows.new) }
        ensures kept { Keeps (cell (length self.now.chart.events) rows.old)
            (cell (length self.now.chart.events) rows.new) }
        ensures row { HasPlain (wiring_of self.now) (ready_of lines.now) rows.new x }
    {
        let events = self.events();
        for y in 0..events {
            if self.is_plain(lines, x, y) {
                put(rows, events, x, y);
            }
        }
    }

    /// Row `x` takes in what one use of the rule of queues from `x` adds. All rows have what lines
    /// and messages by themselves put after their events.
    fn put_over(&self, lines: &[bool], rows: &mut [u64], x: Event)
        requires square { length rows.old
            ≡ length self.now.chart.events * word_count (length self.now.chart.events) }
        requires known { x < length self.now.chart.events }
        requires sound { HoldsOnly (ReadyOrder (wiring_of self.now) (ready_of lines.now))
            (cell (length self.now.chart.events) rows.old) }
        requires plain { (u : ℕ) → u < length self.now.chart.events
            → HasPlain (wiring_of self.now) (ready_of lines.now) rows.old u }
        ensures sound { HoldsOnly (ReadyOrder (wiring_of self.now) (ready_of lines.now))
            (cell (length self.now.chart.events) rows.new) }
        ensures kept { Keeps (cell (length self.now.chart.events) rows.old)
            (cell (length self.now.chart.events) rows.new) }
        ensures row { HasOver (wiring_of self.now) (ready_of lines.now) rows.new x }
    {
        self.facts();
        ends_share_queues();
        inputs_share_lines();
        if !self.is_loose(lines, x) {
            return;
        }
        let events = self.events();
        for u in 0..events {
            if self.are_mates(lines, x, u) {
                take_in(rows, events, x, u, true);
            }
        }
    }

    /// Fills blank rows with the ready order for these ready lines.
    fn fill(&self, lines: &[bool], rows: &mut [u64])
        requires square { length rows.old
            ≡ length self.now.chart.events * word_count (length self.now.chart.events) }
        requires blank { (x y : ℕ) → cell (length self.now.chart.events) rows.old x y ≡ false }
        ensures { AreRowsOf (wiring_of self.now) (ready_of lines.now) rows.new }
    {
        self.facts();
        ends_share_queues();
        inputs_share_lines();
        for x in 0..self.events() {
            self.put_plain(lines, rows, x);
        }
        for x in 0..self.events() {
            self.put_over(lines, rows, x);
        }
    }

    /// The rows of the ready order for these ready lines. An error is a growth of memory that was
    /// refused.
    pub(crate) fn rows_of(&self, alloc: Global, lines: &[bool]) -> Result<Vec<u64>, AllocError>
        ensures { IfOk result (λ rows.
            AreRowsOf (wiring_of self.now) (ready_of lines.now) rows.items) }
    {
        let events = self.events();
        let mut rows = blank(alloc, events, events)?;
        self.fill(lines, &mut rows);
        Ok(rows)
    }
}
