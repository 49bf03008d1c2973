//! Closing a table under the rules of lines and messages: row by row, in the reverse of a linear
//! order of the events, so that each row is made of rows that are finished.
//!
//! A line leads from all events of a segment to the same events. So the first event of the segment
//! that is reached takes in the rows of the next segment, and the rows of the others begin as a
//! copy of its row.

ghost use Rattle.std.specs.Prelude.{◌≡◌, ℕ, ◌*◌, ◌<◌, ◌≤◌, ◌||◌, ◌&&◌, ◌↔◌, length, nat_eq};
ghost use Rattle.std.specs.Prelude.{IsTrue, OnOk, false};
ghost use Rattle.msc_chart.specs.Charts.{before, is_controlled, Visual};
ghost use Rattle.bit_rows.specs.Rows.{has, word_count};
ghost use Rattle.bit_rows.specs.Tables.{cell, HasRow};
ghost use Rattle.msc_order.specs.Caused.{Led};
ghost use Rattle.msc_order.specs.Closing.{LedByLine, IsNextSegment, HoldsOnly, IsTestOf};
ghost use Rattle.msc_order.specs.Closing.{AreBegun, HasRowOf, Keeps, KeepsOthers};

use crate::segments::next_segment_events;
use bit_rows::row;
use bit_rows::table::{merge, take_in};
use msc_chart::{Chart, Event};
use std::alloc::{AllocError, Global};

/// Whether an event drawn before `f` leads to it.
fn leads(chart: &Chart, inputs: bool, f: Event) -> bool
    requires { f < length chart.now.events }
    ensures { result ≡ (inputs || is_controlled chart.now.events f) }
{
    inputs || chart.is_controlled(f)
}

/// Row `e`, which is blank, takes in all to which the line leads from `e`. The events from `start`
/// up to `end` are the next segment, and the rows of all events drawn after `e` are made.
fn add_lines(words: &mut [u64], chart: &Chart, inputs: bool, e: Event, start: Event, end: Event)
    requires square { length words.old
        ≡ length chart.now.events * word_count (length chart.now.events) }
    requires known { e < length chart.now.events }
    requires next { IsNextSegment chart.now.events e start end }
    requires sound { HoldsOnly (Led chart.now.events inputs)
        (cell (length chart.now.events) words.old) }
    requires blank { (y : ℕ) → cell (length chart.now.events) words.old e y ≡ false }
    requires later { (f : ℕ) → IsTrue (before chart.now.events e f)
        → HasRowOf (Led chart.now.events inputs) (cell (length chart.now.events) words.old) f }
    ensures others { KeepsOthers e (cell (length chart.now.events) words.old)
        (cell (length chart.now.events) words.new) }
    ensures row { (y : ℕ) → IsTrue (cell (length chart.now.events) words.new e y)
        ↔ LedByLine chart.now.events inputs e y }
{
    let events = chart.events();
    for f in start..end {
        take_in(words, events, e, f, leads(chart, inputs, f));
    }
}

/// Begins row `f` as row `e`, which has more numbers only if `more` says so.
fn begin_as(words: &mut [u64], begun: &mut [u64], n: u32, e: Event, f: Event, more: bool)
    requires row { HasRow n words.old f }
    requires other { HasRow n words.old e }
    requires marks { n ≤ 64 * length begun.old }
    requires column { f < n }
    requires more { more ≡ false
        → (y : ℕ) → IsTrue (cell n words.old e y) → IsTrue (cell n words.old f y) }
    ensures rows { (x y : ℕ) → cell n words.new x y
        ≡ (cell n words.old x y || (nat_eq x f && cell n words.old e y)) }
    ensures begun { (y : ℕ) → has begun.new y ≡ (has begun.old y || nat_eq y f) }
{
    if more {
        merge(words, n, f, e);
    }
    row::put(begun, f);
}

/// Begins the rows of the segment of `e`, unless they are begun. The rows of all events drawn after
/// it are made.
fn begin_segment(words: &mut [u64], begun: &mut [u64], chart: &Chart, inputs: bool, e: Event)
    requires square { length words.old
        ≡ length chart.now.events * word_count (length chart.now.events) }
    requires marks { length chart.now.events ≤ 64 * length begun.old }
    requires known { e < length chart.now.events }
    requires begun { AreBegun chart.now.events inputs words.old begun.old }
    requires later { (f : ℕ) → IsTrue (before chart.now.events e f)
        → HasRowOf (Led chart.now.events inputs) (cell (length chart.now.events) words.old) f }
    ensures begun { AreBegun chart.now.events inputs words.new begun.new }
    ensures kept { Keeps (cell (length chart.now.events) words.old)
        (cell (length chart.now.events) words.new) }
    ensures here { IsTrue (has begun.new e) }
{
    let events = chart.events();
    if row::has(begun, e) {
        return;
    }
    let (start, end) = next_segment_events(chart, e);
    add_lines(words, chart, inputs, e, start, end);
    row::put(begun, e);
    for passed in 0..start {
        let f = start - 1 - passed;
        if !chart.share_segment(e, f) {
            return;
        }
        begin_as(words, begun, events, e, f, start < end && f != e);
    }
}

/// Makes the row of `e`. The rows of all events after it are made.
fn add_row(words: &mut [u64], begun: &mut [u64], chart: &Chart, inputs: bool, e: Event)
    requires square { length words.old
        ≡ length chart.now.events * word_count (length chart.now.events) }
    requires marks { length chart.now.events ≤ 64 * length begun.old }
    requires known { e < length chart.now.events }
    requires begun { AreBegun chart.now.events inputs words.old begun.old }
    requires later { (f : ℕ) → Visual chart.now.events e f
        → HasRowOf (Led chart.now.events inputs) (cell (length chart.now.events) words.old) f }
    ensures begun { AreBegun chart.now.events inputs words.new begun.new }
    ensures kept { Keeps (cell (length chart.now.events) words.old)
        (cell (length chart.now.events) words.new) }
    ensures row { HasRowOf (Led chart.now.events inputs)
        (cell (length chart.now.events) words.new) e }
{
    let events = chart.events();
    begin_segment(words, begun, chart, inputs, e);
    if chart.is_output(e) {
        take_in(words, events, e, chart.other_end(e), true);
    }
}

/// Makes all rows.
fn add_rows(words: &mut [u64], begun: &mut [u64], chart: &Chart, inputs: bool)
    requires square { length words.old
        ≡ length chart.now.events * word_count (length chart.now.events) }
    requires marks { length chart.now.events ≤ 64 * length begun.old }
    requires begun { AreBegun chart.now.events inputs words.old begun.old }
    ensures { IsTestOf (Led chart.now.events inputs) (cell (length chart.now.events) words.new) }
{
    chart.facts();
    let order = chart.linear_order();
    for done in 0..order.len() {
        add_row(words, begun, chart, inputs, order[order.len() - 1 - done]);
    }
}

/// Closes a blank table under the rules of lines and messages. An event comes before each event
/// drawn after it if `inputs` is set, otherwise before each controlled one; and an output comes
/// before its input.
pub fn close(
    alloc: Global,
    words: &mut [u64],
    chart: &Chart,
    inputs: bool,
) -> Result<(), AllocError>
    requires square { length words.old
        ≡ length chart.now.events * word_count (length chart.now.events) }
    requires blank { (x y : ℕ) → cell (length chart.now.events) words.old x y ≡ false }
    ensures { OnOk result
        (IsTestOf (Led chart.now.events inputs) (cell (length chart.now.events) words.new)) }
{
    let mut begun = row::blank(alloc, chart.events())?;
    add_rows(words, &mut begun, chart, inputs);
    Ok(())
}
