//! Races: drawn pairs that an order does not hold.
//!
//! The rest of its segment follows an event on its line and then, up to the end of the line, all
//! events drawn after it. The zeros of the event's row among them are its races, so whole words of
//! ones are skipped at once.

ghost use Rattle.std.specs.Prelude.{◌≡◌, ℕ, ◌+◌, ◌*◌, ◌/◌, ◌%◌, ◌<◌, ◌≤◌, ◌++◌, ◌&&◌, not, nat_le};
ghost use Rattle.std.specs.Prelude.{nat_lt, length, List, IfOk, OnOk};
ghost use Rattle.msc_chart.specs.declared.event.ChartEvent.{ChartEvent};
ghost use Rattle.msc_chart.specs.Lists.{pairs_to};
ghost use Rattle.msc_chart.specs.Charts.{IsLineEnd, IsSegmentEnd};
ghost use Rattle.bit_rows.specs.Rows.{HasNumbersOf32Bits};
ghost use Rattle.msc_order.specs.Tables.{orders};
ghost use Rattle.msc_race.specs.Gaps.{is_gap, is_open};
ghost use Rattle.msc_race.specs.Races.{all_races, is_raced};
ghost use Rattle.msc_race.specs.Walks.{HasReached};
ghost use Rattle.msc_race.specs.Words.{is_in_word};

use bit_rows::row::zeros_in;
use msc_chart::{Chart, Event};
use msc_order::Order;
use std::alloc::{AllocError, Global};

/// Appends the pairs of `e` with the numbers that `word` has as word `k` of a row.
fn push_word(list: &mut Vec<(Event, Event)>, word: u64, e: Event, k: u32) -> Result<(), AllocError>
    requires few { HasNumbersOf32Bits k }
    ensures { OnOk result
        (list.new.items ≡ list.old.items ++ pairs_to (is_in_word word k) e (64 * k + 64)) }
{
    let mut left = word;
    while left != 0 {
        list.push((e, 64 * k + left.trailing_zeros()))?;
        left &= left - 1;
    }
    Ok(())
}

/// Appends the pairs of `e` with the numbers from `start` up to `end` whose bit in a row is 0
/// ([`bit_rows`]).
fn push_gaps(
    list: &mut Vec<(Event, Event)>,
    row: &[u64],
    e: Event,
    start: u32,
    end: u32,
) -> Result<(), AllocError>
    requires reach { end ≤ 64 * length row.now }
    requires few { HasNumbersOf32Bits (length row.now) }
    ensures { OnOk result
        (list.new.items ≡ list.old.items ++ pairs_to (is_gap row.now start) e end) }
{
    if start >= end {
        return Ok(());
    }
    for k in start / 64..end.div_ceil(64) {
        push_word(list, zeros_in(row[k as usize], k, start, end), e, k)?;
    }
    Ok(())
}

/// Appends the pairs of `e` with those events from `start` up to `end` before which `order` does
/// not put it, where `order` is one of the chart. An error is a growth of memory that was refused.
fn push_open(
    list: &mut Vec<(Event, Event)>,
    chart: &Chart,
    order: &Order,
    e: Event,
    start: Event,
    end: Event,
) -> Result<(), AllocError>
    requires events { length order.now ≡ length chart.now.events }
    requires known { e < length chart.now.events }
    requires within { end ≤ length chart.now.events }
    ensures { OnOk result
        (list.new.items ≡ list.old.items ++ pairs_to (is_open order.now start) e end) }
{
    chart.facts();
    push_gaps(list, order.row(e), e, start, end)
}

/// The number past the segment of `e`. It is `known` if `known` is past `e`.
fn segment_end(chart: &Chart, e: Event, known: Event) -> Event
    requires e { e < length chart.now.events }
    requires known { e < known → IsSegmentEnd chart.now.events e known }
    ensures { IsSegmentEnd chart.now.events e result }
{
    if e < known {
        known
    } else {
        chart.segment_end(e)
    }
}

/// The number past the line of `e`. It is `known` if `known` is past `e`.
fn line_end(chart: &Chart, e: Event, known: Event) -> Event
    requires e { e < length chart.now.events }
    requires known { e < known → IsLineEnd chart.now.events e known }
    ensures { IsLineEnd chart.now.events e result }
{
    if e < known { known } else { chart.line_end(e) }
}

/// The number of numbers from `start` up to `end` whose bit in a row is 0 ([`bit_rows`]).
fn count_gaps(row: &[u64], start: u32, end: u32) -> u32
    requires reach { end ≤ 64 * length row.now }
    requires few { HasNumbersOf32Bits (length row.now) }
    ensures { (e : ℕ) → result ≡ length (pairs_to (is_gap row.now start) e end) }
{
    if start >= end {
        return 0;
    }
    let mut count = 0;
    for w in start / 64..end.div_ceil(64) {
        count += zeros_in(row[w as usize], w, start, end).count_ones();
    }
    count
}

/// The number of events from `start` up to `end` before which `order` does not put `e`, where
/// `order` is one of the chart.
fn count_open(chart: &Chart, order: &Order, e: Event, start: Event, end: Event) -> u32
    requires events { length order.now ≡ length chart.now.events }
    requires known { e < length chart.now.events }
    requires within { end ≤ length chart.now.events }
    ensures { result ≡ length (pairs_to (is_open order.now start) e end) }
{
    chart.facts();
    count_gaps(order.row(e), start, end)
}

/// A walk over the events of a chart, from the first to the last, one after another.
#[derive(Clone, Copy)]
pub struct Walk {
    /// The number past the segment of the event that was reached last, 0 before the first.
    pub segment_end: Event,
    /// The number past the line of that event, 0 before the first.
    pub line_end: Event,
}

impl Walk {
    /// A walk before the first event.
    pub fn new() -> Walk
        ensures { (events : List ChartEvent) → HasReached events 0 result }
    {
        Walk {
            segment_end: 0,
            line_end: 0,
        }
    }

    /// Proceeds to event `e`.
    fn reach(&mut self, chart: &Chart, e: Event)
        requires known { e < length chart.now.events }
        requires reached { HasReached chart.now.events e self.now }
        ensures segment { IsSegmentEnd chart.now.events e self.new.segment_end }
        ensures line { IsLineEnd chart.now.events e self.new.line_end }
    {
        self.segment_end = segment_end(chart, e, self.segment_end);
        self.line_end = line_end(chart, e, self.line_end);
    }

    /// Proceeds to event `e` and appends its pairs with the events that it is drawn before and
    /// before which `order` does not put it, ascending. With the enforced order of an architecture
    /// these are its races. The order was made of a chart with as many events. An error is a growth
    /// of memory that was refused.
    pub fn push_races(
        &mut self,
        list: &mut Vec<(Event, Event)>,
        chart: &Chart,
        order: &Order,
        e: Event,
    ) -> Result<(), AllocError>
        requires events { length order.now ≡ length chart.now.events }
        requires known { e < length chart.now.events }
        requires reached { HasReached chart.now.events e self.now }
        ensures reached { HasReached chart.now.events (e + 1) self.new }
        ensures segment { IsSegmentEnd chart.now.events e self.new.segment_end }
        ensures races { OnOk result (list.new.items ≡ list.old.items
            ++ pairs_to (is_raced chart.now.events order.now) e (length chart.now.events)) }
    {
        chart.facts();
        self.reach(chart, e);
        push_open(list, chart, order, e, self.segment_end, self.line_end)
    }

    /// Proceeds to event `e` and returns the number of pairs that [`Walk::push_races`] appends
    /// there.
    fn count(&mut self, chart: &Chart, order: &Order, e: Event) -> u32
        requires events { length order.now ≡ length chart.now.events }
        requires known { e < length chart.now.events }
        requires reached { HasReached chart.now.events e self.now }
        ensures reached { HasReached chart.now.events (e + 1) self.new }
        ensures count { result
            ≡ length (pairs_to (is_raced chart.now.events order.now) e (length chart.now.events)) }
    {
        chart.facts();
        self.reach(chart, e);
        count_open(chart, order, e, self.segment_end, self.line_end)
    }
}

/// The pairs of events that are drawn in an order which `order` does not hold, ascending. With the
/// enforced order of an architecture these are the races. The order was made of a chart with as
/// many events. An error is a growth of memory that was refused.
pub fn races(alloc: Global, chart: &Chart, order: &Order) -> Result<Vec<(Event, Event)>, AllocError>
    requires events { length order.now ≡ length chart.now.events }
    ensures { IfOk result (λ list. list.items ≡ all_races chart.now.events order.now) }
{
    let mut list = Vec::new(alloc);
    let mut walk = Walk::new();
    for e in 0..chart.events() {
        walk.push_races(&mut list, chart, order, e)?;
    }
    Ok(list)
}

/// The number of pairs of events that are drawn in an order which `order` does not hold: as many as
/// [`races`] lists. The order was made of a chart with as many events. It takes no memory.
pub fn count_races(chart: &Chart, order: &Order) -> u32
    requires events { length order.now ≡ length chart.now.events }
    ensures { result ≡ length (all_races chart.now.events order.now) }
{
    // A pair is of two events, so there are fewer than the square of `EVENT_LIMIT`, which fits.
    let mut total = 0;
    let mut walk = Walk::new();
    for e in 0..chart.events() {
        total += walk.count(chart, order, e);
    }
    total
}
