//! The table of a chart's steps, as rows of bits.

ghost use Rattle.std.specs.Prelude.{◌≡◌, ℕ, ◌*◌, ◌<◌, length, IfOk};
ghost use Rattle.bit_rows.specs.Rows.{word_count};
ghost use Rattle.msc_chart.specs.Charts.{before};
ghost use Rattle.msc_chart.specs.Orders.{wired};
ghost use Rattle.msc_chart.specs.Wirings.{size, wired_by};
ghost use Rattle.msc_follow.specs.Steps.{is_ahead, is_sent, leads};
ghost use Rattle.msc_follow.specs.Tables.{AreSteps, HasGained};

use bit_rows::table;
use bit_rows::table::put;
use msc_chart::{Chart, Event, Queues, Wiring};
use std::alloc::{AllocError, Global};

/// Whether `x` and `y` are outputs of one queue, and the input of `x` is drawn before that of `y`.
fn is_ahead(wiring: &Wiring, x: Event, y: Event) -> bool
    requires x_known { x < size wiring.now }
    requires y_known { y < size wiring.now }
    ensures { result ≡ is_ahead (wired_by wiring.now) x y }
{
    let chart = wiring.chart;
    if !chart.is_output(x) {
        return false;
    }
    if !chart.is_output(y) {
        return false;
    }
    if wiring.queue(x) != wiring.queue(y) {
        return false;
    }
    chart.before(chart.other_end(x), chart.other_end(y))
}

/// Puts the step from output `x` to its input into row `x`.
fn put_sent(words: &mut [u64], wiring: &Wiring, x: Event)
    requires square { length words.old
        ≡ size wiring.now * word_count (size wiring.now) }
    requires known { x < size wiring.now }
    ensures { HasGained (size wiring.now) words.old words.new x
        (is_sent (wired_by wiring.now) x) }
{
    let chart = wiring.chart;
    if chart.is_output(x) {
        put(words, chart.events(), x, chart.other_end(x));
    }
}

/// Puts the steps from `x` to what is drawn after it into row `x`.
fn put_drawn(words: &mut [u64], chart: &Chart, x: Event)
    requires square { length words.old
        ≡ length chart.now.events * word_count (length chart.now.events) }
    requires known { x < length chart.now.events }
    ensures { HasGained (length chart.now.events) words.old words.new x
        (before chart.now.events x) }
{
    let events = chart.events();
    for y in x..chart.line_end(x) {
        if chart.before(x, y) {
            put(words, events, x, y);
        }
    }
}

/// Puts the steps from output `x` to the outputs that it has to be ahead of into row `x`.
fn put_ahead(words: &mut [u64], wiring: &Wiring, x: Event)
    requires square { length words.old
        ≡ size wiring.now * word_count (size wiring.now) }
    requires known { x < size wiring.now }
    ensures { HasGained (size wiring.now) words.old words.new x
        (is_ahead (wired_by wiring.now) x) }
{
    let chart = wiring.chart;
    let events = chart.events();
    let r = chart.other_end(x);
    for u in r..chart.line_end(r) {
        let y = chart.other_end(u);
        if is_ahead(wiring, x, y) {
            put(words, events, x, y);
        }
    }
}

/// Puts all steps from `x` into row `x`.
fn put_steps(words: &mut [u64], wiring: &Wiring, x: Event)
    requires square { length words.old
        ≡ size wiring.now * word_count (size wiring.now) }
    requires known { x < size wiring.now }
    ensures { HasGained (size wiring.now) words.old words.new x
        (leads (wired_by wiring.now) x) }
{
    put_sent(words, wiring, x);
    put_drawn(words, wiring.chart, x);
    put_ahead(words, wiring, x);
}

/// The table of the steps of a chart: it has the pairs of events between which a step leads. An
/// error is a growth of memory that was refused.
pub(crate) fn steps_of(alloc: Global, chart: &Chart, queues: Queues) -> Result<Vec<u64>, AllocError>
    ensures square { IfOk result (λ words. length words.items
        ≡ length chart.now.events * word_count (length chart.now.events)) }
    ensures steps { IfOk result (λ words. AreSteps (wired queues chart.now) words.items) }
{
    let wiring = Wiring { chart, queues };
    let events = chart.events();
    let mut words = table::blank(alloc, events, events)?;
    for x in 0..events {
        put_steps(&mut words, &wiring, x);
    }
    Ok(words)
}
