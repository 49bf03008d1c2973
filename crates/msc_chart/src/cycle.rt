//! The least event that precedes itself in the visual order.
//!
//! From each event in turn the search goes down the lines and along the messages. It keeps the
//! least segment that was reached on each line; `u32::MAX` means none. The number of its steps
//! grows with the square of the number of events.
#![tactic(auto, unfolding(crate::specs::Charts::line, crate::specs::Charts::segment, crate::specs::Charts::partner, crate::specs::Charts::kind))]

ghost use Rattle.std.specs.Prelude.{◌≡◌, ◌<◌, ◌≤◌, ◌↔◌, IsTrue, length, sum, IfOk, MatchOption};
ghost use Rattle.std.specs.Bool.{OnTrue, OnFalse};
ghost use Rattle.msc_chart.specs.Building.{IsLeastCyclic};
ghost use Rattle.msc_chart.specs.Charts.{AreOnLines, IsMatched, IsAcyclic, Visual};
ghost use Rattle.msc_chart.specs.Charts.{at};
ghost use Rattle.msc_chart.specs.Reach.{IsPassed, AreReached, IsClosedAt, AreClosedBelow};

use crate::EVENT_LIMIT;
use crate::event::ChartEvent;
use std::alloc::{AllocError, Global};

/// Whether `s` is an output that is `e` or is below what is reached on its line.
fn is_passed(events: &[ChartEvent], e: usize, low: &[u32], s: usize) -> bool
    requires event { s < length events.now }
    requires line { (at events.now s).line < length low.now }
    ensures { IsTrue result ↔ IsPassed events.now e low.now s }
{
    let event = events[s];
    event.kind.is_output() && (s == e || low[event.line as usize] < event.segment)
}

/// Reaches the input of `s`, if `s` is passed and the input is above what is reached. Returns
/// whether it was.
fn lower(events: &[ChartEvent], e: usize, low: &mut [u32], s: usize) -> bool
    requires matched { IsMatched events.now }
    requires lines { AreOnLines (length low.old) events.now }
    requires from { e < length events.now }
    requires event { s < length events.now }
    requires sound { AreReached events.now e low.old }
    ensures sound { AreReached events.now e low.new }
    ensures lowered { OnTrue result (sum low.new < sum low.old) }
    ensures same { OnFalse result (low.new ≡ low.old) }
    ensures closed { OnFalse result (IsClosedAt events.now e low.old s) }
{
    if !is_passed(events, e, low, s) {
        return false;
    }
    let input = events[events[s].partner as usize];
    if low[input.line as usize] <= input.segment {
        return false;
    }
    low[input.line as usize] = input.segment;
    true
}

/// Does this for each output. Returns whether anything new was reached.
fn round(events: &[ChartEvent], e: usize, low: &mut [u32]) -> bool
    requires matched { IsMatched events.now }
    requires lines { AreOnLines (length low.old) events.now }
    requires from { e < length events.now }
    requires sound { AreReached events.now e low.old }
    ensures sound { AreReached events.now e low.new }
    ensures lowered { OnTrue result (sum low.new < sum low.old) }
    ensures same { OnFalse result (low.new ≡ low.old) }
    ensures closed { OnFalse result (AreClosedBelow events.now e low.new (length events.now)) }
{
    let mut changed = false;
    for s in 0..events.len() {
        if lower(events, e, low, s) {
            changed = true;
        }
    }
    changed
}

/// Reaches all that comes after `e`.
fn reach(events: &[ChartEvent], e: usize, low: &mut [u32])
    requires matched { IsMatched events.now }
    requires lines { AreOnLines (length low.old) events.now }
    requires few { length events.now ≤ EVENT_LIMIT }
    requires from { e < length events.now }
    ensures sound { AreReached events.now e low.new }
    ensures closed { AreClosedBelow events.now e low.new (length events.now) }
{
    for segment in low.iter_mut() {
        *segment = u32::MAX;
    }
    low[events[e].line as usize] = events[e].segment;
    search(events, e, low);
}

/// Repeats this while something new is reached.
fn search(events: &[ChartEvent], e: usize, low: &mut [u32])
    requires matched { IsMatched events.now }
    requires lines { AreOnLines (length low.old) events.now }
    requires from { e < length events.now }
    requires sound { AreReached events.now e low.old }
    ensures sound { AreReached events.now e low.new }
    ensures closed { AreClosedBelow events.now e low.new (length events.now) }
{
    let mut changed = true;
    while changed {
        changed = round(events, e, low);
    }
}

/// Whether `e` precedes itself.
fn precedes_itself(events: &[ChartEvent], e: usize, low: &mut [u32]) -> bool
    requires matched { IsMatched events.now }
    requires lines { AreOnLines (length low.old) events.now }
    requires few { length events.now ≤ EVENT_LIMIT }
    requires from { e < length events.now }
    ensures { IsTrue result ↔ Visual events.now e e }
{
    reach(events, e, low);
    let event = events[e];
    if event.kind.is_output() {
        low[event.line as usize] < event.segment
    } else {
        low[event.line as usize] < event.segment
            || is_passed(events, e, low, event.partner as usize)
    }
}

/// The least event that precedes itself.
pub(crate) fn least_cyclic(
    alloc: Global,
    events: &[ChartEvent],
    lines: usize,
) -> Result<Option<usize>, AllocError>
    requires matched { IsMatched events.now }
    requires lines { AreOnLines lines events.now }
    requires few { length events.now ≤ EVENT_LIMIT }
    ensures { IfOk result (λ r. MatchOption r (IsAcyclic events.now) (IsLeastCyclic events.now)) }
{
    let mut low = vec![in alloc; 0u32; lines]?;
    for e in 0..events.len() {
        if precedes_itself(events, e, low.as_mut_slice()) {
            return Ok(Some(e));
        }
    }
    Ok(None)
}
