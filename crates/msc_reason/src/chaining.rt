//! Why an event is enforced before another, step by step.
//!
//! From an event, a chain goes to the last controlled event below it that still leads to the end
//! or, if there is none, from an output to its input. A pair that is enforced beyond chains begins
//! at an input of a queue, and needs the rule of queues once.

ghost use Rattle.std.specs.Prelude.{◌≡◌, ◌<◌, ◌↔◌, ℕ, length, IsTrue, IfOk, MatchOption};
ghost use Rattle.msc_chart.specs.Charts.{is_input};
ghost use Rattle.msc_chart.specs.Orders.{Enforced as IsEnforcedBefore};
ghost use Rattle.msc_order.specs.Caused.{Caused, InQueueOrder, IsFollowedBy};
ghost use Rattle.msc_race.specs.Views.{wiring_of};
ghost use Rattle.msc_reason.specs.Chains.{LeadsTo, Step};
ghost use Rattle.msc_reason.specs.Links.{HasNoLink, IsMate, Reaches};
ghost use Rattle.msc_reason.specs.Rules.{IsChosenStep, IsChosenWhy, IsFirstMate, IsLastLink};
ghost use Rattle.msc_reason.specs.Rules.{LeadsByRule};

use crate::why::Why;
use listed::Listed;
use msc_chart::Event;
use msc_chart::laws::ends_share_queues;
use msc_race::Enforced;
use msc_race::laws::the_enforced_order_has_no_cycle;
use std::alloc::{AllocError, Global};

/// Whether `z` is controlled, and is `y` or enforced before it.
fn reaches(enforced: &Enforced, y: Event, z: Event) -> bool
    requires y_known { y < length enforced.now.chart.events }
    requires z_known { z < length enforced.now.chart.events }
    ensures { IsTrue result ↔ Reaches (wiring_of enforced.now) y z }
{
    enforced.chart().is_controlled(z) && (z == y || enforced.holds(z, y))
}

/// The last event below `x` that is a link to `y`, if there is one.
fn last_link(enforced: &Enforced, x: Event, y: Event) -> Option<Event>
    requires x_known { x < length enforced.now.chart.events }
    requires y_known { y < length enforced.now.chart.events }
    ensures { MatchOption result (HasNoLink (wiring_of enforced.now) x y)
        (IsLastLink (wiring_of enforced.now) x y) }
{
    enforced.facts();
    let chart = enforced.chart();
    let start = chart.segment_end(x);
    let end = chart.line_end(x);
    for k in 0..end.saturating_sub(start) {
        let z = end - 1 - k;
        if reaches(enforced, y, z) {
            return Some(z);
        }
    }
    None
}

/// The next event of the chain from `x` to `y`.
fn next_step(enforced: &Enforced, x: Event, y: Event) -> Event
    requires { Caused enforced.now.chart.events x y }
    ensures step { Step enforced.now.chart.events x result }
    ensures onward { IsFollowedBy enforced.now.chart.events result y }
    ensures chosen { IsChosenStep (wiring_of enforced.now) x y result }
{
    ends_share_queues();
    enforced.facts();
    match last_link(enforced, x, y) {
        Some(z) => z,
        None => enforced.chart().other_end(x),
    }
}

/// The events after `x` of a chain from `x` to `y`: none if `x` is `y`.
fn walk(alloc: Global, enforced: &Enforced, x: Event, y: Event) -> Result<Listed<Event>, AllocError>
    requires { IsFollowedBy enforced.now.chart.events x y }
    ensures { IfOk result (λ steps. LeadsTo enforced.now.chart.events x steps y
        × LeadsByRule (wiring_of enforced.now) y x steps y) }
{
    the_enforced_order_has_no_cycle();
    ends_share_queues();
    enforced.facts();
    let mut steps = Vec::new(alloc);
    let mut at = x;
    while at != y {
        at = next_step(enforced, at, y);
        steps.push(at)?;
    }
    Ok(Listed::from_vec(steps))
}

/// Whether lines and messages by themselves enforce `x` before `y`.
fn is_caused(enforced: &Enforced, x: Event, y: Event) -> bool
    requires x_known { x < length enforced.now.chart.events }
    requires y_known { y < length enforced.now.chart.events }
    ensures { IsTrue result ↔ Caused enforced.now.chart.events x y }
{
    ends_share_queues();
    enforced.facts();
    if enforced.chart().is_controlled(x) {
        return enforced.holds(x, y);
    }
    last_link(enforced, x, y).is_some()
}

/// Whether input `e` comes before `u` by the rule of queues only.
fn comes_by_queue(enforced: &Enforced, e: Event, u: Event) -> bool
    requires input { IsTrue (is_input enforced.now.chart.events e) }
    requires u_known { u < length enforced.now.chart.events }
    ensures { IsTrue result ↔ InQueueOrder (wiring_of enforced.now) e u }
{
    ends_share_queues();
    enforced.facts();
    let wiring = enforced.wiring();
    let chart = wiring.chart;
    if chart.is_controlled(u) {
        return false;
    }
    if wiring.queue(e) != wiring.queue(u) {
        return false;
    }
    enforced.holds(chart.other_end(e), chart.other_end(u))
}

/// Whether `u` comes after input `e` by the rule of queues, and is `f` or leads to it.
fn is_mate(enforced: &Enforced, e: Event, f: Event, u: Event) -> bool
    requires input { IsTrue (is_input enforced.now.chart.events e) }
    requires f_known { f < length enforced.now.chart.events }
    requires u_known { u < length enforced.now.chart.events }
    ensures { IsTrue result ↔ IsMate (wiring_of enforced.now) e f u }
{
    comes_by_queue(enforced, e, u) && (u == f || is_caused(enforced, u, f))
}

/// The first event that comes after input `e` by the rule of queues, and is `f` or leads to it.
fn first_mate(enforced: &Enforced, e: Event, f: Event) -> Event
    requires input { IsTrue (is_input enforced.now.chart.events e) }
    requires f_known { f < length enforced.now.chart.events }
    requires some { (u : ℕ) × IsMate (wiring_of enforced.now) e f u }
    ensures { IsFirstMate (wiring_of enforced.now) e f result }
{
    for u in 0..enforced.events() {
        if is_mate(enforced, e, f, u) {
            return u;
        }
    }
    e
}

/// Why `e` is enforced before `f`, step by step; of several reasons the rule selects one: a chain
/// if there is one, otherwise the first input that serves, and for each chain the last events that
/// lead on. The pair is enforced. An error is a growth of memory that was refused.
pub fn why_of(alloc: Global, enforced: &Enforced, e: Event, f: Event) -> Result<Why, AllocError>
    requires { IsEnforcedBefore (wiring_of enforced.now) e f }
    ensures { IfOk result (IsChosenWhy (wiring_of enforced.now) e f) }
{
    the_enforced_order_has_no_cycle();
    ends_share_queues();
    enforced.facts();
    if is_caused(enforced, e, f) {
        return Ok(Why::Straight(walk(alloc, enforced, e, f)?));
    }
    let u = first_mate(enforced, e, f);
    let chart = enforced.chart();
    let output = chart.other_end(e);
    let outputs = walk(alloc, enforced, output, chart.other_end(u))?;
    let onward = walk(alloc, enforced, u, f)?;
    Ok(Why::ByQueue(u, outputs, onward))
}
