//! A linear order of the events that keeps the visual order.
//!
//! The events are put into a list one by one, each as soon as the list has all that comes directly
//! before it: the events drawn before it and, for an input, its output. After each event, the code
//! looks at the events that it may have opened: the input of its message, and the next segment of
//! its line. So the sorting takes few steps for each event. If it gets stuck before all events are
//! put, some event precedes itself in the visual order.

ghost use Rattle.std.specs.Prelude.{◌≡◌, ℕ, ◌+◌, ◌<◌, ◌≤◌, ◌↔◌, IsTrue, false, length, vec_len};
ghost use Rattle.std.specs.Prelude.{IfOk, OnOk, IfErr};
ghost use Rattle.std.specs.Bool.{OnTrue, OnFalse};
ghost use Rattle.msc_chart.specs.Charts.{line, IsLinearOrder};
ghost use Rattle.msc_chart.specs.Sortings.{is_put, AreReady, IsBarred, IsCycleOrMemory, IsLeftOn};
ghost use Rattle.msc_chart.specs.Sortings.{IsUnbarred, IsSorting, IsStuckAt, IsStuckBelow};
ghost use Rattle.msc_chart.specs.Sortings.{NoneLeftBelow};

use crate::cycle::least_cyclic;
use crate::event::{ChartEvent, Event};
use crate::fault::ChartFault;
use std::alloc::{AllocError, Global};

/// The state of the sorting.
#[derive(Drop)]
pub(crate) struct Sorting {
    /// The events that were put into the list, in their order.
    pub order: Vec<Event>,
    /// Whether each event was put.
    pub is_put: Vec<bool>,
    /// For each line, a number below which none of its events is left.
    pub first: Vec<u32>,
    /// For each line, the least segment whose events were not yet visited as a whole.
    pub unopened: Vec<u32>,
    /// The number of events that are left.
    pub left: usize,
}

/// Whether event `x` is an event of line `i` and is left.
fn is_left(events: &[ChartEvent], marks: &[bool], i: u32, x: usize) -> bool
    requires marks { length marks.now ≡ length events.now }
    requires event { x < length events.now }
    ensures { IsTrue result ↔ IsLeftOn events.now marks.now i x }
{
    events[x].line == i && !marks[x]
}

/// The first event of a line that is left, from this number on, or the number of all events.
fn first_left(events: &[ChartEvent], marks: &[bool], i: u32, from: usize) -> usize
    requires marks { length marks.now ≡ length events.now }
    requires below { NoneLeftBelow events.now marks.now i from }
    ensures below { NoneLeftBelow events.now marks.now i result }
    ensures left { result < length events.now → IsLeftOn events.now marks.now i result }
    ensures within { result ≤ length events.now }
{
    for x in from..events.len() {
        if is_left(events, marks, i, x) {
            return x;
        }
    }
    events.len()
}

/// Whether the list has all that comes directly before `e`, where `first` is the first event of its
/// line that is left.
fn is_open(events: &[ChartEvent], marks: &[bool], first: usize, e: usize) -> bool
    requires ready { (lines : ℕ) × AreReady lines events.now }
    requires marks { length marks.now ≡ length events.now }
    requires event { e < length events.now }
    requires first { first < length events.now }
    requires left { IsLeftOn events.now marks.now (line events.now e) first }
    requires below { NoneLeftBelow events.now marks.now (line events.now e) first }
    ensures open { OnTrue result (IsUnbarred events.now marks.now e) }
    ensures barred { OnFalse result (IsBarred events.now marks.now e) }
{
    if events[first].segment < events[e].segment {
        return false;
    }
    if events[e].kind.is_controlled() {
        return true;
    }
    marks[events[e].partner as usize]
}

/// The first event of line `i` that is left; the next search begins there.
fn move_first(events: &[ChartEvent], sorting: &mut Sorting, i: u32) -> usize
    requires sorting { IsSorting events.now sorting.old }
    requires line { i < vec_len sorting.old.first }
    ensures sorting { IsSorting events.now sorting.new }
    ensures order { sorting.new.order ≡ sorting.old.order }
    ensures marks { sorting.new.is_put ≡ sorting.old.is_put }
    ensures same { sorting.new.left ≡ sorting.old.left }
    ensures below { NoneLeftBelow events.now sorting.new.is_put.items i result }
    ensures left { result < length events.now
        → IsLeftOn events.now sorting.new.is_put.items i result }
    ensures within { result ≤ length events.now }
{
    let from = sorting.first[i as usize] as usize;
    let first = first_left(events, sorting.is_put.as_slice(), i, from);
    sorting.first[i as usize] = first as u32;
    first
}

/// Appends `e`, which is open, to the list.
fn push(events: &[ChartEvent], sorting: &mut Sorting, e: usize) -> Result<(), AllocError>
    requires sorting { IsSorting events.now sorting.old }
    requires event { e < length events.now }
    requires left { is_put sorting.old.is_put.items e ≡ false }
    requires open { IsUnbarred events.now sorting.old.is_put.items e }
    ensures sorting { OnOk result (IsSorting events.now sorting.new) }
    ensures left { OnOk result (sorting.new.left + 1 ≡ sorting.old.left) }
{
    // A look at the slice makes its greatest length known.
    let _events = events;
    sorting.order.push(e as u32)?;
    sorting.is_put[e] = true;
    sorting.left -= 1;
    Ok(())
}

/// Appends `e` to the list, if it is left and the list has all that comes directly before it.
/// Returns whether it was appended.
fn put(events: &[ChartEvent], sorting: &mut Sorting, e: usize) -> Result<bool, AllocError>
    requires sorting { IsSorting events.now sorting.old }
    requires event { e < length events.now }
    ensures sorting { OnOk result (IsSorting events.now sorting.new) }
    ensures put { IfOk result (λ r. OnTrue r (sorting.new.left + 1 ≡ sorting.old.left)) }
    ensures same { IfOk result (λ r. OnFalse r (sorting.new.left ≡ sorting.old.left)) }
    ensures marks { IfOk result (λ r.
        OnFalse r (sorting.new.is_put.items ≡ sorting.old.is_put.items)) }
    ensures stuck { IfOk result (λ r. OnFalse r (IsStuckAt events.now sorting.new.is_put.items e)) }
{
    if sorting.is_put[e] {
        return Ok(false);
    }
    let first = move_first(events, sorting, events[e].line);
    if !is_open(events, sorting.is_put.as_slice(), first, e) {
        return Ok(false);
    }
    push(events, sorting, e)?;
    Ok(true)
}

/// Appends the events of the segment that begins at event `from`, as far as possible.
fn put_segment(events: &[ChartEvent], sorting: &mut Sorting, from: usize) -> Result<(), AllocError>
    requires sorting { IsSorting events.now sorting.old }
    requires from { from < length events.now }
    ensures sorting { OnOk result (IsSorting events.now sorting.new) }
    ensures left { OnOk result (sorting.new.left ≤ sorting.old.left) }
{
    let head = events[from];
    for x in from..events.len() {
        if events[x].line != head.line || events[x].segment != head.segment {
            return Ok(());
        }
        put(events, sorting, x)?;
    }
    Ok(())
}

/// Appends the events that `e`, which is in the list, may have opened: the input of its message,
/// and the next segment of its line, if that was not yet visited.
fn put_opened(events: &[ChartEvent], sorting: &mut Sorting, e: usize) -> Result<(), AllocError>
    requires sorting { IsSorting events.now sorting.old }
    requires event { e < length events.now }
    ensures sorting { OnOk result (IsSorting events.now sorting.new) }
    ensures left { OnOk result (sorting.new.left ≤ sorting.old.left) }
{
    let event = events[e];
    put(events, sorting, event.partner as usize)?;
    let next = move_first(events, sorting, event.line);
    if next == events.len() || events[next].segment < sorting.unopened[event.line as usize] {
        return Ok(());
    }
    sorting.unopened[event.line as usize] = events[next].segment + 1;
    put_segment(events, sorting, next)
}

/// Visits the events that may follow each event of the list from this place on, while the list
/// grows. Returns its length.
fn follow(events: &[ChartEvent], sorting: &mut Sorting, from: usize) -> Result<usize, AllocError>
    requires sorting { IsSorting events.now sorting.old }
    ensures sorting { OnOk result (IsSorting events.now sorting.new) }
    ensures left { OnOk result (sorting.new.left ≤ sorting.old.left) }
{
    let mut place = from;
    while place < sorting.order.len() {
        let e = sorting.order[place] as usize;
        put_opened(events, sorting, e)?;
        place += 1;
    }
    Ok(place)
}

/// Appends events as far as possible, once along all events. Returns whether any was appended.
fn sweep(events: &[ChartEvent], sorting: &mut Sorting) -> Result<bool, AllocError>
    requires sorting { IsSorting events.now sorting.old }
    ensures sorting { OnOk result (IsSorting events.now sorting.new) }
    ensures put { IfOk result (λ r. OnTrue r (sorting.new.left < sorting.old.left)) }
    ensures same { IfOk result (λ r. OnFalse r (sorting.new.left ≤ sorting.old.left)) }
    ensures stuck { IfOk result (λ r. OnFalse r
        (IsStuckBelow events.now sorting.new.is_put.items (length events.now))) }
{
    let mut changed = false;
    for e in 0..events.len() {
        if put(events, sorting, e)? {
            changed = true;
        }
    }
    Ok(changed)
}

/// The sorting before its first event.
fn begun(alloc: Global, events: &[ChartEvent], lines: usize) -> Result<Sorting, AllocError>
    requires { AreReady lines events.now }
    ensures { IfOk result (IsSorting events.now) }
{
    Ok(Sorting {
        order: Vec::new(alloc),
        is_put: vec![in alloc; false; events.len()]?,
        first: vec![in alloc; 0u32; lines]?,
        unopened: vec![in alloc; 0u32; lines]?,
        left: events.len(),
    })
}

/// The sorting when it is complete or stuck.
pub(crate) fn whole_sorting(
    alloc: Global,
    events: &[ChartEvent],
    lines: usize,
) -> Result<Sorting, AllocError>
    requires { AreReady lines events.now }
    ensures sorting { IfOk result (IsSorting events.now) }
    ensures stuck { IfOk result (λ p. IsStuckBelow events.now p.is_put.items (length events.now)) }
{
    let mut sorting = begun(alloc, events, lines)?;
    let mut place = 0;
    let mut changed = true;
    while changed {
        place = follow(events, &mut sorting, place)?;
        changed = sweep(events, &mut sorting)?;
    }
    Ok(sorting)
}

/// A linear order of the events that keeps the visual order, or the least event that precedes
/// itself.
pub(crate) fn linear_order(
    alloc: Global,
    events: &[ChartEvent],
    lines: usize,
) -> Result<Vec<Event>, ChartFault>
    requires { AreReady lines events.now }
    ensures order { IfOk result (λ order. IsLinearOrder events.now order.items) }
    ensures fault { IfErr result (IsCycleOrMemory events.now) }
{
    let sorting = whole_sorting(alloc, events, lines)?;
    if sorting.left == 0 {
        return Ok(sorting.order);
    }
    // The sorting is stuck, so there is such an event.
    match least_cyclic(alloc, events, lines)? {
        Some(e) => Err(ChartFault::Cyclic(e as u32)),
        None => Ok(sorting.order),
    }
}
