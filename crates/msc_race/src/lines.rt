//! The progress of the lines of a chart in a run, and so the controlled events that may come next.

ghost use Rattle.std.specs.Prelude.{◌≡◌, ℕ, ◌+◌, ◌<◌, ◌≤◌, ◌↔◌, ◌⊎◌, false, length, IfOk, IsTrue};
ghost use Rattle.msc_chart.specs.Charts.{before, is_controlled, line};
ghost use Rattle.bit_rows.specs.Rows.{has, IsWithout};
ghost use Rattle.msc_race.specs.Rows.{IsRow};
ghost use Rattle.msc_race.specs.Choices.{event_count, IsChoice};
ghost use Rattle.msc_race.specs.Fronts.{AreFirst, HoldsLines, HoldsLinesTo, IsNextLeft, IsToOpen};
ghost use Rattle.msc_race.specs.Fronts.{IsOpenedEnd};

use crate::choosing::Choice;
use crate::rows::empty;
use bit_rows::row::{clear, full, has};
use bit_rows::set::Set;
use msc_chart::Event;
use std::alloc::{AllocError, Global};

/// The events that have not occurred, the first of them on each line, and the controlled events
/// that may come next: those before which all drawn events have occurred.
#[derive(Drop)]
pub struct Lines {
    pub left: Vec<u64>,
    pub fronts: Vec<Event>,
    pub controlled: Set,
}

/// Whether event `f` exists, and is on line `i`.
fn is_on(choice: &Choice, f: Event, i: u32) -> bool
    ensures { IsTrue result ↔ ((f < event_count choice.now)
        × (line choice.now.wiring.chart.now.events f ≡ i)) }
{
    if f >= choice.wiring.chart.events() {
        return false;
    }
    choice.wiring.chart.instance_of(f) == i
}

/// The first number from `start` on that is left or not on line `i`.
fn next_left(choice: &Choice, left: &[u64], i: u32, start: Event) -> Event
    requires row { IsRow (event_count choice.now) left.now }
    requires within { start ≤ event_count choice.now }
    ensures { IsNextLeft choice.now.wiring.chart.now.events left.now i start result }
{
    let events = choice.wiring.chart.events();
    for f in start..events {
        if choice.wiring.chart.instance_of(f) != i {
            return f;
        }
        if has(left, f) {
            return f;
        }
    }
    events
}

/// Opens the controlled events that are left from `f` up to `end`.
fn open_controlled(set: &mut Set, choice: &Choice, left: &[u64], f: Event, end: Event)
    requires row { IsRow (event_count choice.now) set.old }
    requires left_row { IsRow (event_count choice.now) left.now }
    requires within { end ≤ event_count choice.now }
    requires later { f ≤ end }
    ensures words { length set.new ≡ length set.old }
    ensures numbers { (y : ℕ) → IsTrue (has set.new y)
        ↔ (IsTrue (has set.old y) ⊎ IsToOpen choice.now.wiring.chart.now.events left.now f end y) }
{
    for y in f..end {
        set.put_where(y, choice.wiring.chart.is_controlled(y) && has(left, y));
    }
}

/// The end of the events that are opened on line `i`, whose front moves from `start` to `front`:
/// the end of the segment of `front` if that is drawn after `start`, otherwise none is opened.
fn opened_end(choice: &Choice, i: u32, start: Event, front: Event) -> Event
    requires later { start ≤ front }
    requires within { front ≤ event_count choice.now }
    ensures end { IsOpenedEnd choice.now.wiring.chart.now.events i start front result }
    ensures later { front ≤ result }
    ensures within { result ≤ event_count choice.now }
{
    if !is_on(choice, front, i) {
        return front;
    }
    if !choice.wiring.chart.before(start, front) {
        return front;
    }
    choice.wiring.chart.segment_end(front)
}

/// The first event of each line, or the number of all events for a line without events.
fn first_events(alloc: Global, choice: &Choice) -> Result<Vec<Event>, AllocError>
    requires { IsChoice choice.now }
    ensures lines { IfOk result
        (λ firsts. length firsts.items ≡ length choice.now.wiring.chart.now.instances) }
    ensures first { IfOk result (λ firsts. AreFirst choice.now.wiring.chart.now firsts.items 0) }
{
    let events = choice.wiring.chart.events();
    let mut firsts = vec![in alloc; events; choice.wiring.chart.instances() as usize]?;
    for k in 0..events {
        let x = events - 1 - k;
        firsts[choice.wiring.chart.instance_of(x) as usize] = x;
    }
    Ok(firsts)
}

impl Lines {
    /// The lines before any event is open.
    fn closed(alloc: Global, choice: &Choice) -> Result<Lines, AllocError>
        requires { IsChoice choice.now }
        ensures { IfOk result (λ l. HoldsLinesTo choice.now.wiring.chart.now l 0) }
    {
        let events = choice.wiring.chart.events();
        Ok(Lines {
            left: full(alloc, events)?,
            fronts: first_events(alloc, choice)?,
            controlled: empty(alloc, events)?,
        })
    }

    /// Opens the controlled events of line `i` before which nothing is drawn.
    fn open_line(&mut self, choice: &Choice, i: u32)
        requires settled { IsChoice choice.now }
        requires known { i < length choice.now.wiring.chart.now.instances }
        requires lines { HoldsLinesTo choice.now.wiring.chart.now self.old i }
        ensures { HoldsLinesTo choice.now.wiring.chart.now self.new (i + 1) }
    {
        let front = self.fronts[i as usize];
        if !is_on(choice, front, i) {
            return;
        }
        let end = choice.wiring.chart.segment_end(front);
        open_controlled(&mut self.controlled, choice, &self.left, front, end);
    }

    /// The lines before any event has occurred.
    #[inline(always)]
    pub fn start(alloc: Global, choice: &Choice) -> Result<Lines, AllocError>
        requires { IsChoice choice.now }
        ensures kept { IfOk result (λ l. HoldsLines choice.now.wiring.chart.now l) }
        ensures left { IfOk result
            (λ l. (y : ℕ) → IsTrue (has l.left.items y) ↔ (y < event_count choice.now)) }
    {
        let mut lines = Lines::closed(alloc, choice)?;
        for i in 0..choice.wiring.chart.instances() {
            lines.open_line(choice, i);
        }
        Ok(lines)
    }

    /// `x` occurs.
    // Called for each event of a run, from two loops: as a call it costs over a tenth of a run.
    #[inline(always)]
    pub fn occur(&mut self, choice: &Choice, x: Event)
        requires settled { IsChoice choice.now }
        requires known { x < event_count choice.now }
        requires kept { HoldsLines choice.now.wiring.chart.now self.old }
        ensures kept { HoldsLines choice.now.wiring.chart.now self.new }
        ensures without { IsWithout self.old.left.items self.new.left.items x }
    {
        let i = choice.wiring.chart.instance_of(x);
        let start = self.fronts[i as usize];
        clear(&mut self.left, x);
        self.controlled.clear(x);
        let front = next_left(choice, &self.left, i, start);
        self.fronts[i as usize] = front;
        let end = opened_end(choice, i, start, front);
        open_controlled(&mut self.controlled, choice, &self.left, front, end);
    }
}
