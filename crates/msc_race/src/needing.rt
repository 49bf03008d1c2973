//! The past of an event: the event, and all that is enforced before it; and which outputs of it
//! wait.

ghost use Rattle.std.specs.Prelude.{◌≡◌, ℕ, ◌+◌, ◌<◌, ◌≤◌, ◌↔◌, ◌⊎◌, length, IfOk, IsTrue};
ghost use Rattle.bit_rows.specs.Rows.{has};
ghost use Rattle.msc_race.specs.Choices.{event_count, wired_chart, IsChoice};
ghost use Rattle.msc_race.specs.PastEvents.{AreNexts, HasTurned, HoldsNeeds, IsNextTaken};
ghost use Rattle.msc_race.specs.PastEvents.{IsSentFor, IsTakenLeft, IsTold, IsToldTo};
ghost use Rattle.msc_race.specs.PastEvents.{IsUnheldFor, WasTold};
ghost use Rattle.msc_race.specs.Remainders.{HoldsExactly};
ghost use Rattle.msc_race.specs.Rows.{IsRow};
ghost use Rattle.msc_race.specs.Short.{IsNeeded, IsTakenFor};

use crate::choosing::Choice;
use crate::rows::empty;
use crate::spans::Spans;
use bit_rows::row::has;
use bit_rows::set::Set;
use msc_chart::Event;
use msc_chart::laws::ends_share_queues;
use std::alloc::{AllocError, Global};

/// The past of the choice's event; the events of the past that do not wait; and for each queue the
/// place of its outputs, and a number below which no output is left whose input is also of the
/// past.
#[derive(Drop)]
pub struct Needs {
    pub needed: Set,
    pub ready: Set,
    pub spans: Spans,
    pub nexts: Vec<Event>,
}

/// Whether `x` is of the past of the choice's event.
fn is_needed(choice: &Choice, x: Event) -> bool
    requires settled { IsChoice choice.now }
    requires known { x < event_count choice.now }
    ensures { IsTrue result ↔ IsNeeded (wired_chart choice.now) choice.now.e x }
{
    if x == choice.e {
        return true;
    }
    choice.order.holds(x, choice.e)
}

/// The past of the choice's event.
fn needed_set(alloc: Global, choice: &Choice) -> Result<Set, AllocError>
    requires { IsChoice choice.now }
    ensures row { IfOk result (λ set. IsRow (event_count choice.now) set) }
    ensures needed { IfOk result
        (λ set. HoldsExactly set (IsNeeded (wired_chart choice.now) choice.now.e)) }
{
    ends_share_queues();
    let events = choice.wiring.chart.events();
    let mut set = empty(alloc, events)?;
    for x in 0..events {
        set.put_where(x, is_needed(choice, x));
    }
    Ok(set)
}

/// Whether `x` is an output of the past whose input is also of the past.
fn is_taken(choice: &Choice, needed: &[u64], x: Event) -> bool
    requires settled { IsChoice choice.now }
    requires known { x < event_count choice.now }
    requires row { IsRow (event_count choice.now) needed.now }
    requires needed { HoldsExactly needed.now (IsNeeded (wired_chart choice.now) choice.now.e) }
    ensures { IsTrue result ↔ IsTakenFor (wired_chart choice.now) choice.now.e x }
{
    if !choice.wiring.chart.is_output(x) {
        return false;
    }
    has(needed, x) && has(needed, choice.wiring.chart.other_end(x))
}

/// Whether `x` is of the past, and no output whose input is not.
fn is_unheld(choice: &Choice, needed: &[u64], x: Event) -> bool
    requires settled { IsChoice choice.now }
    requires known { x < event_count choice.now }
    requires row { IsRow (event_count choice.now) needed.now }
    requires needed { HoldsExactly needed.now (IsNeeded (wired_chart choice.now) choice.now.e) }
    ensures { IsTrue result ↔ IsUnheldFor (wired_chart choice.now) choice.now.e x }
{
    if !choice.wiring.chart.is_output(x) {
        return has(needed, x);
    }
    is_taken(choice, needed, x)
}

/// Whether `x` is an output of the past to queue `q`.
fn is_sent(choice: &Choice, needed: &[u64], q: u32, x: Event) -> bool
    requires settled { IsChoice choice.now }
    requires known { x < event_count choice.now }
    requires row { IsRow (event_count choice.now) needed.now }
    requires needed { HoldsExactly needed.now (IsNeeded (wired_chart choice.now) choice.now.e) }
    ensures { IsTrue result ↔ IsSentFor (wired_chart choice.now) choice.now.e q x }
{
    if !choice.wiring.chart.is_output(x) {
        return false;
    }
    choice.wiring.queue(x) == q && has(needed, x)
}

/// The events of the past without its held outputs.
fn unheld_set(alloc: Global, choice: &Choice, needed: &[u64]) -> Result<Set, AllocError>
    requires settled { IsChoice choice.now }
    requires row { IsRow (event_count choice.now) needed.now }
    requires needed { HoldsExactly needed.now (IsNeeded (wired_chart choice.now) choice.now.e) }
    ensures row { IfOk result (λ set. IsRow (event_count choice.now) set) }
    ensures unheld { IfOk result
        (λ set. HoldsExactly set (IsUnheldFor (wired_chart choice.now) choice.now.e)) }
{
    ends_share_queues();
    let events = choice.wiring.chart.events();
    let mut set = empty(alloc, events)?;
    for x in 0..events {
        set.put_where(x, is_unheld(choice, needed, x));
    }
    Ok(set)
}

impl Needs {
    /// The past, while its held outputs wait.
    fn untold(alloc: Global, choice: &Choice, left: &[u64]) -> Result<Needs, AllocError>
        requires { IsChoice choice.now }
        ensures { IfOk result (λ needs. IsToldTo choice.now needs left.now 0) }
    {
        let needed = needed_set(alloc, choice)?;
        let spans = Spans::of(alloc, choice)?;
        Ok(Needs {
            ready: unheld_set(alloc, choice, needed.words())?,
            needed,
            nexts: Vec::from_slice(alloc, spans.firsts.as_slice())?,
            spans,
        })
    }

    /// Whether `y` is an output of queue `q` that is left, and whose input is also of the past.
    fn is_taken_left(&self, choice: &Choice, left: &[u64], q: u32, y: Event) -> bool
        requires settled { IsChoice choice.now }
        requires known { y < event_count choice.now }
        requires row { IsRow (event_count choice.now) left.now }
        requires holds { HoldsNeeds choice.now self.now }
        ensures { IsTrue result ↔ IsTakenLeft (wired_chart choice.now) choice.now.e left.now q y }
    {
        if !is_taken(choice, self.needed.words(), y) {
            return false;
        }
        choice.wiring.queue(y) == q && has(left, y)
    }

    /// The least output of queue `q` that is left, and whose input is also of the past, or the
    /// number of events.
    fn next_taken(&self, choice: &Choice, left: &[u64], q: u32) -> Event
        requires settled { IsChoice choice.now }
        requires row { IsRow (event_count choice.now) left.now }
        requires holds { HoldsNeeds choice.now self.now }
        requires nexts { AreNexts (wired_chart choice.now) choice.now.e left.now
            self.now.nexts.items }
        requires queue { q < length self.now.spans.firsts.items }
        ensures { IsNextTaken (wired_chart choice.now) choice.now.e left.now q result }
    {
        for y in self.nexts[q as usize]..self.spans.ends[q as usize] {
            if self.is_taken_left(choice, left, q, y) {
                return y;
            }
        }
        choice.wiring.chart.events()
    }

    /// Lets the outputs of queue `q` come.
    fn release(&mut self, choice: &Choice, q: u32)
        requires settled { IsChoice choice.now }
        requires holds { HoldsNeeds choice.now self.old }
        requires queue { q < length self.old.spans.firsts.items }
        ensures holds { HoldsNeeds choice.now self.new }
        ensures spans { self.new.spans ≡ self.old.spans }
        ensures nexts { self.new.nexts ≡ self.old.nexts }
        ensures ready { (y : ℕ) → IsTrue (has self.new.ready y) ↔ (IsTrue (has self.old.ready y)
            ⊎ IsSentFor (wired_chart choice.now) choice.now.e q y) }
    {
        for y in self.spans.firsts[q as usize]..self.spans.ends[q as usize] {
            let sent = is_sent(choice, self.needed.words(), q, y);
            self.ready.put_where(y, sent);
        }
    }

    /// Turns to queue `q`: if no output of it is left whose input is also of the past, its outputs
    /// no longer wait.
    fn turn(&mut self, choice: &Choice, left: &[u64], q: u32)
        requires settled { IsChoice choice.now }
        requires row { IsRow (event_count choice.now) left.now }
        requires holds { HoldsNeeds choice.now self.old }
        requires nexts { AreNexts (wired_chart choice.now) choice.now.e left.now
            self.old.nexts.items }
        requires queue { q < length self.old.spans.firsts.items }
        ensures holds { HoldsNeeds choice.now self.new }
        ensures spans { self.new.spans ≡ self.old.spans }
        ensures nexts { AreNexts (wired_chart choice.now) choice.now.e left.now
            self.new.nexts.items }
        ensures ready { HasTurned (wired_chart choice.now) choice.now.e left.now q
            self.old.ready self.new.ready }
    {
        let next = self.next_taken(choice, left, q);
        self.nexts[q as usize] = next;
        if next == choice.wiring.chart.events() {
            self.release(choice, q);
        }
    }

    /// The past, if these events are left.
    pub fn start(alloc: Global, choice: &Choice, left: &[u64]) -> Result<Needs, AllocError>
        requires settled { IsChoice choice.now }
        requires row { IsRow (event_count choice.now) left.now }
        ensures { IfOk result (λ needs. IsTold choice.now needs left.now) }
    {
        let mut needs = Needs::untold(alloc, choice, left)?;
        for q in 0..needs.nexts.len() as u32 {
            needs.turn(choice, left, q);
        }
        Ok(needs)
    }

    /// `x` occurs: these events are left.
    pub fn occur(&mut self, choice: &Choice, left: &[u64], x: Event)
        requires settled { IsChoice choice.now }
        requires row { IsRow (event_count choice.now) left.now }
        requires known { x < event_count choice.now }
        requires told { WasTold choice.now self.old left.now x }
        ensures { IsTold choice.now self.new left.now }
    {
        if is_taken(choice, self.needed.words(), x) {
            self.turn(choice, left, choice.wiring.queue(x));
        }
    }
}
