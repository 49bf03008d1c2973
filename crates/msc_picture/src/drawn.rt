//! The part of a picture that is drawn, and the progress of each line.
//!
//! Along the course of a frame each line is drawn mostly from above. So for each line the code
//! keeps the first two places with an event of it that is left. They only grow, and show for each
//! event whether all events above it are drawn.

ghost use Rattle.std.specs.Prelude.{◌≡◌, ◌<◌, ◌++◌, ◌∷◌, [], ◌↔◌, IfOk, IsTrue, OnOk, ℕ, get_or};
ghost use Rattle.std.specs.Prelude.{length};
ghost use Rattle.msc_chart.specs.Charts.{line};
ghost use Rattle.msc_chart.specs.Lists.{occurs};
ghost use Rattle.msc_picture.specs.Courses.{IsFirstOther, IsLaid, IsNextLeft, IsOpen, frame_of};
ghost use Rattle.msc_picture.specs.Courses.{ranks_of};
ghost use Rattle.msc_picture.specs.Drawn.{Holds, HoldsBehind, HoldsDrawn, HoldsLine};
ghost use Rattle.msc_picture.specs.Frames.{IsDrawnNext, answers, last_of};

use crate::frame::Framed;
use msc_chart::Event;
use std::alloc::{AllocError, Global};

/// The part that is drawn so far: the events in their order and the last of them, for each event
/// whether it is drawn, and for each line the first two places of the course with an event of it
/// that is left.
#[derive(Drop)]
pub(crate) struct Drawn {
    pub past: Vec<Event>,
    last: Option<Event>,
    done: Vec<bool>,
    firsts: Vec<usize>,
    seconds: Vec<usize>,
}

impl Drawn {
    /// No event is drawn yet, and the first events of each line are not known.
    fn blank(alloc: Global, f: &Framed) -> Result<Drawn, AllocError>
        ensures drawn { IfOk result (λ d. HoldsDrawn f.now d) }
        ensures behind { IfOk result (λ d. HoldsBehind f.now d) }
    {
        f.chart.facts();
        let (many, lines) = (f.chart.events() as usize, f.chart.instances() as usize);
        Ok(Drawn {
            past: Vec::new(alloc),
            last: None,
            done: vec![in alloc; false; many]?,
            firsts: vec![in alloc; 0; lines]?,
            seconds: vec![in alloc; 0; lines]?,
        })
    }

    /// No event is drawn yet.
    pub fn start(alloc: Global, f: &Framed) -> Result<Drawn, AllocError>
        requires { IsLaid f.now }
        ensures { IfOk result (λ d. Holds f.now d) }
    {
        let mut drawn = Drawn::blank(alloc, f)?;
        for i in 0..f.chart.instances() {
            drawn.advance(f, i);
        }
        Ok(drawn)
    }

    /// Whether event `e` is drawn.
    pub fn is_done(&self, f: &Framed, e: Event) -> bool
        requires held { HoldsDrawn f.now self.now }
        requires known { e < length f.now.chart.now.events }
        ensures { result ≡ occurs self.now.past.items e }
    {
        // A look at the chart makes the facts on its events known.
        let _chart = f.chart;
        self.done[e as usize]
    }

    /// The first place of the course from `p` on with an event of line `i` that is left.
    fn next_left(&self, f: &Framed, i: u32, p: usize) -> usize
        requires laid { IsLaid f.now }
        requires held { HoldsDrawn f.now self.now }
        ensures { IsNextLeft (frame_of f.now) f.now.course.items self.now.past.items i p result }
    {
        let many = f.course.len();
        if p >= many {
            return many;
        }
        for q in p..many {
            let e = f.course[q];
            if f.chart.instance_of(e) == i && !self.is_done(f, e) {
                return q;
            }
        }
        many
    }

    /// Advances to the first two events of line `i` that are left.
    fn advance(&mut self, f: &Framed, i: u32)
        requires laid { IsLaid f.now }
        requires held { HoldsDrawn f.now self.old }
        requires behind { HoldsBehind f.now self.old }
        requires known { i < length f.now.chart.now.instances }
        ensures held { HoldsDrawn f.now self.new }
        ensures behind { HoldsBehind f.now self.new }
        ensures reached { HoldsLine f.now self.new i }
        ensures others { (j : ℕ) → (j ≡ i → ⊥) → HoldsLine f.now self.old j
            → HoldsLine f.now self.new j }
        ensures past { self.new.past.items ≡ self.old.past.items }
    {
        let line = i as usize;
        let first = self.next_left(f, i, self.firsts[line]);
        let second = self.next_left(f, i, self.seconds[line].max(first + 1));
        self.firsts[line] = first;
        self.seconds[line] = second;
    }

    /// Bars event `e` as drawn, without the progress of its line.
    fn push(&mut self, f: &Framed, e: Event) -> Result<(), AllocError>
        requires held { Holds f.now self.old }
        requires next { IsDrawnNext (frame_of f.now) (ranks_of f.now) self.old.past.items e }
        ensures held { OnOk result (HoldsDrawn f.now self.new) }
        ensures behind { OnOk result (HoldsBehind f.now self.new) }
        ensures others { OnOk result ((j : ℕ) → j < length f.now.chart.now.instances
            → (j ≡ line f.now.chart.now.events e → ⊥) → HoldsLine f.now self.new j) }
        ensures past { OnOk result (self.new.past.items ≡ self.old.past.items ++ e ∷ []) }
    {
        // The next event to be drawn is an event of the chart.
        let _chart = f.chart;
        self.past.push(e)?;
        self.last = Some(e);
        self.done[e as usize] = true;
        Ok(())
    }

    /// Draws event `e`.
    pub fn draw(&mut self, f: &Framed, e: Event) -> Result<(), AllocError>
        requires laid { IsLaid f.now }
        requires held { Holds f.now self.old }
        requires next { IsDrawnNext (frame_of f.now) (ranks_of f.now) self.old.past.items e }
        ensures held { OnOk result (Holds f.now self.new) }
        ensures past { OnOk result (self.new.past.items ≡ self.old.past.items ++ e ∷ []) }
    {
        f.chart.facts();
        self.push(f, e)?;
        self.advance(f, f.chart.instance_of(e));
        Ok(())
    }

    /// The first place of the course with an event of line `i` that is left, or one past it.
    pub fn first(&self, i: u32) -> usize
        requires { i < length self.now.firsts.items }
        ensures { result ≡ get_or self.now.firsts.items i 0 }
    {
        self.firsts[i as usize]
    }

    /// The place of the first event that is left on the line of event `e` and is not its output, or
    /// a place past the course.
    fn first_other(&self, f: &Framed, e: Event) -> usize
        requires laid { IsLaid f.now }
        requires held { Holds f.now self.now }
        requires known { e < length f.now.chart.now.events }
        ensures { IsFirstOther (frame_of f.now) f.now.course.items self.now.past.items e result }
    {
        f.chart.facts();
        let line = f.chart.instance_of(e) as usize;
        let first = self.firsts[line];
        if first >= f.course.len() {
            return first;
        }
        if f.is_sent_as(f.course[first], e) {
            return self.seconds[line];
        }
        first
    }

    /// Whether all events above event `e` are drawn.
    pub fn is_open(&self, f: &Framed, e: Event) -> bool
        requires laid { IsLaid f.now }
        requires held { Holds f.now self.now }
        requires known { e < length f.now.chart.now.events }
        ensures { IsTrue result ↔ IsOpen (frame_of f.now) self.now.past.items e }
    {
        let p = self.first_other(f, e);
        if p >= f.course.len() {
            return true;
        }
        !f.is_above(f.course[p], e)
    }

    /// Whether event `e` is the input of the last event.
    pub fn answers(&self, f: &Framed, e: Event) -> bool
        requires held { HoldsDrawn f.now self.now }
        ensures { result ≡ answers (frame_of f.now) (last_of self.now.past.items) e }
    {
        match self.last {
            Some(s) => f.is_sent_as(s, e),
            None => false,
        }
    }

    /// The last event.
    pub fn last(&self) -> Option<Event>
        ensures { result ≡ self.now.last }
    {
        self.last
    }
}
