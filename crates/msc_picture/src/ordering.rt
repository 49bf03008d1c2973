//! The order in which events are drawn.
//!
//! The next event is searched among the listed events, and each event is listed once. So the work
//! for an event does not grow with the number of events.

ghost use Rattle.std.specs.Prelude.{◌≡◌, ℕ, ◌++◌, ◌∷◌, [], IfNone, IfOk, IfSome, OnOk};
ghost use Rattle.std.specs.Prelude.{option_copied};
ghost use Rattle.msc_chart.specs.Charts.{IsLinearOrder};
ghost use Rattle.msc_chart.specs.Lists.{IsLeast};
ghost use Rattle.msc_picture.specs.Courses.{IsLaid, frame_of, ranks_of};
ghost use Rattle.msc_picture.specs.Drawn.{HoldsDrawn};
ghost use Rattle.msc_picture.specs.Frames.{Fits, HasNone, IsDrawingOrder, IsDrawnNext, MayFollow};
ghost use Rattle.msc_picture.specs.Frames.{chart_frame};
ghost use Rattle.msc_picture.specs.declared.rule.Rule.TheVariants.{Answer};
ghost use Rattle.msc_picture.specs.Ready.{HoldsDrawing};

use crate::drawn::Drawn;
use crate::frame::{Framed, frame_chart};
use crate::ready::Ready;
use crate::rule::Rule;
use crate::searching::least;
use msc_chart::{Chart, Event};
use std::alloc::{AllocError, Global};

/// The events that are drawn so far, and those that may come next.
#[derive(Drop)]
pub(crate) struct Drawing {
    pub drawn: Drawn,
    pub ready: Ready,
}

impl Drawing {
    /// No event is drawn yet.
    fn start(alloc: Global, f: &Framed) -> Result<Drawing, AllocError>
        requires { IsLaid f.now }
        ensures { IfOk result (λ d. HoldsDrawing f.now d) }
    {
        let drawn = Drawn::start(alloc, f)?;
        let ready = Ready::start(alloc, &drawn, f)?;
        Ok(Drawing { drawn, ready })
    }

    /// The input of the last event, if it may follow.
    fn answer(&self, f: &Framed) -> Option<Event>
        requires laid { IsLaid f.now }
        requires held { HoldsDrawing f.now self.now }
        ensures some { IfSome result
            (IsLeast (Fits (frame_of f.now) self.now.drawn.past.items Answer)) }
        ensures none { IfNone result
            (HasNone (frame_of f.now) self.now.drawn.past.items Answer) }
    {
        f.chart.facts();
        let s = self.drawn.last()?;
        let e = f.chart.other_end(s);
        if self.drawn.fits(f, Rule::Answer, e) {
            return Some(e);
        }
        None
    }

    /// The event that is drawn next.
    fn next(&self, f: &Framed) -> Option<Event>
        requires laid { IsLaid f.now }
        requires held { HoldsDrawing f.now self.now }
        ensures some { IfSome result
            (IsDrawnNext (frame_of f.now) (ranks_of f.now) self.now.drawn.past.items) }
        ensures none { IfNone result
            ((e : ℕ) → MayFollow (frame_of f.now) self.now.drawn.past.items e → ⊥) }
    {
        f.chart.facts();
        if let Some(e) = self.answer(f) {
            return Some(e);
        }
        if let Some(ranks) = f.ranks {
            return self.earliest(f, ranks);
        }
        if let Some(e) = least(&self.drawn, f, Rule::Rest, self.ready.rests()) {
            return Some(e);
        }
        if let Some(e) = least(&self.drawn, f, Rule::Level, self.ready.levels()) {
            return Some(e);
        }
        least(&self.drawn, f, Rule::Send, self.ready.sends())
    }

    /// Draws event `e`.
    fn draw(&mut self, f: &Framed, e: Event) -> Result<(), AllocError>
        requires laid { IsLaid f.now }
        requires held { HoldsDrawing f.now self.old }
        requires next { IsDrawnNext (frame_of f.now) (ranks_of f.now)
            self.old.drawn.past.items e }
        ensures held { OnOk result (HoldsDrawing f.now self.new) }
        ensures past { OnOk result
            (self.new.drawn.past.items ≡ self.old.drawn.past.items ++ e ∷ []) }
    {
        // The next event to be drawn is an event of the chart.
        let _chart = f.chart;
        self.drawn.draw(f, e)?;
        self.ready.go_on(&self.drawn, f, e);
        Ok(())
    }
}

/// The drawing order of a frame: the rules choose each next event, until none may follow.
pub(crate) fn draw_all(alloc: Global, f: &Framed) -> Result<Drawn, AllocError>
    requires { IsLaid f.now }
    ensures held { IfOk result (λ d. HoldsDrawn f.now d) }
    ensures end { IfOk result (λ d. (e : ℕ) → MayFollow (frame_of f.now) d.past.items e → ⊥) }
{
    let mut drawing = Drawing::start(alloc, f)?;
    while let Some(e) = drawing.next(f) {
        drawing.draw(f, e)?;
    }
    Ok(drawing.drawn)
}

/// The drawing order of a chart. If `ranks` are given, they have a number for each event, and of
/// the events that may come next the one with the least number is drawn, or of several such events
/// the first; only the input of the last event precedes it. An error is a growth of memory that was
/// refused.
pub fn drawing_order(
    alloc: Global,
    chart: &Chart,
    ranks: Option<&[usize]>,
) -> Result<Vec<Event>, AllocError>
    ensures rules { IfOk result (λ order.
        IsDrawingOrder (chart_frame chart.now.events) (option_copied ranks.entry) order.items) }

    // All that visibly precedes an event is drawn before it.
    ensures linear { IfOk result (λ order. IsLinearOrder chart.now.events order.items) }
{
    // A chart's linear order has all its events, so the drawing order has them too.
    let _order = chart.linear_order();
    let f = frame_chart(alloc, chart, ranks)?;
    let drawn = draw_all(alloc, &f)?;
    Ok(drawn.past)
}
