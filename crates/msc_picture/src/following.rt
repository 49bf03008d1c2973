//! The event that may follow what is drawn.

ghost use Rattle.std.specs.Prelude.{◌≡◌, ◌<◌, ◌++◌, ◌∷◌, [], ◌↔◌, IsTrue, length};
ghost use Rattle.msc_chart.specs.Charts.{is_output, partner};
ghost use Rattle.msc_picture.specs.Courses.{IsLaid, frame_of};
ghost use Rattle.msc_picture.specs.Drawn.{Holds, IsClear, holds_up, is_queued_up, lacks_output};
ghost use Rattle.msc_picture.specs.Frames.{Fits, MayFollow};
ghost use Rattle.msc_picture.specs.Ready.{IsFree, MayLevel, MayRest, MaySend};

use crate::drawn::Drawn;
use crate::frame::Framed;
use crate::rule::Rule;
use msc_chart::Event;

impl Drawn {
    /// Whether event `x` blocks event `e`, and is not drawn.
    fn holds_up(&self, f: &Framed, x: Event, e: Event) -> bool
        requires laid { IsLaid f.now }
        requires held { Holds f.now self.now }
        requires x_known { x < length f.now.chart.now.events }
        requires e_known { e < length f.now.chart.now.events }
        ensures { result ≡ holds_up (frame_of f.now) self.now.past.items x e }
    {
        f.blocks(x, e) && !self.is_done(f, x)
    }

    /// Whether event `e` waits for the output before it in its queue.
    fn is_queued_up(&self, f: &Framed, e: Event) -> bool
        requires laid { IsLaid f.now }
        requires held { Holds f.now self.now }
        requires known { e < length f.now.chart.now.events }
        ensures { result ≡ is_queued_up (frame_of f.now) self.now.past.items e }
    {
        match f.after.get(e as usize) {
            Some(Some(x)) => *x < f.chart.events() && self.holds_up(f, *x, e),
            _ => false,
        }
    }

    /// Whether event `e` is an input whose output is not drawn.
    fn lacks_output(&self, f: &Framed, e: Event) -> bool
        requires held { Holds f.now self.now }
        requires known { e < length f.now.chart.now.events }
        ensures { result ≡ lacks_output (frame_of f.now) self.now.past.items e }
    {
        let other = f.chart.other_end(e);
        f.is_sent_as(other, e) && !self.is_done(f, other)
    }

    /// Whether each event that blocks event `e` is drawn.
    fn is_clear(&self, f: &Framed, e: Event) -> bool
        requires laid { IsLaid f.now }
        requires held { Holds f.now self.now }
        requires known { e < length f.now.chart.now.events }
        ensures { IsTrue result ↔ IsClear (frame_of f.now) self.now.past.items e }
    {
        if self.is_queued_up(f, e) {
            return false;
        }
        self.is_open(f, e)
    }

    /// Whether event `e` may follow: it is not drawn, its output is drawn, if it has one, and
    /// nothing else blocks it.
    pub fn may_follow(&self, f: &Framed, e: Event) -> bool
        requires laid { IsLaid f.now }
        requires held { Holds f.now self.now }
        requires known { e < length f.now.chart.now.events }
        ensures { IsTrue result ↔ MayFollow (frame_of f.now) self.now.past.items e }
    {
        f.chart.facts();
        if self.is_done(f, e) {
            return false;
        }
        if self.lacks_output(f, e) {
            return false;
        }
        self.is_clear(f, e)
    }

    /// Whether the input of output `s` may come directly after it.
    fn may_be_taken(&self, f: &Framed, s: Event) -> bool
        requires laid { IsLaid f.now }
        requires held { Holds f.now self.now }
        requires known { s < length f.now.chart.now.events }
        requires output { IsTrue (is_output f.now.chart.now.events s) }
        ensures { IsTrue result ↔ MayFollow (frame_of f.now) (self.now.past.items ++ s ∷ [])
            (partner f.now.chart.now.events s) }
    {
        f.chart.facts();
        let other = f.chart.other_end(s);
        if self.is_done(f, other) {
            return false;
        }
        self.is_clear(f, other)
    }

    /// Whether event `e` fits a rule.
    pub fn fits(&self, f: &Framed, rule: Rule, e: Event) -> bool
        requires laid { IsLaid f.now }
        requires held { Holds f.now self.now }
        requires known { e < length f.now.chart.now.events }
        ensures { IsTrue result ↔ Fits (frame_of f.now) self.now.past.items rule e }
    {
        if !self.may_follow(f, e) {
            return false;
        }
        match rule {
            Rule::Answer => self.answers(f, e),
            Rule::Rest => !f.chart.is_output(e),
            Rule::Level => f.chart.is_output(e) && self.may_be_taken(f, e),
            Rule::Send => f.chart.is_output(e),
        }
    }

    /// Whether event `e` is left, and all events above it are drawn.
    fn is_free(&self, f: &Framed, e: Event) -> bool
        requires laid { IsLaid f.now }
        requires held { Holds f.now self.now }
        requires known { e < length f.now.chart.now.events }
        ensures { IsTrue result ↔ IsFree (frame_of f.now) self.now.past.items e }
    {
        if self.is_done(f, e) {
            return false;
        }
        self.is_open(f, e)
    }

    /// Whether event `e` is an input or an action that is left, and all events above it and its
    /// output are drawn.
    pub fn may_rest(&self, f: &Framed, e: Event) -> bool
        requires laid { IsLaid f.now }
        requires held { Holds f.now self.now }
        requires known { e < length f.now.chart.now.events }
        ensures { IsTrue result ↔ MayRest (frame_of f.now) self.now.past.items e }
    {
        if f.chart.is_output(e) {
            return false;
        }
        if self.lacks_output(f, e) {
            return false;
        }
        self.is_free(f, e)
    }

    /// Whether event `e` is an output that is left, and all events above it are drawn.
    pub fn may_send(&self, f: &Framed, e: Event) -> bool
        requires laid { IsLaid f.now }
        requires held { Holds f.now self.now }
        requires known { e < length f.now.chart.now.events }
        ensures { IsTrue result ↔ MaySend (frame_of f.now) self.now.past.items e }
    {
        if !f.chart.is_output(e) {
            return false;
        }
        self.is_free(f, e)
    }

    /// Whether event `e` is such an output, and all events above its input are drawn too.
    pub fn may_level(&self, f: &Framed, e: Event) -> bool
        requires laid { IsLaid f.now }
        requires held { Holds f.now self.now }
        requires known { e < length f.now.chart.now.events }
        ensures { IsTrue result ↔ MayLevel (frame_of f.now) self.now.past.items e }
    {
        if !self.may_send(f, e) {
            return false;
        }
        self.is_open(f, f.chart.other_end(e))
    }
}
