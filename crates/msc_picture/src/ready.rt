//! The candidates for the next event.
//!
//! An event is listed once all events above it on its line are drawn. So each event is listed once,
//! and the search for the next event visits listed events only.

ghost use Rattle.std.specs.Prelude.{◌≡◌, ◌*◌, ◌<◌, ℕ, IfOk, length};
ghost use Rattle.bit_rows.specs.Rows.{IsWith};
ghost use Rattle.msc_chart.specs.Charts.{partner};
ghost use Rattle.msc_picture.specs.Courses.{IsLaid, frame_of, ranks_of};
ghost use Rattle.msc_picture.specs.Drawn.{Holds};
ghost use Rattle.msc_picture.specs.Ready.{AreListed, HasRoom, IsFromListed, IsLastDrawn};
ghost use Rattle.msc_picture.specs.Ready.{IsLevelListed, IsListed, Keeps, KeepsBut};

use crate::drawn::Drawn;
use crate::frame::Framed;
use bit_rows::row;
use msc_chart::Event;
use std::alloc::{AllocError, Global};

/// Rows of bits: the inputs and actions that may come next by the progress of their lines, the
/// outputs that may, and the outputs among them whose inputs may come directly after them.
#[derive(Drop)]
pub(crate) struct Ready {
    rests: Vec<u64>,
    sends: Vec<u64>,
    levels: Vec<u64>,
}

/// Puts event `e` into a row, if `wanted`.
fn put_where(row: &mut Vec<u64>, e: Event, wanted: bool)
    requires { e < 64 * length row.old.items }
    ensures put { IsWith row.old.items row.new.items wanted e }
    ensures words { length row.new.items ≡ length row.old.items }
{
    if wanted {
        row::put(row, e);
    }
}

impl Ready {
    /// No event, with room for those below `n`.
    fn blank(alloc: Global, n: u32) -> Result<Ready, AllocError>
        ensures room { IfOk result (λ r. HasRoom n r) }
    {
        Ok(Ready {
            rests: row::blank(alloc, n)?,
            sends: row::blank(alloc, n)?,
            levels: row::blank(alloc, n)?,
        })
    }

    /// Lists event `e` in each row in which it may come next.
    fn list(&mut self, d: &Drawn, f: &Framed, e: Event)
        requires laid { IsLaid f.now }
        requires held { Holds f.now d.now }
        requires known { e < length f.now.chart.now.events }
        requires room { HasRoom (length f.now.chart.now.events) self.old }
        ensures room { HasRoom (length f.now.chart.now.events) self.new }
        ensures kept { Keeps self.old self.new }
        ensures listed { IsListed (frame_of f.now) d.now.past.items self.new e }
    {
        put_where(&mut self.rests, e, d.may_rest(f, e));
        put_where(&mut self.sends, e, d.may_send(f, e));
        put_where(&mut self.levels, e, d.may_level(f, e));
    }

    /// Lists the other end of the message of event `e`.
    fn list_other(&mut self, d: &Drawn, f: &Framed, e: Event)
        requires laid { IsLaid f.now }
        requires held { Holds f.now d.now }
        requires known { e < length f.now.chart.now.events }
        requires room { HasRoom (length f.now.chart.now.events) self.old }
        ensures room { HasRoom (length f.now.chart.now.events) self.new }
        ensures kept { Keeps self.old self.new }
        ensures listed { IsListed (frame_of f.now) d.now.past.items self.new
            (partner f.now.chart.now.events e) }
    {
        self.list(d, f, f.chart.other_end(e));
    }

    /// Lists the events of the level at place `p` of the course, and the other ends of their
    /// messages.
    fn list_level(&mut self, d: &Drawn, f: &Framed, p: usize)
        requires laid { IsLaid f.now }
        requires held { Holds f.now d.now }
        requires within { p < length f.now.course.items }
        requires room { HasRoom (length f.now.chart.now.events) self.old }
        ensures room { HasRoom (length f.now.chart.now.events) self.new }
        ensures kept { Keeps self.old self.new }
        ensures listed { IsLevelListed (frame_of f.now) f.now.course.items d.now.past.items self.new
            p (length f.now.course.items) }
    {
        let x = f.course[p];
        for q in p..f.course.len() {
            let y = f.course[q];
            if !f.share_level(x, y) {
                return;
            }
            self.list(d, f, y);
            self.list_other(d, f, y);
        }
    }

    /// Lists the event at place `p` of the course, and its whole level if event `e` is above it.
    fn list_from(&mut self, d: &Drawn, f: &Framed, e: Event, p: usize)
        requires laid { IsLaid f.now }
        requires held { Holds f.now d.now }
        requires known { e < length f.now.chart.now.events }
        requires room { HasRoom (length f.now.chart.now.events) self.old }
        ensures room { HasRoom (length f.now.chart.now.events) self.new }
        ensures kept { Keeps self.old self.new }
        ensures listed { IsFromListed (frame_of f.now) f.now.course.items d.now.past.items self.new
            e p }
    {
        if p >= f.course.len() {
            return;
        }
        let x = f.course[p];
        self.list(d, f, x);
        if f.is_above(e, x) {
            self.list_level(d, f, p);
        }
    }

    /// Takes event `e` out.
    fn take_out(&mut self, e: Event)
        requires room { e < 64 * length self.old.rests.items }
        requires sends { e < 64 * length self.old.sends.items }
        requires levels { e < 64 * length self.old.levels.items }
        ensures kept { KeepsBut e self.old self.new }
        ensures room { (n : ℕ) → HasRoom n self.old → HasRoom n self.new }
    {
        row::clear(&mut self.rests, e);
        row::clear(&mut self.sends, e);
        row::clear(&mut self.levels, e);
    }

    /// All events that may come next before any event is drawn.
    pub fn start(alloc: Global, d: &Drawn, f: &Framed) -> Result<Ready, AllocError>
        requires laid { IsLaid f.now }
        requires held { Holds f.now d.now }
        ensures room { IfOk result (λ r. HasRoom (length f.now.chart.now.events) r) }
        ensures listed { IfOk result (λ r. AreListed (frame_of f.now) d.now.past.items r) }
    {
        let many = f.chart.events();
        let mut ready = Ready::blank(alloc, many)?;
        for e in 0..many {
            ready.list(d, f, e);
        }
        Ok(ready)
    }

    /// Updates the candidates after event `e`, the last one that was drawn.
    pub fn go_on(&mut self, d: &Drawn, f: &Framed, e: Event)
        requires laid { IsLaid f.now }
        requires held { Holds f.now d.now }
        requires known { e < length f.now.chart.now.events }
        requires room { HasRoom (length f.now.chart.now.events) self.old }
        requires last { IsLastDrawn (frame_of f.now) (ranks_of f.now) d.now.past.items self.old
            e }
        ensures room { HasRoom (length f.now.chart.now.events) self.new }
        ensures listed { AreListed (frame_of f.now) d.now.past.items self.new }
    {
        f.chart.facts();
        self.take_out(e);
        self.list_other(d, f, e);
        self.list_from(d, f, e, d.first(f.chart.instance_of(e)));
    }

    /// The inputs and actions that may come next by the progress of their lines.
    pub fn rests(&self) -> &[u64]
        ensures { result.now ≡ self.now.rests.items }
    {
        &self.rests
    }

    /// The outputs that may come next by the progress of their lines.
    pub fn sends(&self) -> &[u64]
        ensures { result.now ≡ self.now.sends.items }
    {
        &self.sends
    }

    /// The outputs among them whose inputs may come directly after them.
    pub fn levels(&self) -> &[u64]
        ensures { result.now ≡ self.now.levels.items }
    {
        &self.levels
    }
}
