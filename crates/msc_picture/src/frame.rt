//! A chart as it is drawn: which of its events have to be drawn before which.

ghost use Rattle.std.specs.Prelude.{◌≡◌, ◌<◌, ◌↔◌, IfOk, IsTrue, length, map, option_copied};
ghost use Rattle.std.specs.Prelude.{vec_len};
ghost use Rattle.std.specs.List.{range_with_len};
ghost use Rattle.msc_chart.specs.Charts.{segment};
ghost use Rattle.msc_picture.specs.Courses.{IsLaid, ShareLevel, frame_of, ranks_of};
ghost use Rattle.msc_picture.specs.Drawn.{blocks};
ghost use Rattle.msc_picture.specs.Frames.{chart_frame, is_above, is_queued_before, is_sent_as};

use msc_chart::{Chart, Event};
use std::alloc::{AllocError, Global};

/// A chart with the level of each event on its line, and for some outputs the output of the same
/// queue that is drawn before it. The course has all events, the events of a line by their levels.
/// If ranks are given, they choose among the events that may come next. Its calls take no memory.
#[derive(Drop)]
pub struct Framed<'a> {
    pub chart: &'a Chart,
    pub levels: Vec<usize>,
    pub after: Vec<Option<Event>>,
    pub course: Vec<Event>,
    pub ranks: Option<&'a [usize]>,
}

impl Framed<'_> {
    /// Whether event `x` is drawn above event `y`, on the same line.
    pub fn is_above(&self, x: Event, y: Event) -> bool
        requires long { vec_len self.now.levels ≡ length self.now.chart.now.events }
        requires x_known { x < length self.now.chart.now.events }
        requires y_known { y < length self.now.chart.now.events }
        ensures { result ≡ is_above (frame_of self.now) x y }
    {
        self.chart.instance_of(x) == self.chart.instance_of(y)
            && self.levels[x as usize] < self.levels[y as usize]
    }

    /// Whether events `x` and `y` are on one level of one line.
    pub fn share_level(&self, x: Event, y: Event) -> bool
        requires long { vec_len self.now.levels ≡ length self.now.chart.now.events }
        requires x_known { x < length self.now.chart.now.events }
        requires y_known { y < length self.now.chart.now.events }
        ensures { IsTrue result ↔ ShareLevel (frame_of self.now) x y }
    {
        self.chart.instance_of(x) == self.chart.instance_of(y)
            && self.levels[x as usize] == self.levels[y as usize]
    }

    /// Whether event `x` is the output before output `y` in a queue.
    fn is_queued_before(&self, x: Event, y: Event) -> bool
        ensures { result ≡ is_queued_before (frame_of self.now) x y }
    {
        match self.after.get(y as usize) {
            Some(Some(before)) => *before == x,
            _ => false,
        }
    }

    /// Whether event `x` is an output, and event `y` its input.
    pub fn is_sent_as(&self, x: Event, y: Event) -> bool
        requires x_known { x < length self.now.chart.now.events }
        ensures { result ≡ is_sent_as (frame_of self.now) x y }
    {
        self.chart.is_output(x) && self.chart.other_end(x) == y
    }

    /// Whether event `x` has to be drawn before event `e`, and is not its output.
    pub fn blocks(&self, x: Event, e: Event) -> bool
        requires long { vec_len self.now.levels ≡ length self.now.chart.now.events }
        requires x_known { x < length self.now.chart.now.events }
        requires e_known { e < length self.now.chart.now.events }
        ensures { result ≡ blocks (frame_of self.now) x e }
    {
        (self.is_above(x, e) || self.is_queued_before(x, e)) && !self.is_sent_as(x, e)
    }
}

/// The segment of each event.
fn segments_of(alloc: Global, chart: &Chart) -> Result<Vec<usize>, AllocError>
    ensures { IfOk result (λ levels. levels.items
        ≡ map (segment chart.now.events) (range_with_len 0 (length chart.now.events))) }
{
    let mut levels = Vec::with_capacity(alloc, chart.events() as usize)?;
    for e in 0..chart.events() {
        levels.push(chart.segment(e) as usize)?;
    }
    Ok(levels)
}

/// The numbers of `many` events, ascending.
fn numbers_to(alloc: Global, many: u32) -> Result<Vec<Event>, AllocError>
    ensures { IfOk result (λ numbers. numbers.items ≡ range_with_len 0 many) }
{
    let mut numbers = Vec::with_capacity(alloc, many as usize)?;
    for e in 0..many {
        numbers.push(e)?;
    }
    Ok(numbers)
}

/// A chart as it is drawn, by these ranks if they are given: an event is below all events of the
/// segments above its own. An error is a growth of memory that was refused.
pub fn frame_chart<'a>(
    alloc: Global,
    chart: &'a Chart,
    ranks: Option<&'a [usize]>,
) -> Result<Framed<'a>, AllocError>
    ensures frame { IfOk result (λ f. frame_of f ≡ chart_frame chart.now.events) }
    ensures ranks { IfOk result (λ f. ranks_of f ≡ option_copied ranks.entry) }
    ensures laid { IfOk result (λ f. IsLaid f) }
{
    chart.facts();
    let many = chart.events();
    Ok(Framed {
        chart,
        levels: segments_of(alloc, chart)?,
        after: Vec::new(alloc),
        course: numbers_to(alloc, many)?,
        ranks,
    })
}
