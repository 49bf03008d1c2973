//! The places of rows and events in a layout.

ghost use Rattle.std.specs.Prelude.{◌≡◌, ◌+◌, ◌-◌, ◌/◌, IfOk, fold, max, min, slice_get};
ghost use Rattle.msc_svg.specs.Layouts.{at, is_short};
ghost use Rattle.msc_svg.specs.Places.{act_place, axis, edge, event_middle, greatest_place};
ghost use Rattle.msc_svg.specs.Places.{least_edge, least_place, middle, place, shift};

use crate::layout::{Layout, is_short};
use crate::measure::at;
use msc_chart::Event;
use msc_picture::{Act, Scene, plus};
use std::alloc::AllocError;

impl Layout {
    /// The axis of instance `i`.
    pub fn axis(&self, i: u32) -> usize
        ensures { result ≡ axis self.now i }
    {
        at(self.axes.as_slice(), i as usize)
    }

    /// The axis at this index.
    pub fn axis_at(&self, i: usize) -> usize
        ensures { result ≡ axis self.now i }
    {
        at(self.axes.as_slice(), i)
    }

    /// The place at which row `r` begins.
    pub fn edge(&self, r: usize) -> usize
        ensures { result ≡ edge self.now r }
    {
        at(self.edges.as_slice(), r)
    }

    /// The row of event `e`.
    pub fn row(&self, e: Event) -> usize
        ensures { result ≡ at self.now.rows e }
    {
        at(self.rows.as_slice(), e as usize)
    }

    /// For output `e`, how deep the arrow of its message to oneself reaches.
    pub fn depth(&self, e: Event) -> usize
        ensures { result ≡ at self.now.depths e }
    {
        at(self.depths.as_slice(), e as usize)
    }

    /// The middle of the row of event `e`.
    pub fn event_middle(&self, e: Event) -> Result<usize, AllocError>
        ensures { IfOk result (λ y. y ≡ event_middle self.now e) }
    {
        let r = self.row(e);
        let upper = self.edge(r);
        let lower = self.edge(plus(r, 1)?);
        plus(upper, lower.saturating_sub(upper) / 2)
    }
}

/// The distance of an end of message `m` from the middle of its row.
fn shift(scene: &Scene, layout: &Layout, m: u32) -> usize
    ensures { result ≡ shift scene.now layout.now m }
{
    if is_short(layout.rows.as_slice(), scene, m) {
        7
    } else {
        0
    }
}

/// The place of event `e`. An error is a length past all numbers.
pub fn place(scene: &Scene, layout: &Layout, e: Event) -> Result<usize, AllocError>
    ensures { IfOk result (λ y. y ≡ place scene.now layout.now e) }
{
    let y = layout.event_middle(e)?;
    let Some(spot) = scene.spots.as_slice().get(e as usize) else {
        return Ok(y);
    };
    match &spot.act {
        Act::Sends(m) => Ok(y.saturating_sub(shift(scene, layout, *m))),
        Act::Takes(m) => plus(y, shift(scene, layout, *m)),
        Act::Does(_) => Ok(y),
    }
}

/// The least place of these events, or this one.
pub fn least_place(
    scene: &Scene,
    layout: &Layout,
    start: usize,
    events: &[Event],
) -> Result<usize, AllocError>
    ensures { IfOk result (λ y. y ≡ least_place scene.now layout.now start events.now) }
{
    let mut least = start;
    for e in events {
        least = least.min(place(scene, layout, *e)?);
    }
    Ok(least)
}

/// The greatest place of these events, or this one.
pub fn greatest_place(
    scene: &Scene,
    layout: &Layout,
    start: usize,
    events: &[Event],
) -> Result<usize, AllocError>
    ensures { IfOk result (λ y. y ≡ greatest_place scene.now layout.now start events.now) }
{
    let mut most = start;
    for e in events {
        most = most.max(place(scene, layout, *e)?);
    }
    Ok(most)
}

/// The place at which the first of the rows of these events begins, or the foot of the axes.
pub fn least_edge(layout: &Layout, events: &[Event]) -> usize
    ensures { result ≡ least_edge layout.now events.now }
{
    let mut least = layout.foot;
    for e in events {
        least = least.min(layout.edge(layout.row(*e)));
    }
    least
}
