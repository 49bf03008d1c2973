//! A picture as plain data: its parts and their places, without a format.

ghost use Rattle.std.specs.Prelude.{◌≡◌, ◌<◌, IfOk, option_copied};
ghost use Rattle.msc_chart.specs.Runs.{IsWhole, Run};
ghost use Rattle.msc_chart.specs.Wirings.{size, wired_by};
ghost use Rattle.msc_picture.specs.RunFrames.{run_bar};
ghost use Rattle.msc_chart.specs.Drawings.{chart_of};
ghost use Rattle.msc_picture.specs.Scenes.{IsMarkedSceneOf, IsRunSceneOf};

use crate::band::bands_of;
use crate::ordering::drawing_order;
use crate::part::{arrows_of, heads_of, spots_of};
use crate::row::rows_of;
use crate::run::run_order;
use listed::Listed;
use msc_chart::{Chart, Event, Wiring};
use msc_parser::{Draft, Label};
use std::alloc::{AllocError, Global};

/// The head of an instance: its name, and the names of its kind with a space between.
#[derive(Drop)]
pub struct Head {
    pub name: Label,
    pub kind: Label,
}

/// The arrow of a message: its output and its input, their instances, and its label.
#[derive(Drop)]
pub struct Arrow {
    pub output: Event,
    pub input: Event,
    pub from: u32,
    pub to: u32,
    pub label: Label,
}

/// The act of an event: it is the output of a message or its input, or an action with this text.
#[derive(Drop)]
pub enum Act {
    Sends(u32),
    Takes(u32),
    Does(Label),
}

/// An event: its instance, and what it does.
#[derive(Drop)]
pub struct Spot {
    pub instance: u32,
    pub act: Act,
}

/// The events of a row: one, or an output with its input.
#[derive(Clone, Copy)]
pub struct Row {
    pub first: Event,
    pub second: Option<Event>,
}

/// The band of a coregion: its instance, and the rows of its first and its last event.
#[derive(Clone, Copy)]
pub struct Band {
    pub instance: u32,
    pub first: usize,
    pub last: usize,
}

/// The bar of closest races between two consecutive segments of an instance: the events of the
/// upper one and of the lower one, ascending, and the numbers of the first and the last of the
/// races, from 1.
#[derive(Drop)]
pub struct RaceBar {
    pub instance: u32,
    pub upper: Listed<Event>,
    pub lower: Listed<Event>,
    pub first: usize,
    pub last: usize,
}

/// A picture as plain data: instances, messages and events by number, rows from above, bands by
/// instance and from above, bars by their numbers.
#[derive(Drop)]
pub struct Scene {
    pub name: Label,
    pub heads: Listed<Head>,
    pub arrows: Listed<Arrow>,
    pub spots: Listed<Spot>,
    pub rows: Listed<Row>,
    pub bands: Listed<Band>,
    pub bars: Listed<RaceBar>,
}

/// The picture of a chart, with the bars of its closest races. If `ranks` are given, its events are
/// drawn by them, as in `drawing_order`. An error is a growth of memory that was refused.
pub fn chart_scene(
    alloc: Global,
    draft: &Draft,
    chart: &Chart,
    ranks: Option<&[usize]>,
    bars: Listed<RaceBar>,
) -> Result<Scene, AllocError>
    requires { chart.now ≡ chart_of draft.now }
    ensures { IfOk result (IsMarkedSceneOf draft.now chart.now (option_copied ranks.entry) bars) }
{
    let order = drawing_order(alloc, chart, ranks)?;
    let rows = rows_of(alloc, chart, &order)?;
    let bands = bands_of(alloc, chart, &rows)?;
    Ok(Scene {
        name: Listed::from_vec(Vec::from_slice(alloc, chart.name())?),
        heads: heads_of(alloc, draft)?,
        arrows: arrows_of(alloc, chart)?,
        spots: spots_of(alloc, chart)?,
        rows: Listed::from_vec(rows),
        bands: Listed::from_vec(bands),
        bars,
    })
}

/// The race that a run reverses: event `second` comes before event `first`. Its number is shown
/// unless it is 0.
#[derive(Clone, Copy)]
pub struct Reversed {
    pub first: Event,
    pub second: Event,
    pub number: usize,
}

/// The bar of a race that is reversed.
fn bar_of(alloc: Global, w: &Wiring, race: Reversed) -> Result<RaceBar, AllocError>
    requires { race.first < size w.now }
    ensures { IfOk result (λ bar.
        bar ≡ run_bar (wired_by w.now) race.first race.second race.number) }
{
    Ok(RaceBar {
        instance: w.chart.instance_of(race.first),
        upper: Listed::from_vec(vec![in alloc; race.second]?),
        lower: Listed::from_vec(vec![in alloc; race.first]?),
        first: race.number,
        last: race.number,
    })
}

/// The picture of a whole run of a chart that reverses a race. If `ranks` are given, its events are
/// drawn by them, as in `run_order`. An error is a growth of memory that was refused.
pub fn run_scene(
    alloc: Global,
    draft: &Draft,
    w: &Wiring,
    ranks: Option<&[usize]>,
    run: &[Event],
    race: Reversed,
) -> Result<Scene, AllocError>
    requires drawn { w.now.chart.now ≡ chart_of draft.now }
    requires run { Run (wired_by w.now) run.now }
    requires whole { IsWhole (wired_by w.now) run.now }
    requires known { race.first < size w.now }
    ensures { IfOk result
        (IsRunSceneOf draft.now w.now (option_copied ranks.entry) run.now race.first race.second
        race.number) }
{
    let order = run_order(alloc, w, ranks, run)?;
    let rows = rows_of(alloc, w.chart, &order)?;
    let bar = bar_of(alloc, w, race)?;
    Ok(Scene {
        name: Listed::from_vec(Vec::from_slice(alloc, w.chart.name())?),
        heads: heads_of(alloc, draft)?,
        arrows: arrows_of(alloc, w.chart)?,
        spots: spots_of(alloc, w.chart)?,
        rows: Listed::from_vec(rows),
        bands: Listed::from_vec(Vec::new(alloc)),
        bars: Listed::from_vec(vec![in alloc; bar]?),
    })
}
