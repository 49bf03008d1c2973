//! The picture of a chart with some of its races, which are numbered on from others.

ghost use Rattle.std.specs.Prelude.{◌≡◌, ◌≤◌, IfOk, OnOk, length, map, option_copied, ℕ};
ghost use Rattle.std.specs.Prelude.{◌<◌, get_or};
ghost use Rattle.msc_chart.specs.Drawings.{chart_of};
ghost use Rattle.msc_draw.specs.Numbering.{AreAscending, IsEndOf, later_bar, later_bars};
ghost use Rattle.msc_picture.specs.Bars.{bars_of};
ghost use Rattle.msc_picture.specs.Scenes.{IsMarkedSceneOf};

use crate::marking::Marking;
use listed::Listed;
use msc_chart::{Chart, Event};
use msc_parser::Draft;
use msc_picture::{RaceBar, Scene, chart_scene, plus};
use std::alloc::{AllocError, Global};

/// The end of the races of event `e` that begin at place `start`: the place of the first later race
/// that is not of `e`, or the number of races.
fn end_of(races: &[(Event, Event)], start: usize, e: Event) -> usize
    requires { start ≤ length races.now }
    ensures { IsEndOf races.now start e result }
{
    for k in start..races.len() {
        if races[k].0 != e {
            return k;
        }
    }
    races.len()
}

/// The bars of these races, which ascend by their first events, numbered from 1.
fn bars_of(
    alloc: Global,
    chart: &Chart,
    races: &[(Event, Event)],
) -> Result<Vec<RaceBar>, AllocError>
    requires { AreAscending chart.now.events races.now }
    ensures { IfOk result (λ bars. bars.items ≡ bars_of chart.now.events races.now) }
{
    let mut marking = Marking::start(alloc, chart)?;
    let mut start = 0;
    for e in 0..chart.events() {
        let end = end_of(races, start, e);
        marking.take(alloc, chart, e, &races[start..end])?;
        start = end;
    }
    let (bars, _) = marking.finish(alloc, chart)?;
    Ok(bars.into_vec())
}

/// Adds `first` to the numbers of a bar.
fn number_on(bar: &mut RaceBar, first: usize) -> Result<(), AllocError>
    ensures { OnOk result (bar.new ≡ later_bar first bar.old) }
{
    bar.first = plus(bar.first, first)?;
    bar.last = plus(bar.last, first)?;
    Ok(())
}

/// Adds `first` to the numbers of bars.
fn number_all(bars: &mut Vec<RaceBar>, first: usize) -> Result<(), AllocError>
    ensures { OnOk result (bars.new.items ≡ map (later_bar first) bars.old.items) }
{
    for i in 0..bars.len() {
        number_on(&mut bars[i], first)?;
    }
    Ok(())
}

/// The picture of a chart with the bars of these races, whose numbers are `first` + 1, `first` + 2,
/// and so on. The races are pairs of events, numbered from 0, and their first events ascend. If
/// `ranks` are given, the events are drawn by them, as in `msc_picture::drawing_order`. An error is
/// a growth of memory that was refused, or a number that a `usize` does not hold.
pub fn scene_of_races(
    alloc: Global,
    draft: &Draft,
    chart: &Chart,
    ranks: Option<&[usize]>,
    races: &[(Event, Event)],
    first: usize,
) -> Result<Scene, AllocError>
    requires drawn { chart.now ≡ chart_of draft.now }
    requires races { AreAscending chart.now.events races.now }
    ensures { IfOk result (IsMarkedSceneOf draft.now chart.now (option_copied ranks.entry)
        (later_bars chart.now.events races.now first)) }
{
    let mut bars = bars_of(alloc, chart, races)?;
    number_all(&mut bars, first)?;
    let scene = chart_scene(alloc, draft, chart, ranks, Listed::from_vec(bars))?;
    Ok(scene)
}
