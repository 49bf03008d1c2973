//! The part of a run that its picture keeps.

ghost use Rattle.std.specs.Prelude.{◌≡◌, ◌<◌, IfOk, length, map, option_copied};
ghost use Rattle.std.specs.List.{All, range_with_len};
ghost use Rattle.msc_chart.specs.Runs.{IsWhole, Run};
ghost use Rattle.msc_chart.specs.Wirings.{size, wired_by};
ghost use Rattle.msc_picture.specs.Courses.{IsLaid, frame_of, ranks_of};
ghost use Rattle.msc_picture.specs.Frames.{IsDrawingOrder};
ghost use Rattle.msc_picture.specs.Laws.{KeepsLinesOf};
ghost use Rattle.msc_picture.specs.RunFrames.{place_of, queued_before, run_frame};

use crate::frame::Framed;
use crate::laws::drawn_runs_are_runs;
use crate::ordering::draw_all;
use msc_chart::{Event, Wiring};
use std::alloc::{AllocError, Global};

/// The place of each of `many` events in a list, or the length of the list.
fn places_of(alloc: Global, run: &[Event], many: u32) -> Result<Vec<usize>, AllocError>
    requires { All (λ e. e < many) run.now }
    ensures { IfOk result (λ places.
        places.items ≡ map (place_of run.now) (range_with_len 0 many)) }
{
    let end = run.len();
    let mut places = vec![in alloc; end; many as usize]?;
    for back in 0..end {
        let k = end - 1 - back;
        places[run[k] as usize] = k;
    }
    Ok(places)
}

/// For each output, the output before it in its queue, in the order of a run.
fn queued_of(alloc: Global, w: &Wiring, run: &[Event]) -> Result<Vec<Option<Event>>, AllocError>
    requires run { Run (wired_by w.now) run.now }
    requires whole { IsWhole (wired_by w.now) run.now }
    ensures { IfOk result (λ after.
        after.items ≡ map (queued_before (wired_by w.now) run.now) (range_with_len 0 (size w.now))) }
{
    w.chart.facts();
    let mut after = vec![in alloc; None; w.chart.events() as usize]?;
    let mut lasts = vec![in alloc; None; w.queue_count() as usize]?;
    for x in run {
        if !w.chart.is_output(*x) {
            continue;
        }
        let queue = w.queue(*x) as usize;
        after[*x as usize] = lasts[queue];
        lasts[queue] = Some(*x);
    }
    Ok(after)
}

/// A run as it is drawn, by these ranks if they are given: each event is a level of its own.
fn frame_run<'a>(
    alloc: Global,
    w: &Wiring<'a>,
    ranks: Option<&'a [usize]>,
    run: &[Event],
) -> Result<Framed<'a>, AllocError>
    requires run { Run (wired_by w.now) run.now }
    requires whole { IsWhole (wired_by w.now) run.now }
    ensures frame { IfOk result (λ f. frame_of f ≡ run_frame (wired_by w.now) run.now) }
    ensures ranks { IfOk result (λ f. ranks_of f ≡ option_copied ranks.entry) }
    ensures laid { IfOk result (λ f. IsLaid f) }
{
    Ok(Framed {
        chart: w.chart,
        levels: places_of(alloc, run, w.chart.events())?,
        after: queued_of(alloc, w, run)?,
        course: Vec::from_slice(alloc, run)?,
        ranks,
    })
}

/// The order in which a run is drawn: on each line, and among the outputs of each queue, the order
/// is that of the run. Ranks choose among the events that may come next as they do for a chart. An
/// error is a growth of memory that was refused.
pub fn run_order(
    alloc: Global,
    w: &Wiring,
    ranks: Option<&[usize]>,
    run: &[Event],
) -> Result<Vec<Event>, AllocError>
    requires run { Run (wired_by w.now) run.now }
    requires whole { IsWhole (wired_by w.now) run.now }
    ensures rules { IfOk result (λ order.
        IsDrawingOrder (run_frame (wired_by w.now) run.now) (option_copied ranks.entry)
        order.items) }

    // It is also a run, and has the lines of the run.
    ensures run { IfOk result (λ order. Run (wired_by w.now) order.items) }
    ensures lines { IfOk result (λ order.
        KeepsLinesOf w.now.chart.now.events run.now order.items) }
{
    drawn_runs_are_runs();
    w.chart.facts();
    let f = frame_run(alloc, w, ranks, run)?;
    let drawn = draw_all(alloc, &f)?;
    Ok(drawn.past)
}
