//! The run that is as drawn, or the ring of steps that rules each such run out.

ghost use Rattle.std.specs.Prelude.{IfOk, MatchOption};
ghost use Rattle.msc_chart.specs.Orders.{wired};
ghost use Rattle.msc_follow.specs.Following.{IsFollowed, IsFollowingRun, IsLeastStepRing};
ghost use Rattle.msc_follow.specs.Following.{NeverHappens};

use crate::closing::least_on_a_ring;
use crate::laws::a_drawing_without_a_ring_is_followed;
use crate::table::steps_of;
use msc_chart::laws::ends_share_queues;
use msc_chart::{Chart, Event, Queues};
use msc_ready::Ready;
use msc_ready::laws::ready_runs_keep_ready_lines;
use rings::ring;
use std::alloc::{AllocError, Global};

/// Whether a drawing can happen.
#[derive(Drop)]
pub enum Followed {
    /// It can: a whole run that keeps the drawn order. Each event is the least that may come next
    /// and to which no step leads from an event that has not come yet.
    Follows(Vec<Event>),
    /// It cannot: a ring of steps. A step leads from each event to the next, and from the last to
    /// the first.
    Never(Vec<Event>),
}

/// The following run, if the drawing can happen. An error is a growth of memory that was refused.
fn following_run(
    alloc: Global,
    chart: &Chart,
    queues: Queues,
) -> Result<Option<Vec<Event>>, AllocError>
    ensures { IfOk result (λ found. MatchOption found (NeverHappens (wired queues chart.now))
        (λ run. IsFollowingRun (wired queues chart.now) run.items)) }
{
    chart.facts();
    ends_share_queues();
    ready_runs_keep_ready_lines();
    let ready = Ready::all(alloc, chart, queues)?;
    let run = ready.finishing_run(alloc)?;
    if run.len() == chart.events() as usize {
        return Ok(Some(run));
    }
    Ok(None)
}

/// A ring of steps, of a chart whose drawing never happens: of the shortest rings through the least
/// event that is on a ring, the least, event by event. An error is a growth of memory that was
/// refused.
fn ring_of(alloc: Global, chart: &Chart, queues: Queues) -> Result<Vec<Event>, AllocError>
    requires { NeverHappens (wired queues chart.now) }
    ensures { IfOk result (λ ring. IsLeastStepRing (wired queues chart.now) ring.items) }
{
    chart.facts();
    ends_share_queues();
    a_drawing_without_a_ring_is_followed();
    let events = chart.events();
    let steps = steps_of(alloc, chart, queues)?;
    let Some(start) = least_on_a_ring(alloc, &steps, events)? else {
        unreachable!()
    };
    match ring(alloc, &steps, events, start)? {
        Some(ring) => Ok(ring),
        None => unreachable!(),
    }
}

/// Whether the drawing of a chart can happen under an architecture: [`Followed::Follows`] with the
/// following run if some whole run keeps the drawn order, otherwise [`Followed::Never`] with a ring
/// of steps: of the shortest rings through the least event that is on a ring, the least, event by
/// event. An error is a growth of memory that was refused.
pub fn follow(alloc: Global, chart: &Chart, queues: Queues) -> Result<Followed, AllocError>
    ensures { IfOk result (IsFollowed (wired queues chart.now)) }
{
    match following_run(alloc, chart, queues)? {
        Some(run) => Ok(Followed::Follows(run)),
        None => Ok(Followed::Never(ring_of(alloc, chart, queues)?)),
    }
}
