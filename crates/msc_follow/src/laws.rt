//! Laws of steps and of the drawings that can happen, over the definitions only. The functions do
//! nothing when they run: a caller that needs a law calls its function. Each law holds of every
//! accepted chart under each architecture.

ghost use Rattle.msc_follow.specs.Laws.{ADrawingWithoutARingIsFollowed, APassIsFollowed};
ghost use Rattle.msc_follow.specs.Laws.{ARingStopsEveryRun, EveryDrawingIsFollowedUnderSingle};
ghost use Rattle.msc_follow.specs.Laws.{FollowingRunsAreUnique, NoStepIsAheadUnderSingle};

use msc_chart::laws::{ends_share_queues, inputs_share_lines};
use msc_race::laws::{no_run_is_stuck, races_are_what_runs_reverse};
use msc_ready::laws::{ready_runs_keep_ready_lines, some_run_is_whole};

/// If the steps have a ring, no whole run keeps the drawn order.
pub fn a_ring_stops_every_run()
    ensures { ARingStopsEveryRun }
{
    ends_share_queues();
    ready_runs_keep_ready_lines();
    some_run_is_whole();
}

/// If the steps have no ring, some whole run keeps the drawn order.
pub fn a_drawing_without_a_ring_is_followed()
    ensures { ADrawingWithoutARingIsFollowed }
{
    ends_share_queues();
    ready_runs_keep_ready_lines();
    some_run_is_whole();
}

/// If a chart has no race, some whole run keeps the drawn order.
pub fn a_pass_is_followed()
    ensures { APassIsFollowed }
{
    no_run_is_stuck();
    races_are_what_runs_reverse();
}

/// If each message has a queue of its own, no output has to be ahead of another, and some whole run
/// keeps the drawn order.
pub fn every_drawing_is_followed_under_single()
    ensures ahead { NoStepIsAheadUnderSingle }
    ensures follows { EveryDrawingIsFollowedUnderSingle }
{
    ends_share_queues();
    ready_runs_keep_ready_lines();
    some_run_is_whole();
}

/// A chart has at most one following run.
pub fn following_runs_are_unique()
    ensures { FollowingRunsAreUnique }
{}
