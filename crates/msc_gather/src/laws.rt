//! Laws of the logs of a chart, over the definitions only. The functions do nothing when they run:
//! a caller that needs a law calls its function. Each law holds of every accepted chart under each
//! architecture.

ghost use Rattle.msc_gather.specs.Laws.{ChartsAreSeated, FollowersAreHeads, LinksTellFollowers};
ghost use Rattle.msc_gather.specs.Laws.{LogsAreGatheredOrNone, OneRunGathers};
ghost use Rattle.msc_gather.specs.Laws.{RunsWithTheseLinesAreSchedules, StrangeLogsHaveNoMerge};
ghost use Rattle.msc_gather.specs.Laws.{StuckLogsHaveNoMerge, TheLeastEventsGather};
ghost use Rattle.msc_gather.specs.Laws.{WholeLogsGiveWholeTraces};

use msc_chart::laws::{ends_share_queues, inputs_share_lines};

/// Both ends of a message have one queue, each event is on the line of an instance, and the inputs
/// of a queue are on one line.
pub fn charts_are_seated()
    ensures { ChartsAreSeated }
{
    ends_share_queues();
    inputs_share_lines();
}

/// The runs with these lines are the lists that have each logged event once and keep the order of
/// what has to come first. There is such a run only if the logs are logs of the chart.
pub fn runs_with_these_lines_are_schedules()
    ensures { RunsWithTheseLinesAreSchedules }
{
    charts_are_seated();
}

/// The least events that may follow one another gather the logs. If an event is missing and none
/// may follow, or the logs are no logs of the chart, no run has them as its lines.
pub fn the_least_events_gather()
    ensures gathers { TheLeastEventsGather }
    ensures stuck { StuckLogsHaveNoMerge }
    ensures strange { StrangeLogsHaveNoMerge }
{
    charts_are_seated();
}

/// Logs of a chart are gathered by exactly one run, or no run has them as its lines.
pub fn logs_are_gathered_or_none()
    ensures either { LogsAreGatheredOrNone }
    ensures unique { OneRunGathers }
{
    charts_are_seated();
}

/// An event that may follow is the first that is left in its log, and the first that is left in a
/// log may follow if and only if its link has occurred.
pub fn heads_and_links_tell()
    ensures head { FollowersAreHeads }
    ensures link { LinksTellFollowers }
{
    charts_are_seated();
}

/// A list whose lines are whole logs is whole.
pub fn whole_logs_give_whole_traces()
    ensures { WholeLogsGiveWholeTraces }
{}
