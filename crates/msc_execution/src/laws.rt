//! Laws of executions, over the definitions only. The functions do nothing when they run: a caller
//! that needs a law calls its function. Each law holds under each architecture; the laws that
//! mention the contents of a chart hold for every accepted chart.

ghost use Rattle.msc_chart.specs.Drawings.{IsAccepted};
ghost use Rattle.msc_execution.specs.ClockLaws.{ClocksAreBounded, EveryExecutionHasAMerge};
ghost use Rattle.msc_execution.specs.ClockLaws.{EveryExecutionIsARun, PlaceClocksAreBounded};
ghost use Rattle.msc_execution.specs.Fits.{InletsBringOwn, LogsKeepQuotas, OutputsHaveOutlets};
ghost use Rattle.msc_execution.specs.Fits.{SendersAreRanked, WiringGrows, WiringsFit};
ghost use Rattle.msc_execution.specs.Samples.{TheSampleIsAnExecution, TheSampleIsDrawn};
ghost use Rattle.msc_execution.specs.Samples.{TheSampleIsSorted, own_chart};
ghost use Rattle.msc_execution.specs.Settling.{FinishedExecutionsLeaveNothing, RunsHoldQueues};
ghost use Rattle.msc_execution.specs.Settling.{SettledRunsAreExecutions};
ghost use Rattle.msc_execution.specs.Shown.{ExecutionsAreRuns, ExecutionsAreTimed};
ghost use Rattle.msc_execution.specs.Shown.{ExecutionsHaveAMerge, NobodyIsStopped, NoClockIsSpent};
ghost use Rattle.msc_execution.specs.Shown.{NoMoreIsPut, NoPlaceClockIsSpent};

use msc_gather::laws::charts_are_seated;

/// Fresh ends fit their instance.
pub fn wirings_fit()
    ensures { WiringsFit }
{}

/// Each output of a line has its outlet.
pub fn outputs_have_outlets()
    ensures { OutputsHaveOutlets }
{}

/// A log sends to a queue at most its quota.
pub fn logs_keep_quotas()
    ensures { LogsKeepQuotas }
{}

/// Each message of a queue from which an instance takes comes to that instance.
pub fn inlets_bring_own()
    ensures { InletsBringOwn }
{}

/// How fresh ends are made, queue by queue.
pub fn wiring_grows()
    ensures { WiringGrows }
{}

/// The k-th sender of a queue is of rank k.
pub fn senders_are_ranked()
    ensures { SendersAreRanked }
{}

/// Before settling, the returned parts have one inlet and all outlets of each queue with a message.
pub fn runs_hold_queues()
    ensures { RunsHoldQueues }
{}

/// After settling: the runs of all instances from fresh ends and the settled queues are an
/// execution.
pub fn settled_runs_are_executions()
    ensures { SettledRunsAreExecutions }
{}

/// If all instances have finished, all logs are whole and nothing is left in a queue.
pub fn finished_executions_leave_nothing()
    ensures { FinishedExecutionsLeaveNothing }
{}

/// Timed logs, sorted by the keys of their events, are a run whose lines are the logs.
pub fn every_execution_is_a_run()
    ensures run { EveryExecutionIsARun }
    ensures merge { EveryExecutionHasAMerge }
{
    charts_are_seated();
}

/// No clock of timed logs is greater than the number of messages put.
pub fn clocks_are_bounded()
    ensures instances { ClocksAreBounded }
    ensures queues { PlaceClocksAreBounded }
{
    charts_are_seated();
}

/// The logs and the settled places of an execution agree, with their clocks.
pub fn executions_are_timed()
    ensures { ExecutionsAreTimed }
{
    charts_are_seated();
}

/// The events of an execution, sorted by their keys, are a run of the chart whose lines are the
/// logs. So some run has the logs as its lines.
pub fn executions_are_runs()
    ensures run { ExecutionsAreRuns }
    ensures merge { ExecutionsHaveAMerge }
{
    charts_are_seated();
}

/// No clock of an execution is greater than the number of messages that are put, which is at most
/// the number of messages of the chart. So with an open gate no instance is stopped.
pub fn no_clock_is_spent()
    ensures puts { NoMoreIsPut }
    ensures clocks { NoClockIsSpent }
    ensures places { NoPlaceClockIsSpent }
    ensures stopped { NobodyIsStopped }
{
    charts_are_seated();
}

/// The conditions on an execution can be met: the chart `charts/own_message.msc`, with a message to
/// oneself, an action and a mailbox of two senders, has an execution in which messages are put and
/// taken against the drawn order.
pub fn a_sample_is_an_execution()
    ensures drawn { TheSampleIsDrawn }
    ensures accepted { IsAccepted own_chart }
    ensures execution { TheSampleIsAnExecution }
    ensures trace { TheSampleIsSorted }
{}
