//! An execution of a chart and its trace.

ghost use Rattle.std.specs.Prelude.{◌≡◌, ◌<◌, ◌↔◌, ℕ, length, map, IfErr, IfOk, IsTrue};
ghost use Rattle.std.specs.Prelude.{Some};
ghost use Rattle.std.specs.List.{All};
ghost use Rattle.msc_chart.specs.Orders.{wired};
ghost use Rattle.msc_chart.specs.Runs.{HasNoMerge};
ghost use Rattle.msc_execution.specs.Executions.{AreFinished};
ghost use Rattle.msc_gather.specs.Gathering.{IsGathered};
ghost use Rattle.msc_report.specs.Traces.{trace_text};
ghost use Rattle.msc_tool.specs.Running.{PrintsExecution};

use msc_chart::{Chart, Event, Queues};
use msc_ending::{End, RunFault};
use msc_execution::laws::executions_are_runs;
use msc_gather::laws::whole_logs_give_whole_traces;
use msc_gather::{GatherFault, gather};
use msc_instance::{Gate, run_chart};
use msc_print::Page;
use msc_report::write_trace;
use std::alloc::{AllocError, Global};
use std::sync::Wait;
use std::thread::Threads;

/// Whether all instances have finished.
fn are_finished(ends: &[End]) -> bool
    ensures { IsTrue result ↔ AreFinished ends.now }
{
    for i in 0..ends.len() {
        if ends[i] != End::Finished {
            return false;
        }
    }
    true
}

/// The least run that has these logs as its lines. There is one.
fn trace_of(
    alloc: Global,
    chart: &Chart,
    queues: Queues,
    logs: &[Vec<Event>],
) -> Result<Vec<Event>, AllocError>
    requires some { HasNoMerge (wired queues chart.now) (length chart.now.instances)
        (map (λ log. log.items) logs.now) → ⊥ }
    ensures { IfOk result (λ trace. IsGathered (wired queues chart.now)
        (length chart.now.instances) (map (λ log. log.items) logs.now) trace.items) }
{
    match gather(alloc, chart, queues, logs) {
        Ok(trace) => Ok(trace),
        Err(GatherFault::NoMerge) => unreachable!(),
        Err(GatherFault::Memory) => Err(AllocError),
    }
}

/// The text of an execution, on a page.
fn page_of(
    alloc: Global,
    chart: &Chart,
    queues: Queues,
    ends: &[End],
    trace: &[Event],
) -> Result<Page, AllocError>
    requires ends { length ends.now ≡ length chart.now.instances }
    requires events { All (λ e. e < length chart.now.events) trace.now }
    ensures { IfOk result (λ page.
        page.bytes.items ≡ trace_text chart.now queues ends.now (Some trace.now)) }
{
    let mut page = Page::new(alloc);
    let written = write_trace(&mut page, chart, queues, ends, Some(trace));
    page.if_written(written)
}

/// Runs a chart under an architecture: the text of an execution with its trace, and whether all
/// instances have finished. `gate` and `patience` are those of [`run_chart`].
///
/// `NotStarted` has the number of an instance whose thread could not be started, from 0. `Memory`
/// means that memory ran out.
pub fn print_execution<R: Threads + Wait + Sync, G: Gate + Sync>(
    rt: &R,
    alloc: Global,
    chart: &Chart,
    queues: Queues,
    gate: &G,
    patience: u32,
) -> Result<(Page, bool), RunFault>
    ensures printed { IfOk result (λ p.
        PrintsExecution chart.now queues G.is_open patience p.1 p.0.bytes.items) }
    ensures started { IfErr result (λ f.
        (i : ℕ) → f ≡ RunFault.NotStarted i → i < length chart.now.instances) }
{
    executions_are_runs();
    whole_logs_give_whole_traces();
    chart.facts();
    let execution = run_chart(rt, alloc, chart, queues, gate, patience)?;
    let (ends, logs) = (execution.ends.as_slice(), execution.logs.as_slice());
    let trace = trace_of(alloc, chart, queues, logs)?;
    let page = page_of(alloc, chart, queues, ends, trace.as_slice())?;
    Ok((page, are_finished(ends)))
}
