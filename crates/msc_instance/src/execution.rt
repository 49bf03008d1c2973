//! The execution of a chart: all its instances on threads, and then its queues settled.

ghost use Rattle.std.specs.Prelude.{◌≡◌, ◌≢◌, ℕ, ◌<◌, length, IfOk, IfErr, IsTrue};
ghost use Rattle.msc_ending.specs.declared.end.End.TheVariants.{Stopped};
ghost use Rattle.msc_execution.specs.Executions.{AreFinished, IsExecution, IsFinished, end_at};
ghost use Rattle.msc_execution.specs.Executions.{log_at};
ghost use Rattle.msc_instance.specs.Gates.{WasLet};
ghost use Rattle.msc_instance.specs.Views.{outcome_of};

use crate::gate::Gate;
use crate::settling::settle_all;
use crate::threads::{prepare_all, run_all};
use msc_chart::{Chart, Event, Queues};
use msc_ending::{End, RunFault};
use msc_execution::laws::{
    finished_executions_leave_nothing, no_clock_is_spent, runs_hold_queues,
    settled_runs_are_executions,
};
use msc_fifo::Settled;
use std::alloc::Global;
use std::sync::Wait;
use std::thread::Threads;

/// The parts that the execution of a chart leaves.
#[derive(Drop)]
pub struct Execution {
    /// The events that each instance logged, in order.
    pub logs: Vec<Vec<Event>>,
    /// How each instance ended.
    pub ends: Vec<End>,
    /// The queues that have a message, settled, each with its number, ascending.
    pub queues: Vec<(u32, Settled)>,
}

/// Runs a chart under an architecture: each instance in a thread of its own, over fresh queues. All
/// memory that the instances need is taken before the first thread is started. If a thread can't be
/// started, the outlets of its instance and of all later ones are closed, the earlier ones end, and
/// only the instance's number is returned. `Memory` may come at any growth.
pub fn run_chart<R: Threads + Wait + Sync, G: Gate + Sync>(
    rt: &R,
    alloc: Global,
    chart: &Chart,
    queues: Queues,
    gate: &G,
    patience: u32,
) -> Result<Execution, RunFault>
    ensures execution { IfOk result (λ x.
        IsExecution queues chart.now G.is_open patience (outcome_of x)) }

    // If all have finished, all logs are whole and nothing is left in a queue.
    ensures finished { IfOk result (λ x.
        AreFinished x.ends.items → IsFinished chart.now (outcome_of x)) }

    // A gate that is known to be open stops no instance.
    ensures open { IfOk result (λ x.
        IsTrue G.is_open → (i : ℕ) → end_at (outcome_of x) i ≢ Stopped) }

    // The gate has allowed each event of a log, except an input at which its instance was stopped.
    ensures asked { IfOk result (λ x. (i : ℕ) → i < length chart.now.instances
        → WasLet (G.lets gate.now) chart.now i (log_at (outcome_of x) i) (end_at (outcome_of x) i)) }
    ensures started { IfErr result (λ f.
        (i : ℕ) → f ≡ RunFault.NotStarted i → i < length chart.now.instances) }
{
    runs_hold_queues();
    settled_runs_are_executions();
    finished_executions_leave_nothing();
    no_clock_is_spent();
    chart.facts();
    let jobs = prepare_all(alloc, chart, queues)?;
    let answers = Vec::with_capacity(alloc, jobs.len())?;
    let back = Vec::with_capacity(alloc, jobs.len())?;
    match run_all(rt, chart, gate, patience, jobs, answers, back) {
        Ok(ran) => Ok(settle_all(alloc, chart, queues, ran)?),
        Err(i) => Err(RunFault::NotStarted(i)),
    }
}
