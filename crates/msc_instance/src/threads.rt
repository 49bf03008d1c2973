//! One thread for each instance, started one after the other, and all joined.

ghost use Rattle.std.specs.Prelude.{◌≡◌, ◌<◌, ◌≤◌, ◌++◌, ◌∷◌, [], length, map, reverse, All, IfOk};
ghost use Rattle.std.specs.Prelude.{IfErr, MatchOption, vec_len, vec_capacity};
ghost use Rattle.std.specs.List.{AllZip};
ghost use Rattle.msc_execution.specs.Roles.{IsFit, role};
ghost use Rattle.msc_instance.specs.Threads.{AnswersRun, AreJobs, HasNotRun, HaveAnswered, HaveRun};
ghost use Rattle.msc_instance.specs.Threads.{HaveStopped, IsClosedJob, IsReady, WasRefused, rule};
ghost use Rattle.msc_instance.specs.Views.{ends_of};

use crate::ends::{InstanceEnd, InstanceEnds};
use crate::gate::Gate;
use crate::outlets::close_all;
use crate::running::run_instance;
use crate::start::Start;
use crate::wiring::wire;
use msc_chart::{Chart, Event, Queues};
use std::alloc::{AllocError, Global};
use std::snapshot::Snapshot;
use std::sync::Wait;
use std::thread;
use std::thread::{Promise, Scope, Threads};

/// The parts from which an instance starts.
#[derive(Drop)]
pub(crate) struct Job {
    /// The number of the instance.
    pub number: u32,
    /// Its ends. They are in a box, since a call for each instance is on the stack at once.
    pub ends: Box<InstanceEnds>,
    /// An empty log, with room for the events of its line.
    pub log: Vec<Event>,
}

/// The result of a thread: the parts that its instance left, or its job with the outlets closed,
/// not begun, if another thread was refused.
#[derive(Drop)]
pub(crate) enum Answer {
    Ran(InstanceEnd),
    NotRun(Job),
}

/// The results of instances: those of the threads that were started, and the jobs of the others,
/// with their outlets closed. In both lists the first instance is last.
#[derive(Drop)]
pub(crate) struct Gathered {
    pub answers: Vec<Answer>,
    pub unstarted: Vec<Job>,
}

/// The promise of a thread: the run of its instance from this job.
#[derive(Drop)]
struct Ran<'a, G> {
    chart: &'a Chart,
    gate: &'a G,
    patience: u32,
    job: Snapshot<Job>,
}

impl<'a, G: Gate> Promise<Answer> for Ran<'a, G> {
    ghost use Rattle.msc_instance.specs.Threads.{AnswersRun, rule};

    ghost kept_by = { λ p r. AnswersRun p.chart.now (rule G.is_open (G.lets p.gate.now))
        p.patience p.job.value r };
}

/// The parts from which an instance starts, with these ends.
fn prepare(alloc: Global, chart: &Chart, number: u32, ends: InstanceEnds) -> Result<Job, AllocError>
    requires known { number < length chart.now.instances }
    requires fit { IsFit (role ends.queues chart.now number) (ends_of ends) }
    ensures ready { IfOk result (IsReady chart.now) }
    ensures number { IfOk result (λ j. j.number ≡ number) }
    ensures ends { IfOk result (λ j. j.ends.value ≡ ends) }
{
    let (first, past) = chart.line(number);
    let log = Vec::with_capacity(alloc, past.saturating_sub(first) as usize)?;
    Ok(Job {
        number,
        ends: Box::new(alloc, ends)?,
        log,
    })
}

/// The parts from which each instance starts, in the order of the chart.
pub(crate) fn prepare_all(
    alloc: Global,
    chart: &Chart,
    queues: Queues,
) -> Result<Vec<Job>, AllocError>
    ensures { IfOk result (λ jobs. AreJobs queues chart.now jobs.items) }
{
    chart.facts();
    let all = wire(alloc, chart, queues)?;
    let mut jobs = Vec::with_capacity(alloc, all.len())?;
    let mut number = 0;
    for ends in all {
        jobs.push_reserved(prepare(alloc, chart, number, ends)?);
        number += 1;
    }
    Ok(jobs)
}

/// Closes the outlets of an instance that is not begun.
fn close(job: &mut Job)
    ensures { IsClosedJob job.old job.new }
{
    close_all(job.ends.outlets.as_mut_slice());
}

/// Closes the outlets of all these instances.
fn close_each(jobs: &mut [Job])
    ensures { AllZip IsClosedJob jobs.old jobs.new }
{
    for job in jobs.iter_mut() {
        close(job);
    }
}

/// Runs an instance once all threads were started, or closes its outlets if one was refused.
fn run_job<G: Gate>(chart: &Chart, mut job: Job, gate: &G, patience: u32, start: &Start) -> Answer
    requires ready { IsReady chart.now job }
    ensures { AnswersRun chart.now (rule G.is_open (G.lets gate.now)) patience job result }
{
    if start.was_refused() {
        close(&mut job);
        return Answer::NotRun(job);
    }
    let Job { number, ends, log } = job;
    let ends = Box::into_inner(ends);
    Answer::Ran(run_instance(chart, number, ends, gate, patience, log))
}

/// The next job.
fn next_job(chart: &Chart, jobs: &mut Vec<Job>) -> Option<Job>
    requires { All (IsReady chart.now) jobs.old.items }
    ensures rest { All (IsReady chart.now) jobs.new.items }
    ensures next { MatchOption result ((jobs.old.items ≡ []) × (jobs.new.items ≡ []))
        (λ j. IsReady chart.now j × (jobs.old.items ≡ jobs.new.items ++ j ∷ [])
        × (vec_len jobs.new < vec_capacity jobs.new)) }
    ensures room { vec_capacity jobs.new ≡ vec_capacity jobs.old }
{
    jobs.pop()
}

/// Closes the outlets of all later instances, after the instance whose thread was refused has
/// returned in this thread. It joins no thread, so whatever the earlier instances wait for has
/// ended before they are joined.
fn stop(answer: Answer, mut jobs: Vec<Job>, mut answers: Vec<Answer>) -> Gathered
    requires later { vec_len jobs < vec_capacity jobs }
    requires room { vec_len answers < vec_capacity answers }
    ensures stopped { HaveStopped answer jobs.items answers.items result }
    ensures room { vec_capacity result.answers ≡ vec_capacity answers }
{
    close_each(jobs.as_mut_slice());
    match answer {
        Answer::NotRun(job) => jobs.push_reserved(job),
        Answer::Ran(end) => answers.push_reserved(Answer::Ran(end)),
    }
    Gathered {
        answers,
        unstarted: jobs,
    }
}

/// Starts the thread of the first instance, does the same for the rest, and joins the first. The
/// last job of `so_far` is the first instance's, and so is the last result. If a thread can't be
/// started, no later one is started, and the outlets of its instance and of all later ones are
/// closed before an earlier one is joined, so that the earlier ones end.
fn run_rest<'s, 'e, R: Threads + Wait + Sync, G: Gate + Sync>(
    rt: &'e R,
    scope: &Scope<'s, &'e ()>,
    chart: &'e Chart,
    gate: &'e G,
    patience: u32,
    start: &'e Start,
    so_far: Gathered,
) -> Gathered
    requires jobs { All (IsReady chart.now) so_far.unstarted.items }
    requires empty { so_far.answers.items ≡ [] }
    requires room { vec_len so_far.unstarted ≤ vec_capacity so_far.answers }
    ensures answered { HaveAnswered chart.entry.now (rule G.is_open (G.lets gate.entry.now))
        patience so_far.unstarted.items result }
    ensures room { vec_capacity result.answers ≡ vec_capacity so_far.answers }
{
    let Gathered {
        answers,
        unstarted: mut jobs,
    } = so_far;
    let Some(job) = next_job(chart, &mut jobs) else {
        start.complete();
        return Gathered {
            answers,
            unstarted: jobs,
        };
    };
    let promise = Ran {
        chart,
        gate,
        patience,
        job: Snapshot::of(&job),
    };
    match scope.spawn_with(
        promise,
        move || -> Answer
            requires ready { IsReady chart.now job }
            ensures answered { AnswersRun chart.entry.now (rule G.is_open (G.lets gate.entry.now))
                patience job result }
        { run_job(chart, job, gate, patience, start) },
    ) {
        Err(refusal) => {
            start.refuse();
            stop((refusal.value)(), jobs, answers)
        }
        Ok(handle) => {
            let rest = Gathered {
                answers,
                unstarted: jobs,
            };
            let mut all = run_rest(rt, scope, chart, gate, patience, start, rest);
            all.answers.push_reserved(handle.join(rt));
            all
        }
    }
}

/// Opens the scope of the threads.
fn in_scope<R: Threads + Wait + Sync, G: Gate + Sync>(
    rt: &R,
    chart: &Chart,
    gate: &G,
    patience: u32,
    jobs: Vec<Job>,
    answers: Vec<Answer>,
) -> Gathered
    requires jobs { All (IsReady chart.now) jobs.items }
    requires empty { answers.items ≡ [] }
    requires room { vec_len jobs ≤ vec_capacity answers }
    ensures answered { HaveAnswered chart.now (rule G.is_open (G.lets gate.now))
        patience jobs.items result }
    ensures room { vec_capacity result.answers ≡ vec_capacity answers }
{
    let start = Start::new();
    let start = &start;
    thread::scope(
        thread::scope_env(),
        rt,
        |scope| -> Gathered
            requires jobs { All (IsReady chart.now) jobs.items }
            requires empty { answers.items ≡ [] }
            requires room { vec_len jobs ≤ vec_capacity answers }
            ensures answered { HaveAnswered chart.entry.now (rule G.is_open (G.lets gate.entry.now))
                patience jobs.items result }
            ensures room { vec_capacity result.answers ≡ vec_capacity answers }
        {
            let so_far = Gathered {
                answers,
                unstarted: jobs,
            };
            run_rest(rt, scope, chart, gate, patience, start, so_far)
        },
    )
}

/// The parts that the instances left, in the order of the chart, in the room that was made. If an
/// instance was not begun, its number is returned.
fn all_left(mut answers: Vec<Answer>, mut ran: Vec<InstanceEnd>) -> Result<Vec<InstanceEnd>, u32>
    requires empty { ran.items ≡ [] }
    requires room { vec_len answers ≤ vec_capacity ran }
    ensures left { IfOk result (λ r. answers.items ≡ reverse (map Answer.Ran r.items)) }
    ensures told { IfErr result (HasNotRun answers.items) }
{
    while let Some(answer) = answers.pop() {
        match answer {
            Answer::Ran(end) => ran.push_reserved(end),
            Answer::NotRun(job) => return Err(job.number),
        }
    }
    Ok(ran)
}

/// Runs each instance in a thread of its own, and returns the parts that they leave, in their
/// order. If a thread can't be started it returns the instance's number, after all others have
/// ended.
pub(crate) fn run_all<R: Threads + Wait + Sync, G: Gate + Sync>(
    rt: &R,
    chart: &Chart,
    gate: &G,
    patience: u32,
    mut jobs: Vec<Job>,
    answers: Vec<Answer>,
    back: Vec<InstanceEnd>,
) -> Result<Vec<InstanceEnd>, u32>
    requires jobs { All (IsReady chart.now) jobs.items }
    requires empty { (answers.items ≡ []) × (back.items ≡ []) }
    requires room { (vec_len jobs ≤ vec_capacity answers) × (vec_len jobs ≤ vec_capacity back) }
    ensures runs { IfOk result (λ ran.
        HaveRun chart.now (rule G.is_open (G.lets gate.now)) patience jobs.items ran.items) }
    ensures refused { IfErr result (WasRefused chart.now (rule G.is_open (G.lets gate.now))
        patience (reverse jobs.items)) }
    ensures known { IfErr result (λ i. i < length chart.now.instances) }
{
    jobs.reverse();
    let Gathered {
        answers,
        mut unstarted,
    } = in_scope(rt, chart, gate, patience, jobs, answers);
    match unstarted.pop() {
        Some(first) => Err(first.number),
        None => all_left(answers, back),
    }
}
