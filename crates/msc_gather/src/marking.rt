//! The events of logs, marked: each on its line and once, a controlled event after all events drawn
//! before it, an input with its output.

ghost use Rattle.std.specs.Prelude.{◌<◌, ◌^◌, ◌↔◌, ◌≡◌, ◌≤◌, [], Err, get_or, IfOk, IsTrue};
ghost use Rattle.std.specs.Prelude.{length, OnOk, ℕ};
ghost use Rattle.msc_chart.specs.Wirings.{size, wired_by};
ghost use Rattle.msc_gather.specs.Held.{log_lists, HasLineLogs, HasLogs, HasMarks};
ghost use Rattle.msc_gather.specs.Marks.{AreMarkedBeside, HasOutput, IsFirstOpen, IsLineFrom};
ghost use Rattle.msc_gather.specs.Marks.{IsLineLog, IsUnmarked, MayBeMarked};
ghost use Rattle.msc_gather.specs.Schedule.{IsSeated};
ghost use Rattle.msc_gather.specs.declared.fault.GatherFault.TheVariants.{NoMerge};

use crate::fault::GatherFault;
use msc_chart::{Event, Wiring};
use std::alloc::Global;

/// The log of instance `i`.
pub fn log_at(logs: &[Vec<Event>], i: u32) -> &[Event]
    requires { i < length logs.now }
    ensures { result.now ≡ get_or (log_lists logs.now) i [] }
{
    logs[i as usize].as_slice()
}

/// The first number from `start` on that is not marked, or the number of marks.
fn first_open(marks: &[bool], start: u32) -> u32
    requires within { start ≤ length marks.now }
    requires few { length marks.now < 2 ^ 32 }
    ensures { IsFirstOpen marks.now start result }
{
    let count = marks.len() as u32;
    for x in start..count {
        if !marks[x as usize] {
            return x;
        }
    }
    count
}

/// Whether the log of line `i`, whose events so far are marked, may continue with `e`. Here `front`
/// is the first event from the start of the line on that is not marked.
fn may_be_marked(w: &Wiring, i: u32, marks: &[bool], start: Event, front: Event, e: Event) -> bool
    requires long { length marks.now ≡ size w.now }
    requires line { IsLineFrom (wired_by w.now) i start }
    requires front { IsFirstOpen marks.now start front }
    ensures { IsTrue result ↔ MayBeMarked (wired_by w.now) i marks.now e }
{
    if e >= w.chart.events() {
        return false;
    }
    if w.chart.instance_of(e) != i {
        return false;
    }
    if marks[e as usize] {
        return false;
    }
    if !w.chart.is_controlled(e) {
        return true;
    }
    if front >= w.chart.events() {
        return true;
    }
    !w.chart.before(front, e)
}

/// Marks the events of a log of line `i`, up to the first that may not be in it there.
fn mark_log(w: &Wiring, i: u32, log: &[Event], marks: &mut [bool]) -> bool
    requires instance { i < length w.now.chart.now.instances }
    requires long { length marks.old ≡ size w.now }
    requires open { IsUnmarked (wired_by w.now) i marks.old }
    ensures told { IsTrue result ↔ IsLineLog (wired_by w.now) i log.now }
    ensures marked { IsTrue result → AreMarkedBeside marks.old marks.new log.now }
{
    w.chart.facts();
    let start = w.chart.line(i).0;
    let mut front = first_open(marks, start);
    for e in log {
        if !may_be_marked(w, i, marks, start, front, *e) {
            return false;
        }
        marks[*e as usize] = true;
        front = first_open(marks, front);
    }
    true
}

/// The events of the logs, marked, if each log is one of its line.
fn marks_of_lines(alloc: Global, w: &Wiring, logs: &[Vec<Event>]) -> Result<Vec<bool>, GatherFault>
    requires seated { IsSeated (wired_by w.now) (length logs.now) }
    requires many { length logs.now ≡ length w.now.chart.now.instances }
    ensures logs { OnOk result (HasLineLogs w.now logs.now) }
    ensures marks { IfOk result (λ marks. HasMarks w.now logs.now marks.items) }
    ensures strange { result ≡ Err NoMerge → HasLineLogs w.now logs.now → ⊥ }
{
    let instances = w.chart.instances();
    let mut marks = vec![in alloc; false; w.chart.events() as usize]?;
    for i in 0..instances {
        if !mark_log(w, i, log_at(logs, i), &mut marks) {
            return Err(GatherFault::NoMerge);
        }
    }
    Ok(marks)
}

/// Whether the output of `r` is marked, if `r` is an input and marked.
fn has_output(w: &Wiring, marks: &[bool], r: Event) -> bool
    requires long { length marks.now ≡ size w.now }
    requires known { r < size w.now }
    ensures { IsTrue result ↔ HasOutput (wired_by w.now) marks.now r }
{
    if w.chart.is_controlled(r) {
        return true;
    }
    !marks[r as usize] || marks[w.chart.other_end(r) as usize]
}

/// Whether each marked input has its output marked.
fn have_outputs(w: &Wiring, marks: &[bool]) -> bool
    requires long { length marks.now ≡ size w.now }
    ensures { IsTrue result ↔ ((r : ℕ) → r < size w.now → HasOutput (wired_by w.now) marks.now r) }
{
    for r in 0..w.chart.events() {
        if !has_output(w, marks, r) {
            return false;
        }
    }
    true
}

/// The events of the logs, marked, if they are logs of the chart.
pub fn marks_of(alloc: Global, w: &Wiring, logs: &[Vec<Event>]) -> Result<Vec<bool>, GatherFault>
    requires seated { IsSeated (wired_by w.now) (length logs.now) }
    requires many { length logs.now ≡ length w.now.chart.now.instances }
    ensures logs { OnOk result (HasLogs w.now logs.now) }
    ensures marks { IfOk result (λ marks. HasMarks w.now logs.now marks.items) }
    ensures strange { result ≡ Err NoMerge → HasLogs w.now logs.now → ⊥ }
{
    let marks = marks_of_lines(alloc, w, logs)?;
    if !have_outputs(w, &marks) {
        return Err(GatherFault::NoMerge);
    }
    Ok(marks)
}
