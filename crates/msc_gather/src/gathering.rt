//! From logs to the least run that has them as its lines.

ghost use Rattle.std.specs.Prelude.{◌<◌, ◌≡◌, Err, false, IfOk, IsTrue, length, map, ℕ};
ghost use Rattle.msc_chart.specs.Orders.{wired};
ghost use Rattle.msc_chart.specs.Runs.{HasNoMerge};
ghost use Rattle.msc_gather.specs.Gathering.{IsGathered};
ghost use Rattle.msc_gather.specs.Marks.{is_marked};
ghost use Rattle.msc_gather.specs.declared.fault.GatherFault.TheVariants.{NoMerge};

use crate::fault::GatherFault;
use crate::laws::charts_are_seated;
use crate::linking::links_of;
use crate::marking::marks_of;
use crate::merging::merged;
use msc_chart::{Chart, Event, Queues, Wiring};
use std::alloc::Global;

/// Whether each marked event is done.
fn are_done(marks: &[bool], done: &[bool]) -> bool
    requires { length marks.now ≡ length done.now }
    ensures all { IsTrue result → (e : ℕ) → e < length marks.now → IsTrue (is_marked marks.now e)
        → IsTrue (is_marked done.now e) }
    ensures some { result ≡ false → (e : ℕ) × (e < length marks.now)
        × IsTrue (is_marked marks.now e) × (is_marked done.now e ≡ false) }
{
    for e in 0..marks.len() {
        if marks[e] && !done[e] {
            return false;
        }
    }
    true
}

/// The run of the chart that has these logs as its lines; if there are several, the least of them,
/// event by event. There is a log for each instance, by its number. `NoMerge` is returned only if
/// no run has these logs, `Memory` if a growth of memory was refused.
pub fn gather(
    alloc: Global,
    chart: &Chart,
    queues: Queues,
    logs: &[Vec<Event>],
) -> Result<Vec<Event>, GatherFault>
    ensures run { IfOk result (λ events. IsGathered (wired queues chart.now)
        (length chart.now.instances) (map (λ v. v.items) logs.now) events.items) }
    ensures no_merge { result ≡ Err NoMerge → HasNoMerge (wired queues chart.now)
        (length chart.now.instances) (map (λ v. v.items) logs.now) }
{
    charts_are_seated();
    chart.facts();
    if logs.len() != chart.instances() as usize {
        return Err(GatherFault::NoMerge);
    }
    let wiring = Wiring { chart, queues };
    let marks = marks_of(alloc, &wiring, logs)?;
    let links = links_of(alloc, &wiring, logs, &marks)?;
    let merge = merged(alloc, &wiring, logs, &links)?;
    if !are_done(&marks, &merge.done) {
        return Err(GatherFault::NoMerge);
    }
    Ok(merge.past)
}
