//! Fresh ends for all instances of a chart: each queue is made, and its ends are handed out.

ghost use Rattle.std.specs.Prelude.{◌≡◌, ℕ, ◌*◌, ◌<◌, ◌≤◌, length, map, filter, sum, All, IfOk};
ghost use Rattle.std.specs.Prelude.{OnOk, Some, slice_get, nat_lt};
ghost use Rattle.msc_fifo.specs.Ends.{new_outlets, new_inlet};
ghost use Rattle.msc_execution.specs.Roles.{IsFit, IsWiring, role};
ghost use Rattle.msc_chart.specs.Orders.{queue_bound};
ghost use Rattle.msc_instance.specs.Handing.{AreCounted, AreHandedOut, AreReceivers, AreUnder};
ghost use Rattle.msc_instance.specs.Handing.{AreWiredBelow, ends_at, senders_among};
ghost use Rattle.msc_instance.specs.declared.ends.InstanceEnds.{InstanceEnds};
ghost use Rattle.msc_instance.specs.Views.{ends_of};
ghost use Rattle.msc_execution.specs.Fits.{no_ends};

use crate::counting::count;
use crate::ends::InstanceEnds;
use msc_chart::laws::queues_are_bounded;
use msc_chart::{Chart, Queues, Wiring};
use msc_execution::laws::{wiring_grows, wirings_fit};
use msc_fifo::{Inlet, Outlet, QUOTA_LIMIT, QueueFault, SENDER_LIMIT, queue};
use std::alloc::{AllocError, Global};

/// No ends yet for `instances` instances.
fn without_ends(
    alloc: Global,
    instances: u32,
    queues: Queues,
) -> Result<Vec<InstanceEnds>, AllocError>
    ensures many { IfOk result (λ all. length all.items ≡ instances) }
    ensures under { IfOk result (λ all. AreUnder queues all.items) }
    ensures none { IfOk result (λ all. (i : ℕ) → ends_at all.items i ≡ no_ends) }
{
    let mut all = Vec::new(alloc);
    for _ in 0..instances {
        all.push(InstanceEnds {
            queues,
            outlets: Vec::new(alloc),
            inlets: Vec::new(alloc),
        })?;
    }
    Ok(all)
}

/// The quotas of the instances that send to the queue, in their order.
fn senders_quotas(alloc: Global, quotas: &[u32]) -> Result<Vec<u32>, AllocError>
    ensures { IfOk result (λ own. own.items ≡ filter (nat_lt 0) quotas.now) }
{
    let mut own = Vec::new(alloc);
    for quota in quotas {
        if *quota > 0 {
            own.push(*quota)?;
        }
    }
    Ok(own)
}

/// Gives each instance with a quota the next outlet, and the inlet to the receiver.
fn hand_out(
    all: &mut [InstanceEnds],
    q: u32,
    quotas: &[u32],
    receiver: u32,
    mut outlets: Vec<Outlet>,
    inlet: Inlet,
) -> Result<(), AllocError>
    requires each { length quotas.now ≡ length all.old }
    requires receiver { receiver < length all.old }
    requires some { 0 < senders_among quotas.now }
    requires outlets { outlets.items ≡ new_outlets inlet.queue 0 (filter (nat_lt 0) quotas.now) }
    requires inlet { inlet ≡ new_inlet inlet.queue (senders_among quotas.now) }
    ensures { OnOk result (AreHandedOut q quotas.now receiver all.old all.new) }
{
    outlets.reverse();
    for i in 0..quotas.len() {
        if quotas[i] > 0 {
            let Some(outlet) = outlets.pop() else {
                unreachable!()
            };
            all[i].outlets.push((q, outlet))?;
        }
    }
    all[receiver as usize].inlets.push((q, inlet))?;
    Ok(())
}

/// Makes queue `q` and hands out its ends, if it has a sender.
fn wire_queue(
    alloc: Global,
    all: &mut [InstanceEnds],
    q: u32,
    quotas: &[u32],
    receiver: u32,
) -> Result<(), AllocError>
    requires each { length quotas.now ≡ length all.old }
    requires receiver { 0 < senders_among quotas.now → receiver < length all.old }
    requires few { length quotas.now ≤ SENDER_LIMIT }
    requires sum { sum quotas.now ≤ QUOTA_LIMIT }
    ensures { OnOk result (AreHandedOut q quotas.now receiver all.old all.new) }
{
    let own = senders_quotas(alloc, quotas)?;
    if own.is_empty() {
        return Ok(());
    }
    match queue(alloc, own.as_slice()) {
        Ok((outlets, inlet)) => hand_out(all, q, quotas, receiver, outlets, inlet),
        Err(QueueFault::Memory) => Err(AllocError),
        Err(QueueFault::NoSender) => unreachable!(),
        Err(QueueFault::TooLarge) => unreachable!(),
    }
}

/// Makes each queue and hands out its ends.
fn wire_each(
    alloc: Global,
    chart: &Chart,
    queues: Queues,
    counts: &[u32],
    receivers: &[u32],
    all: &mut [InstanceEnds],
) -> Result<(), AllocError>
    requires counts { AreCounted queues chart.now (length chart.now.messages) counts.now }
    requires rows { length counts.now
        ≡ queue_bound queues chart.now * length chart.now.instances }
    requires receivers { AreReceivers queues chart.now (length chart.now.messages) receivers.now }
    requires each { length receivers.now ≡ queue_bound queues chart.now }
    requires none { AreWiredBelow queues chart.now 0 all.old }
    ensures { OnOk result (AreWiredBelow queues chart.now (queue_bound queues chart.now) all.new) }
{
    wiring_grows();
    queues_are_bounded();
    chart.facts();
    let instances = chart.instances() as usize;
    let bound = Wiring { chart, queues }.queue_count();
    for q in 0..bound {
        let start = q as usize * instances;
        let quotas = &counts[start..start + instances];
        wire_queue(alloc, all, q, quotas, receivers[q as usize])?;
    }
    Ok(())
}

/// Fresh ends for each instance of a chart under an architecture: one queue for each number that
/// has a message, with an outlet for each sender, which has room for its messages, and the inlet
/// for the receiver. An error is a growth of memory that was refused.
pub fn wire(alloc: Global, chart: &Chart, queues: Queues) -> Result<Vec<InstanceEnds>, AllocError>
    ensures wiring { IfOk result (λ all. IsWiring queues chart.now (map ends_of all.items)) }
    ensures architecture { IfOk result (λ all. All (λ e. e.queues ≡ queues) all.items) }
    ensures fit { IfOk result (λ all. (i : ℕ) (e : InstanceEnds) → slice_get all.items i ≡ Some e
        → IsFit (role queues chart.now i) (ends_of e)) }
{
    wiring_grows();
    wirings_fit();
    chart.facts();
    let instances = chart.instances();
    let bound = Wiring { chart, queues }.queue_count() as usize;
    let mut counts = Vec::from_elem(alloc, 0u32, bound * instances as usize)?;
    let mut receivers = Vec::from_elem(alloc, 0u32, bound)?;
    count(
        chart,
        queues,
        counts.as_mut_slice(),
        receivers.as_mut_slice(),
    );
    let mut all = without_ends(alloc, instances, queues)?;
    wire_each(
        alloc,
        chart,
        queues,
        counts.as_slice(),
        receivers.as_slice(),
        all.as_mut_slice(),
    )?;
    Ok(all)
}
