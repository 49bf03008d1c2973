//! The number of messages from each sender through each queue, counted in one pass.

ghost use Rattle.std.specs.Prelude.{◌≡◌, ℕ, ◌*◌, length, get_or};
ghost use Rattle.msc_chart.specs.Orders.{queue_bound};
ghost use Rattle.msc_instance.specs.Handing.{AreCounted, AreReceivers};

use msc_chart::laws::{events_have_queues, queue_numbers_are_bounded, queues_are_bounded};
use msc_chart::{Chart, Queues};

/// Counts the messages of each queue by their senders, in rows, and notes each queue's receiver.
pub(crate) fn count(chart: &Chart, queues: Queues, counts: &mut [u32], receivers: &mut [u32])
    requires zero { (k : ℕ) → get_or counts.old k 0 ≡ 0 }
    requires counts { length counts.old
        ≡ queue_bound queues chart.now * length chart.now.instances }
    requires receivers { length receivers.old ≡ queue_bound queues chart.now }
    ensures counts { AreCounted queues chart.now (length chart.now.messages) counts.new }
    ensures receivers { AreReceivers queues chart.now (length chart.now.messages) receivers.new }
{
    queues_are_bounded();
    queue_numbers_are_bounded();
    events_have_queues();
    chart.facts();
    let instances = chart.instances() as usize;
    for m in 0..chart.messages() {
        let q = chart.queue(m, queues) as usize;
        counts[q * instances + chart.sender(m) as usize] += 1;
        receivers[q] = chart.receiver(m);
    }
}
