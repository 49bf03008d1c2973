//! The numbers of the queues of a chart's messages, computed once for each event.

ghost use Rattle.std.specs.Prelude.{◌≡◌, ◌<◌, false, IfOk};
ghost use Rattle.msc_chart.specs.Charts.{is_local};
ghost use Rattle.msc_chart.specs.Orders.{queue};
ghost use Rattle.msc_chart.specs.Wirings.{size, wired_by};
ghost use Rattle.msc_ready.specs.QueueNumbers.{AreQueueNumbers};

use msc_chart::{Event, Wiring};
use std::alloc::{AllocError, Global};

/// The number of the queue of the message of event `x`, or 0 for a local event.
fn queue_number(wiring: &Wiring, x: Event) -> u32
    requires { x < size wiring.now }
    ensures { is_local wiring.now.chart.now.events x ≡ false
        → result ≡ queue (wired_by wiring.now) x }
{
    if wiring.chart.is_local(x) {
        return 0;
    }
    wiring.queue(x)
}

/// The number of the queue of the message of each event, or 0 for a local event. An error is a
/// growth of memory that was refused.
pub(crate) fn queue_numbers_of(alloc: Global, wiring: &Wiring) -> Result<Vec<u32>, AllocError>
    ensures { IfOk result (λ numbers. AreQueueNumbers (wired_by wiring.now) numbers.items) }
{
    let mut numbers = Vec::new(alloc);
    for x in 0..wiring.chart.events() {
        numbers.push(queue_number(wiring, x))?;
    }
    Ok(numbers)
}
