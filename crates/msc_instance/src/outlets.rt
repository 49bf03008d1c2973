//! The outlets of an instance.

ghost use Rattle.std.specs.Prelude.{◌≡◌, ◌<◌, length, map, get_or, IfSome, IsTrue, None};
ghost use Rattle.std.specs.List.{AllZip};
ghost use Rattle.msc_chart.specs.Lists.{occurs};
ghost use Rattle.msc_fifo.specs.Ends.{HasRoom, IsSpentClock};
ghost use Rattle.msc_execution.specs.Roles.{NumberedOutlet};
ghost use Rattle.msc_instance.specs.Active.{HasPut, IsAscending, IsClosedFrom};

use msc_fifo::Outlet;

/// The place of the outlet of a queue. The numbers of the queues ascend.
pub(crate) fn outlet_at(outlets: &[(u32, Outlet)], queue: u32) -> usize
    requires there { IsTrue (occurs (map (λ (o : NumberedOutlet). o.0) outlets.now) queue) }
    requires ascending { IsAscending (map (λ (o : NumberedOutlet). o.0) outlets.now) }
    ensures within { result < length outlets.now }
    ensures number { (o : NumberedOutlet) → (get_or outlets.now result o).0 ≡ queue }
{
    let mut low = 0;
    let mut high = outlets.len();
    while high - low > 1 {
        let middle = low + (high - low) / 2;
        if outlets[middle].0 <= queue {
            low = middle;
        } else {
            high = middle;
        }
    }
    low
}

/// Sends a message with this clock. Returns the clock after it, or none if the clock is spent.
pub(crate) fn put_one(outlet: &mut (u32, Outlet), m: u32, clock: u64) -> Option<u64>
    requires { HasRoom outlet.old.1 }
    ensures put { IfSome result (λ now. HasPut m clock now outlet.old outlet.new) }
    ensures spent { result ≡ None → IsSpentClock clock }
    ensures kept { result ≡ None → outlet.new ≡ outlet.old }
{
    match outlet.1.send(m, clock) {
        Ok(sent) => Some(sent.clock),
        Err(_) => None,
    }
}

/// Closes all.
pub(crate) fn close_all(outlets: &mut [(u32, Outlet)])
    ensures { AllZip IsClosedFrom outlets.old outlets.new }
{
    for outlet in outlets.iter_mut() {
        close_one(outlet);
    }
}

/// Closes one.
fn close_one(outlet: &mut (u32, Outlet))
    ensures { IsClosedFrom outlet.old outlet.new }
{
    outlet.1.close();
}
