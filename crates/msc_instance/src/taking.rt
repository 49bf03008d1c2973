//! Takes of an instance.

ghost use Rattle.std.specs.Prelude.{◌≡◌, ◌<◌, ◌↔◌, true, length, IsTrue};
ghost use Rattle.msc_chart.specs.Orders.{queue_of};
ghost use Rattle.msc_instance.specs.Active.{HasGot, IsSound, logged_by};
ghost use Rattle.msc_instance.specs.Gates.{AreLet, EndsAtInput};
ghost use Rattle.msc_instance.specs.Taking.{TookOne};

use crate::active::{Active, Post};
use crate::gate::Gate;
use msc_chart::{Chart, Queues};
use msc_fifo::{Inlet, Taken};

/// The result of a take of an instance.
#[derive(Clone, Copy)]
pub(crate) enum TakeStep {
    Nothing,
    Ended,
    Logged,
    Stopped,
    Foreign(u32),
}

/// Takes once.
fn take_one(inlet: &mut (u32, Inlet), clock: u64) -> Taken
    ensures { HasGot clock result inlet.old inlet.new }
{
    inlet.1.take(clock)
}

/// Whether the chart has a message in a queue.
fn is_of(chart: &Chart, queues: Queues, queue: u32, m: u32) -> bool
    ensures { IsTrue result
        ↔ ((m < length chart.now.messages) × (queue_of queues chart.now m ≡ queue)) }
{
    m < chart.messages() && chart.queue(m, queues) == queue
}

impl Active {
    /// Takes from inlet `k`. A message is logged as its input, and then the gate is called.
    pub fn take<G: Gate>(&mut self, chart: &Chart, post: &Post, gate: &G, k: usize) -> TakeStep
        requires sound { IsSound chart.now post.now self.old }
        requires inlet { k < length self.old.inlets.items }
        ensures took { TookOne chart.now post.now k self.old self.new result }
        ensures open { G.is_open ≡ true → result ≡ TakeStep.Stopped → ⊥ }
        ensures inlets { length self.new.inlets.items ≡ length self.old.inlets.items }
        ensures asked { (result ≡ TakeStep.Stopped → ⊥)
            → AreLet (G.lets gate.now) post.now.instance (logged_by self.old)
            → AreLet (G.lets gate.now) post.now.instance (logged_by self.new) }
        ensures last { result ≡ TakeStep.Stopped
            → AreLet (G.lets gate.now) post.now.instance (logged_by self.old)
            → EndsAtInput (G.lets gate.now) chart.now post.now.instance (logged_by self.new) }
    {
        let queue = self.inlets[k].0;
        let (m, clock) = match take_one(&mut self.inlets[k], self.clock) {
            Taken::Nothing => return TakeStep::Nothing,
            Taken::Ended(_) => return TakeStep::Ended,
            Taken::Message(_, m, _, clock) => (m, clock),
        };
        if !is_of(chart, post.queues, queue, m) {
            return TakeStep::Foreign(m);
        }
        let e = chart.input_of(m);
        if self.journal.has(e) {
            return TakeStep::Foreign(m);
        }
        self.clock = clock;
        self.journal.note(e);
        if gate.at(post.instance, e) {
            TakeStep::Logged
        } else {
            TakeStep::Stopped
        }
    }
}
