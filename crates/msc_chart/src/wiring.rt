//! A chart under an architecture.

ghost use Rattle.std.specs.Prelude.{◌≡◌, ℕ, ◌*◌, ◌<◌, ◌≤◌, false, length};
ghost use Rattle.msc_chart.specs.Charts.{is_local};
ghost use Rattle.msc_chart.specs.Orders.{bound_alone, number_alone, number_among, queue};
ghost use Rattle.msc_chart.specs.Orders.{queue_bound, queue_number, receiver_at, sender_at};
ghost use Rattle.msc_chart.specs.Wirings.{size, wired_by};

use crate::chart::Chart;
use crate::event::Event;
use crate::queue::{LinkKind, Queues};
use crate::{INSTANCE_LIMIT, MESSAGE_LIMIT, QUEUE_LIMIT};

/// The number of the queue of message `m`, from a sender to a receiver, of this number of
/// instances, if all links are of this kind.
fn number_alone(kind: LinkKind, instances: u32, sender: u32, receiver: u32, m: u32) -> u32
    requires few { instances ≤ INSTANCE_LIMIT }
    requires sender { sender < instances }
    requires receiver { receiver < instances }
    ensures { result ≡ number_alone kind instances sender receiver m }
{
    match kind {
        LinkKind::Pair => sender * instances + receiver,
        LinkKind::Mailbox => receiver,
        LinkKind::Single => m,
    }
}

/// The same if links may differ, and this one is of this kind.
fn number_among(kind: LinkKind, instances: u32, sender: u32, receiver: u32, m: u32) -> u32
    requires few { instances ≤ INSTANCE_LIMIT }
    requires sender { sender < instances }
    requires receiver { receiver < instances }
    requires message { m < MESSAGE_LIMIT }
    ensures { result ≡ number_among kind instances sender receiver m }
{
    match kind {
        LinkKind::Pair => sender * instances + receiver,
        LinkKind::Mailbox => instances * instances + receiver,
        LinkKind::Single => instances * instances + instances + m,
    }
}

/// The number of the queue of message `m`, from a sender to a receiver, of this number of
/// instances.
pub(crate) fn queue_number(
    queues: &Queues,
    instances: u32,
    sender: u32,
    receiver: u32,
    m: u32,
) -> u32
    requires few { instances ≤ INSTANCE_LIMIT }
    requires sender { sender < instances }
    requires receiver { receiver < instances }
    requires message { m < MESSAGE_LIMIT }
    ensures { result ≡ queue_number queues.now instances sender receiver m }
{
    match queues {
        Queues::Uniform(kind) => number_alone(*kind, instances, sender, receiver, m),
        Queues::Mixed(links) => {
            let kind = links.kind(sender, receiver);
            number_among(kind, instances, sender, receiver, m)
        }
    }
}

/// A chart under an architecture. Its calls take no memory.
#[derive(Clone, Copy)]
pub struct Wiring<'a> {
    pub chart: &'a Chart,
    pub queues: Queues,
}

impl Wiring<'_> {
    /// The instance that sends the message of event `e`, or the instance of a local event.
    pub fn sender(&self, e: Event) -> u32
        requires { e < size self.now }
        ensures value { result ≡ sender_at self.now.chart.now.events e }
        ensures known { result < length self.now.chart.now.instances }
    {
        self.chart.facts();
        if self.chart.is_output(e) {
            self.chart.instance_of(e)
        } else {
            self.chart.instance_of(self.chart.other_end(e))
        }
    }

    /// The instance that takes the message of event `e`, or the instance of a local event.
    pub fn receiver(&self, e: Event) -> u32
        requires { e < size self.now }
        ensures value { result ≡ receiver_at self.now.chart.now.events e }
        ensures known { result < length self.now.chart.now.instances }
    {
        self.chart.facts();
        if !self.chart.is_output(e) {
            self.chart.instance_of(e)
        } else {
            self.chart.instance_of(self.chart.other_end(e))
        }
    }

    /// The queue of the message of event `e`, an output or an input.
    pub fn queue(&self, e: Event) -> u32
        requires known { e < size self.now }
        requires message { is_local self.now.chart.now.events e ≡ false }
        ensures { result ≡ queue (wired_by self.now) e }
    {
        self.chart.facts();
        let instances = self.chart.instances();
        let m = self.chart.message_of(e);
        queue_number(&self.queues, instances, self.sender(e), self.receiver(e), m)
    }

    /// A number past all queue numbers, if all links are of this kind.
    fn count_alone(&self, kind: LinkKind) -> u32
        ensures { result ≡ bound_alone kind self.now.chart.now }
    {
        self.chart.facts();
        let instances = self.chart.instances();
        match kind {
            LinkKind::Pair => instances * instances,
            LinkKind::Mailbox => instances,
            LinkKind::Single => self.chart.messages(),
        }
    }

    /// A number past all queue numbers.
    pub fn queue_count(&self) -> u32
        ensures value { result ≡ queue_bound self.now.queues self.now.chart.now }
        ensures past { (e : ℕ) → e < size self.now → is_local self.now.chart.now.events e ≡ false
            → queue (wired_by self.now) e < result }
        ensures few { result ≤ QUEUE_LIMIT }
    {
        self.chart.facts();
        let instances = self.chart.instances();
        match &self.queues {
            Queues::Uniform(kind) => self.count_alone(*kind),
            Queues::Mixed(_) => instances * instances + instances + self.chart.messages(),
        }
    }
}
