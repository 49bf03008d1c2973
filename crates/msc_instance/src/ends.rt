//! The ends of an instance's queues, and the parts that the instance leaves.

use msc_chart::{Event, Queues};
use msc_ending::End;
use msc_fifo::{Inlet, Outlet};

/// The ends of the queues of an instance under an architecture, each with the number of its queue,
/// ascending.
#[derive(Drop)]
pub struct InstanceEnds {
    /// The architecture.
    pub queues: Queues,
    /// An outlet for each queue to which the instance sends.
    pub outlets: Vec<(u32, Outlet)>,
    /// An inlet for each queue from which it takes.
    pub inlets: Vec<(u32, Inlet)>,
}

/// The parts that an instance leaves.
#[derive(Drop)]
pub struct InstanceEnd {
    /// The events that it logged, in order.
    pub log: Vec<Event>,
    /// Its ends, in their places; the outlets are closed.
    pub ends: InstanceEnds,
    /// How it ended.
    pub end: End,
}
