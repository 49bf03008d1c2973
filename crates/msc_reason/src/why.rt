//! Why an event is enforced before another.

use listed::Listed;
use msc_chart::Event;

/// Why an event is enforced before another, for a reader to follow step by step. A chain lists the
/// events after its first one; each is drawn below the one before it and is controlled, or is its
/// input.
#[derive(Drop)]
pub enum Why {
    /// A chain from the first event to the second.
    Straight(Listed<Event>),
    /// The rule of queues: an input of the queue of the first event, itself an input; a chain from
    /// the output of the first to the output of that input; and a chain from that input to the
    /// second event, empty if it is the second event.
    ByQueue(Event, Listed<Event>, Listed<Event>),
}
