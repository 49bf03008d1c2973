//! How the run of an instance ends.

/// How the run of an instance ended.
#[derive(Clone, Copy, Debug, PartialEq, Eq)]
pub enum End {
    /// All events of its line are logged.
    Finished,
    /// Some event is not logged, and every sender of its queues has ended.
    Starved,
    /// Some event is not logged, and this number of rounds of takes in a row have found nothing.
    Impatient,
    /// The gate refused an event, or the instance's clock was spent.
    Stopped,
    /// A message came that is not in its queue in the chart, or that was taken before.
    Foreign(u32),
}
