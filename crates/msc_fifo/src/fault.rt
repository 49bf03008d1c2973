//! Why a queue is not made, and why a message is not sent.

use thiserror::Error;

/// Why no queue was made. The first of the first two variants that applies is returned, and
/// `Memory` only if neither applies.
#[derive(Clone, Copy, Debug, PartialEq, Eq, Error)]
pub enum QueueFault {
    /// No quota was given.
    #[error("a queue has no sender")]
    NoSender,
    /// There are more than 32 quotas, or their sum is over 1,024 messages.
    #[error("a queue has too many senders or messages")]
    TooLarge,
    /// A growth of memory was refused.
    #[error("memory fault")]
    Memory,
}

/// Why a message was not sent. The first of these variants that applies is returned. Each hands the
/// message back.
#[derive(Clone, Copy, Debug, PartialEq, Eq, Error)]
pub enum SendFault {
    /// The outlet is closed, whatever remains of its quota.
    #[error("message {0} was not sent: the outlet is closed")]
    Closed(u32),
    /// The outlet is open and has put its quota.
    #[error("message {0} was not sent: the outlet has put its quota")]
    Full(u32),
    /// The outlet is open and below its quota, and the clock handed in is the greatest.
    #[error("message {0} was not sent: the clock is spent")]
    ClockSpent(u32),
}
