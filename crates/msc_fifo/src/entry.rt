//! The entries of a queue, and the result of a take.

/// An entry of a queue: a message with the number of its sender, or a sender's end mark.
#[derive(Clone, Copy, Debug, PartialEq, Eq)]
pub enum Entry {
    /// The sender, from 0, and its message.
    Message(u32, u32),
    /// The sender, from 0, that puts no further entry.
    Ended(u32),
}

/// The result of a take: the entry that was first in the queue, or that there was none.
#[derive(Clone, Copy, Debug, PartialEq, Eq)]
pub enum Taken {
    /// The sender, from 0, its message, the place of the message in the queue, from 0, and the
    /// taker's clock: the greater of the clock that it handed in and the clock of the place.
    Message(u32, u32, u32, u64),
    /// The sender, from 0, that puts no further entry.
    Ended(u32),
    /// The queue was empty.
    Nothing,
}
