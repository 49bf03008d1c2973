//! The claim of a sender in its queue.

use crate::entry::Entry;

/// A place of a queue that a sender claimed. No call returns one, and no end keeps one at run time;
/// contracts use them for an outlet's claims.
#[derive(Clone, Copy, Debug, PartialEq, Eq)]
pub struct Claim {
    /// The place, from 0.
    pub place: u64,
    /// The entry for which it was claimed.
    pub entry: Entry,
    /// The offer of the sender for the clock of a message: the clock that it handed in, plus one.
    /// An end mark makes no offer, and has 0 here.
    pub offer: u64,
    /// The clock of the place, 0 for an end mark.
    pub clock: u64,
}
