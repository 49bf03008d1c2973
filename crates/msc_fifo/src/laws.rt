//! Laws of the ends of a queue, over their definitions only. The functions have no code: a caller
//! that needs a law calls its function.

ghost use Rattle.std.specs.Prelude.{◌≡◌};
ghost use Rattle.msc_fifo.specs.Laws.{NumberedOutletsAreWhole};

use crate::{QUOTA_LIMIT, SENDER_LIMIT};

/// Outlets of the inlet's queue that are numbered 0, 1 and so on, as many as there are senders, are
/// all outlets of that queue, each once.
pub fn numbered_outlets_are_whole()
    ensures { NumberedOutletsAreWhole }
{}

/// The limits of a queue: its senders, and the sum of their quotas.
pub fn limits_of_queues()
    ensures senders { SENDER_LIMIT ≡ 32 }
    ensures quotas { QUOTA_LIMIT ≡ 1024 }
{}
