//! The explanation of a pair of events: why the first comes before the second, or a run in which it
//! does not.

use crate::cause::Cause;
use crate::why::Why;
use listed::Listed;
use msc_chart::Event;

/// Whether the first of two events is enforced before the second, and why.
#[derive(Drop)]
pub enum Reason {
    /// It is, and this shows it.
    Enforced(Why),
    /// It is not: a run that has the second event without the first before it; why the pair is a
    /// race, if it is one; and why the second is enforced before the first, if it is.
    Free(Listed<Event>, Option<Cause>, Option<Why>),
}
