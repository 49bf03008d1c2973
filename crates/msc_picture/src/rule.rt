//! The rules by which the event that is drawn next is chosen.

/// The rules for the next event; an earlier rule precedes a later one.
#[derive(Clone, Copy, Debug, PartialEq, Eq)]
pub enum Rule {
    /// It is the input of the last event.
    Answer,
    /// It is an input or an action.
    Rest,
    /// It is an output, and its input may come directly after it.
    Level,
    /// It is an output.
    Send,
}
