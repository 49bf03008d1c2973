//! Why the marks of a text can't be read.

ghost use Rattle.std.specs.Prelude.{◌≡◌};
ghost use Rattle.msc_mark.specs.declared.fault.MarkFault.TheVariants.{Memory};

use std::alloc::{AllocError, AllocFailed};
use thiserror::Error;

/// A comment of an event's statement that begins with `race ok` and is no mark. The place is that
/// of the apostrophe at which the comment's text begins. The messages are the words of the printed
/// lines, without number and place.
#[derive(Clone, Copy, Debug, PartialEq, Eq, Error)]
pub enum MarkFault {
    /// What follows `race ok` is no part of a mark.
    #[error("expected in, with or a reason")]
    Part(usize),
    /// Only the reason is missing.
    #[error("no reason")]
    Reason(usize),
    /// A growth of memory was refused.
    #[error("memory fault")]
    Memory,
}

impl<T: Drop> From<AllocFailed<T>> for MarkFault {
    ghost from_gives = { λ _ e. e ≡ Memory };

    fn from(_e: AllocFailed<T>) -> MarkFault {
        MarkFault::Memory
    }
}

impl From<AllocError> for MarkFault {
    ghost from_gives = { λ _ e. e ≡ Memory };

    fn from(_e: AllocError) -> MarkFault {
        MarkFault::Memory
    }
}
