//! Why a text has no tokens.

ghost use Rattle.std.specs.Prelude.{◌≡◌};
ghost use Rattle.msc_lexer.specs.declared.fault.LexFault.TheVariants.{Memory};

use std::alloc::AllocFailed;
use thiserror::Error;

/// The first lexical fault of a text. Each place is that of the first byte of the faulty token or
/// note. The messages are the words of the printed lines, without number and place.
#[derive(Clone, Copy, Debug, PartialEq, Eq, Error)]
pub enum LexFault {
    /// The text has more than [`TEXT_LIMIT`](crate::TEXT_LIMIT) bytes. This fault precedes all
    /// others.
    #[error("text longer than 1048576 bytes")]
    TooLong,
    /// A byte here begins no token, note or white space.
    #[error("byte that begins no token")]
    BadByte(usize),
    /// A note begins here and has no end.
    #[error("note without end")]
    OpenNote(usize),
    /// A text begins here and has no end.
    #[error("text without end")]
    OpenText(usize),
    /// A name begins here and has more than [`NAME_LIMIT`](crate::NAME_LIMIT) bytes.
    #[error("name longer than 64 bytes")]
    LongName(usize),
    /// A growth of memory was refused.
    #[error("memory fault")]
    Memory,
}

impl<T: Drop> From<AllocFailed<T>> for LexFault {
    ghost from_gives = { λ _ e. e ≡ Memory };

    fn from(_e: AllocFailed<T>) -> LexFault {
        LexFault::Memory
    }
}
