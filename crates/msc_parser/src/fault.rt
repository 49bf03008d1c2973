//! Why a text is no chart.

ghost use Rattle.std.specs.Prelude.{◌≡◌, Some};
ghost use Rattle.msc_parser.specs.declared.fault.ParseFault.TheVariants.{Memory};
ghost use Rattle.msc_parser.specs.Expectations.{expectation};

use msc_lexer::{LexFault, Word};
use std::alloc::{AllocError, AllocFailed};
use std::fmt;
use thiserror::Error;

/// The part of the grammar that was expected at the place of an error.
#[derive(Clone, Copy, Debug, PartialEq, Eq)]
pub enum What {
    /// `msc`, at the start of the text.
    Msc,
    /// A name.
    Name,
    /// The text of an action or of a comment.
    Text,
    /// The end of the statement: `;`, or a comment and `;`.
    End,
    /// A section, or `endmsc`; before the first section an `inst` statement too.
    Section,
    /// An event, a coregion or `endinstance`.
    Item,
    /// An event of a coregion, or `endconcurrent`.
    Event,
    /// `to`, before the address of an output.
    To,
    /// `from`, before the address of an input.
    From,
    /// A parameter, or the mark that continues or ends the list of parameters.
    Parameter,
    /// Nothing but the end of the text.
    Nothing,
}

impl What {
    /// The expected part, in words.
    fn words(self) -> &'static str
        ensures { result.now ≡ expectation self }
    {
        match self {
            What::Msc => "msc",
            What::Name => "a name",
            What::Text => "a text",
            What::End => "the end of the statement",
            What::Section => "a section",
            What::Item => "an item",
            What::Event => "an event",
            What::To => "to",
            What::From => "from",
            What::Parameter => "a parameter list",
            What::Nothing => "the end of the text",
        }
    }
}

/// Prints the expected part in the words of a printed fault.
impl fmt::Display for What {
    ghost output = { λ w. Some (expectation w) };

    fn fmt<W: fmt::Write>(&self, f: &mut fmt::Formatter<W>) -> fmt::Result {
        f.write_str(self.words())
    }
}

/// The first fault of a text. Each place is a byte place from 0: that of the first byte of the
/// unexpected token, or the length of the text if it ends too early. The messages are the words of
/// the printed lines, without number and place.
#[derive(Clone, Copy, Debug, PartialEq, Eq, Error)]
pub enum ParseFault {
    /// The text has no tokens. This fault precedes all faults of the grammar.
    #[error("{0}")]
    Lex(LexFault),
    /// A reserved word that this profile of Z.120 refuses is at a place at which no chart continues
    /// with it.
    #[error("{1} is not supported")]
    Unsupported(usize, Word),
    /// This part was expected here instead of the token at this place.
    #[error("expected {1}")]
    Expected(usize, What),
    /// A growth of memory was refused.
    #[error("memory fault")]
    Memory,
}

impl From<AllocError> for ParseFault {
    ghost from_gives = { λ _ e. e ≡ Memory };

    fn from(_e: AllocError) -> ParseFault {
        ParseFault::Memory
    }
}

impl<T: Drop> From<AllocFailed<T>> for ParseFault {
    ghost from_gives = { λ _ e. e ≡ Memory };

    fn from(_e: AllocFailed<T>) -> ParseFault {
        ParseFault::Memory
    }
}
