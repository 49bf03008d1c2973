//! Why a text is no supported diagram, and why a scenario has no chart.

ghost use Rattle.std.specs.Prelude.{◌≡◌, Some};
ghost use Rattle.msc_mermaid.specs.declared.fault.ImportFault.TheVariants.{Memory};
ghost use Rattle.msc_mermaid.specs.Expectations.{expectation};

use crate::head::Head;
use crate::row::Closer;
use msc_place::Position;
use std::alloc::{AllocError, AllocFailed};
use std::fmt;
use thiserror::Error;

/// The part that the language requires at the position of a fault.
#[derive(Clone, Copy, Debug, PartialEq, Eq)]
pub enum Expectation {
    /// The end of the front matter of a Mermaid diagram.
    Front,
    /// The end of a directive.
    Directive,
    /// The end of a description.
    Description,
    /// Nothing after such an end.
    LineEnd,
    /// Nothing after the shown name of a line.
    StatementEnd,
    /// A line with which a diagram of any language begins.
    AnyDiagram,
    /// The word with which a Mermaid diagram begins.
    Diagram,
    /// A statement.
    Statement,
    /// A name.
    Name,
    /// The label of an arrow.
    Label,
}

impl Expectation {
    /// The expected part, in words.
    fn words(self) -> &'static str
        ensures { result.now ≡ expectation self }
    {
        match self {
            Expectation::Front => "---",
            Expectation::Directive => "}%%",
            Expectation::Description => "}",
            Expectation::LineEnd => "the end of the line",
            Expectation::StatementEnd => "the end of the statement",
            Expectation::AnyDiagram => "a diagram",
            Expectation::Diagram => "sequenceDiagram",
            Expectation::Statement => "a statement",
            Expectation::Name => "a name",
            Expectation::Label => "a label",
        }
    }
}

/// Prints the expected part in the words of a printed fault.
impl fmt::Display for Expectation {
    ghost output = { λ e. Some (expectation e) };

    fn fmt<W: fmt::Write>(&self, f: &mut fmt::Formatter<W>) -> fmt::Result {
        f.write_str(self.words())
    }
}

/// The first fault of a text, or why a scenario has no chart. A position is one of the text: that
/// of the statement, unless the variant says otherwise. The messages are the words of the printed
/// lines, without number and line.
#[derive(Clone, Copy, Debug, PartialEq, Eq, Error)]
pub enum ImportFault {
    /// The text is too long. This fault precedes all others.
    #[error("text longer than 1048576 bytes")]
    TooLong,
    /// This part was expected: in the statement or, outside of all statements, at this position.
    #[error("expected {1}")]
    Expected(Position, Expectation),
    /// An arrow that is not supported.
    #[error("{1} is not supported")]
    Unsupported(Position, Head),
    /// An entity of HTML in a line of statements, if a browser reads the text first.
    #[error("entities of HTML are not supported")]
    Entity(Position),
    /// The innermost block without its end; the position is its beginning. This fault comes after
    /// all others of a text.
    #[error("block without end")]
    Unended(Position),
    /// The end of a block, or the word that begins its next branch, outside of such a block.
    #[error("{1} outside of its block")]
    Outside(Position, Closer),
    /// A line of Markdown outside of all blocks that begins a diagram.
    #[error("sequenceDiagram outside of its block")]
    Stray(Position),
    /// A block inside as many blocks as a diagram may nest.
    #[error("more than 10 blocks inside each other")]
    TooDeep(Position),
    /// One line more than a diagram may have.
    #[error("more than 32 instances")]
    TooManyLines(Position),
    /// The diagram has more scenarios than the given limit, which is this number.
    #[error("more than {0} scenarios")]
    TooManyScenarios(usize),
    /// The diagram has this number of scenarios, or more if it is one more than the greatest count,
    /// and no option selects one.
    #[error("{0} scenarios, say --choose")]
    Several(usize),
    /// A choice of the block at this position, from 1, is greater than the greatest one.
    #[error("choice {1} is more than {2}")]
    Choice(Position, usize, usize),
    /// More choices are given than blocks were met.
    #[error("{0} choices for {1} blocks")]
    TooManyChoices(usize, usize),
    /// One arrow more than a scenario may have.
    #[error("more than 1024 arrows")]
    TooManyArrows(Position),
    /// The branches of the block at this position are no coregion on a line of the diagram; the
    /// number of the line is from 0.
    #[error("parallel branches share line {1}")]
    Shared(Position, usize),
    /// The Markdown has no diagram of this number, from 1.
    #[error("no diagram {0}")]
    NoDiagram(usize),
    /// The Markdown has this number of diagrams, and no option selects one.
    #[error("{0} diagrams, say --fence")]
    SeveralDiagrams(usize),
    /// A growth of memory was refused.
    #[error("memory fault")]
    Memory,
}

impl From<AllocError> for ImportFault {
    ghost from_gives = { λ _ e. e ≡ Memory };

    fn from(_e: AllocError) -> ImportFault {
        ImportFault::Memory
    }
}

impl<T: Drop> From<AllocFailed<T>> for ImportFault {
    ghost from_gives = { λ _ e. e ≡ Memory };

    fn from(_e: AllocFailed<T>) -> ImportFault {
        ImportFault::Memory
    }
}
