//! Statements, the same for all languages.

use crate::row::{Closer, Kind};
use listed::Listed;

/// The fate of an arrow's message.
#[derive(Clone, Copy, Debug, PartialEq, Eq)]
pub enum Fate {
    /// Nobody takes it.
    Lost,
    /// It arrives.
    Arrives,
    /// Either: the arrow has a cross, and nothing gives the meaning of crosses.
    Either,
}

/// An arrow, from a line to a line, each by its identifier. The label is the text after the arrow,
/// any bytes.
#[derive(Drop)]
pub struct Arrow {
    pub from: Listed<u8>,
    pub to: Listed<u8>,
    pub label: Listed<u8>,
    pub fate: Fate,
    /// It has a head on both sides: each of the two lines sends the other a message.
    pub both: bool,
}

/// A statement.
#[derive(Drop)]
pub enum Statement {
    /// A line, by its identifier and its shown name, if it has one.
    Declares(Listed<u8>, Option<Listed<u8>>),
    /// An arrow.
    Says(Arrow),
    /// A block begins.
    Begins(Kind),
    /// A further branch of a block begins, or the block ends.
    Closes(Closer),
}

/// Consecutive bytes of a text: the number of bytes before the first of them, and the number before
/// the first byte after them.
#[derive(Clone, Copy, Debug, PartialEq, Eq)]
pub struct Span {
    pub first: usize,
    pub past: usize,
}

/// A statement and its beginning: its line and its column, both from 1. The number is that of the
/// arrow that it is, or of the next arrow after it, from 1. `whole` are its bytes in the text, and
/// `shown` those of its label, or of the shown name of its line; none, if it has neither.
#[derive(Drop)]
pub struct Placed {
    pub line: usize,
    pub column: usize,
    pub number: usize,
    pub statement: Statement,
    pub whole: Span,
    pub shown: Span,
}

/// A diagram: its lines, each by its identifier, in the order in which they are declared or used
/// first; the place in the text at which each of them is named first; its statements; and its
/// comments, in the order of the text. Each block among the statements has its end.
///
/// A comment goes from its `%%` to the last byte of its line that is no white space. It takes a
/// whole line, or the rest of the line after the word with which the diagram begins. A comment
/// after a statement is not listed.
#[derive(Drop)]
pub struct Diagram {
    pub lines: Listed<Listed<u8>>,
    pub names: Listed<Span>,
    pub statements: Listed<Placed>,
    pub comments: Listed<Span>,
}

/// The meaning of an arrow with a cross.
#[derive(Clone, Copy, Debug, PartialEq, Eq)]
pub enum Cross {
    /// Nobody takes its message.
    Lost,
    /// Its message arrives.
    Arrives,
}
