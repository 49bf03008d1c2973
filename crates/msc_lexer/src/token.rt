//! Tokens: the parts of a text other than white space and notes.

use crate::word::Word;

/// The kind of a token.
#[derive(Clone, Copy, Debug, PartialEq, Eq)]
pub enum Kind {
    /// A reserved word, in capital or small letters.
    Word(Word),
    /// A name: a run of letters, digits and underscores that is no reserved word.
    Name,
    /// A text between apostrophes.
    Text,
    Semicolon,
    Comma,
    Colon,
    LeftParen,
    RightParen,
}

/// A token of a text. `start` is the place of its first byte, `end` the place past its last.
#[derive(Clone, Copy, Debug, PartialEq, Eq)]
pub struct Token {
    pub kind: Kind,
    pub start: u32,
    pub end: u32,
}
