//! A statement of a text that was refused, and its parts that notes name.

use crate::bytes::{
    arrow_length, bare, before_white, behind, between, first_word, front, past_white,
    statement_length,
};
use crate::near::lowered;
use msc_mermaid::is_head;
use std::alloc::{AllocError, Global};

/// The words at the beginning of statements that are no names.
const KEY_WORDS: &[&[u8]] = &[
    b"loop",
    b"alt",
    b"opt",
    b"par",
    b"par_over",
    b"critical",
    b"break",
    b"rect",
    b"box",
    b"else",
    b"and",
    b"option",
    b"participant",
    b"actor",
    b"create",
    b"destroy",
    b"end",
    b"note",
    b"over",
    b"off",
    b"activate",
    b"deactivate",
    b"autonumber",
    b"links",
    b"link",
    b"properties",
    b"details",
];

/// A statement: its place in the text; the line before it, and the line from it on; its bytes, and
/// the same with letters for entities; and the word that it begins with, in small letters.
#[derive(Drop)]
pub(crate) struct Statement<'t> {
    pub at: usize,
    pub before: &'t [u8],
    pub line: &'t [u8],
    pub held: &'t [u8],
    pub bare: Vec<u8>,
    pub word: Vec<u8>,
}

/// Where the line of a place begins.
pub(crate) fn line_start(text: &[u8], at: usize) -> usize {
    let mut start = 0;
    for (i, byte) in front(text, at).iter().enumerate() {
        if *byte == b'\n' {
            start = i.saturating_add(1);
        }
    }
    start
}

/// The rest of the line from a place on.
pub(crate) fn line_rest(text: &[u8], at: usize) -> &[u8] {
    let rest = behind(text, at);
    let mut length = 0usize;
    for byte in rest {
        if *byte == b'\n' {
            return front(rest, length);
        }
        length = length.saturating_add(1);
    }
    rest
}

impl<'t> Statement<'t> {
    /// The statement that begins at a place of a text.
    pub(crate) fn of(
        alloc: Global,
        text: &'t [u8],
        at: usize,
    ) -> Result<Statement<'t>, AllocError> {
        let line = line_rest(text, at);
        let piece = front(line, statement_length(line));
        let held = front(piece, before_white(piece));
        let bare = bare(alloc, held)?;
        let word = lowered(alloc, first_word(bare.as_slice()))?;
        Ok(Statement {
            at,
            before: between(text, line_start(text, at), at),
            line,
            held,
            bare,
            word,
        })
    }

    /// Whether it is the first statement of its line: before it there are only white space, marks
    /// of quotes, and the word that the diagram begins with.
    pub(crate) fn is_first(&self) -> bool {
        let mut at = past_white(self.before, 0);
        for i in 0..self.before.len() {
            if i == at && self.before.get(i) == Some(&b'>') {
                at = past_white(self.before, i.saturating_add(1));
            }
        }
        let rest = behind(self.before, at);
        rest.is_empty() || (is_head(rest) && before_white(rest) == 15)
    }

    /// Whether it begins with a key word.
    pub(crate) fn has_key_word(&self) -> bool {
        self.is_one_of(KEY_WORDS)
    }

    /// Whether the word that it begins with is one of these.
    pub(crate) fn is_one_of(&self, words: &[&[u8]]) -> bool {
        words.iter().any(|word| self.word.as_slice() == *word)
    }

    /// The part after its first word.
    pub(crate) fn behind_word(&self) -> &[u8] {
        behind(self.bare.as_slice(), self.word.len())
    }

    /// Whether an arrow follows its first word.
    pub(crate) fn has_arrow_next(&self) -> bool {
        let rest = self.behind_word();
        arrow_length(behind(rest, past_white(rest, 0))) > 0
    }
}
