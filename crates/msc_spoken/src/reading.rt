//! The characters of a text.

ghost use Rattle.std.specs.Prelude.{◌≡◌, ◌<◌, length, IfOk};
ghost use Rattle.msc_spoken.specs.Reading.{characters_of, decoded_front, read_front};

use crate::entity::entity;
use bstr::decode_utf8;
use std::alloc::{AllocError, Global};

/// How characters are written in a text.
#[derive(Clone, Copy)]
pub(crate) enum Notation {
    /// As they are.
    Plain,
    /// As they are, or as entities of Mermaid.
    Mermaid,
}

/// The character at the front of the bytes, and the number of its bytes after the first: `?` for a
/// byte that is part of no character.
#[tactic(auto, unfolding(crate::specs::Reading::decoded_front))]
fn decoded_front(bytes: &[u8]) -> (char, usize)
    ensures { result ≡ decoded_front bytes.now }
{
    match decode_utf8(bytes) {
        (Some(character), size) => (character, size.saturating_sub(1)),
        (None, _) => ('?', 0),
    }
}

impl Notation {
    /// The character at the front of the bytes, and the number of its bytes after the first.
    #[tactic(auto, unfolding(crate::specs::Reading::read_front))]
    fn read_front(self, bytes: &[u8]) -> (char, usize)
        ensures { result ≡ read_front self bytes.now }
    {
        match self {
            Notation::Plain => decoded_front(bytes),
            Notation::Mermaid => match entity(bytes) {
                Some(found) => found,
                None => decoded_front(bytes),
            },
        }
    }

    /// The characters of a text. The only error is want of memory.
    pub(crate) fn characters(self, alloc: Global, bytes: &[u8]) -> Result<Vec<char>, AllocError>
        ensures { IfOk result (λ characters. characters.items ≡ characters_of self bytes.now) }
    {
        let mut characters = Vec::with_capacity(alloc, bytes.len())?;
        let mut more = 0;
        for i in 0..bytes.len() {
            if more > 0 {
                more -= 1;
            } else {
                let front = self.read_front(&bytes[i..]);
                characters.push(front.0)?;
                more = front.1;
            }
        }
        Ok(characters)
    }
}
