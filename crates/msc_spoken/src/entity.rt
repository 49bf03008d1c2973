//! Entities of Mermaid: `#`, a word of letters and digits, and `;`. They write a character.

ghost use Rattle.std.specs.Prelude.{◌≡◌};
ghost use Rattle.std.specs.Str.{all_ascii_digits};
ghost use Rattle.msc_spoken.specs.Entities.{entity, entity_character, is_number};
ghost use Rattle.msc_spoken.specs.Entities.{named_character, number_of};

use crate::front::{begins, word_length};
use std::str;

/// The greatest number of digits in an entity.
const DIGITS: usize = 7;

/// Whether all bytes are decimal digits.
fn are_digits(word: &[u8]) -> bool
    ensures { result ≡ all_ascii_digits word.now }
{
    word.iter().all(|byte| byte.is_ascii_digit())
}

/// Whether the word is one to seven decimal digits.
fn is_number(word: &[u8]) -> bool
    ensures { result ≡ is_number word.now }
{
    !word.is_empty() && word.len() <= DIGITS && are_digits(word)
}

/// The number that a word of one to seven decimal digits writes.
fn number(word: &[u8]) -> Option<u32>
    ensures { result ≡ number_of word.now }
{
    if !is_number(word) {
        return None;
    }
    match str::from_utf8(word) {
        Ok(digits) => digits.parse().ok(),
        Err(_) => None,
    }
}

/// The character with this name.
fn named_character(word: &[u8]) -> Option<char>
    ensures { result ≡ named_character word.now }
{
    if word == "quot".as_bytes() {
        Some('"')
    } else if word == "amp".as_bytes() {
        Some('&')
    } else if word == "lt".as_bytes() {
        Some('<')
    } else if word == "gt".as_bytes() {
        Some('>')
    } else if word == "nbsp".as_bytes() {
        Some('\u{A0}')
    } else if word == "infin".as_bytes() {
        Some('\u{221E}')
    } else {
        None
    }
}

/// The character that a word between `#` and `;` writes.
fn entity_character(word: &[u8]) -> Option<char>
    ensures { result ≡ entity_character word.now }
{
    match number(word) {
        Some(number) => char::from_u32(number),
        None => named_character(word),
    }
}

/// The character of the entity at the front of the bytes, and the number of its bytes after the
/// `#`, if there is an entity.
#[tactic(auto, unfolding(crate::specs::Entities::entity))]
pub(crate) fn entity(bytes: &[u8]) -> Option<(char, usize)>
    ensures { result ≡ entity bytes.now }
{
    if !begins(bytes, b'#') {
        return None;
    }
    let rest = &bytes[1..];
    let length = word_length(rest);
    if !begins(&rest[length..], b';') {
        return None;
    }
    let character = entity_character(&rest[..length])?;
    Some((character, length + 1))
}
