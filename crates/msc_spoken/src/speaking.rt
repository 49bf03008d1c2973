//! Names and labels of diagrams, as people read them.

ghost use Rattle.std.specs.Prelude.{◌≡◌, ◌≤◌, IfOk, encode_utf8_all, length};
ghost use Rattle.std.specs.List.{prefix_len, suffix_len};
ghost use Rattle.std.specs.Str.{chars};
ghost use Rattle.std.specs.String.{string_bytes};
ghost use Rattle.msc_spoken.specs.Speaking.{after_blanks, before_blanks, ends_word, is_blank};
ghost use Rattle.msc_spoken.specs.Speaking.{is_left_out, last_blanks, single_blanks};
ghost use Rattle.msc_spoken.specs.Speaking.{spoken_text, unquoted};

use crate::markup::without_markup;
use crate::reading::Notation;
use crate::showing::shown_characters;
use crate::text::text_of;
use std::alloc::{AllocError, Global};

/// The number of blanks at the beginning.
fn blanks_in_front(characters: &[char]) -> usize
    ensures length { result ≡ prefix_len is_blank characters.now }
    ensures within { result ≤ length characters.now }
{
    characters.iter().take_while(|c| **c == ' ').count()
}

/// The number of blanks at the end.
fn blanks_at_end(characters: &[char]) -> usize
    ensures length { result ≡ suffix_len is_blank characters.now }
    ensures within { result ≤ length characters.now }
{
    characters.iter().rev().take_while(|c| **c == ' ').count()
}

/// The characters without the blanks at the beginning.
fn after_blanks(characters: &[char]) -> &[char]
    ensures { result.now ≡ after_blanks characters.now }
{
    &characters[blanks_in_front(characters)..]
}

/// The characters without the blanks at the end.
pub fn before_blanks(characters: &[char]) -> &[char]
    ensures { result.now ≡ before_blanks characters.now }
{
    &characters[..characters.len() - blanks_at_end(characters)]
}

/// Whether the characters begin with a blank, or there are none.
fn ends_word(characters: &[char]) -> bool
    ensures { result ≡ ends_word characters.now }
{
    match characters {
        [] => true,
        [first, ..] => *first == ' ',
    }
}

/// Whether the first character is a blank before another blank, or before the end of the text.
fn is_left_out(characters: &[char]) -> bool
    ensures { result ≡ is_left_out characters.now }
{
    match characters {
        [] => false,
        [first, rest @ ..] => *first == ' ' && ends_word(rest),
    }
}

/// The characters with the last blank of each run of blanks, and without blanks at the end.
fn last_blanks(alloc: Global, characters: &[char]) -> Result<Vec<char>, AllocError>
    ensures { IfOk result (λ left. left.items ≡ last_blanks characters.now) }
{
    let mut left = Vec::with_capacity(alloc, characters.len())?;
    for i in 0..characters.len() {
        if !is_left_out(&characters[i..]) {
            left.push(characters[i])?;
        }
    }
    Ok(left)
}

/// The characters of a name or label as people read it.
#[tactic(auto, unfolding(crate::specs::Speaking::spoken_text, crate::specs::Speaking::single_blanks))]
fn spoken_characters(alloc: Global, bytes: &[u8]) -> Result<Vec<char>, AllocError>
    ensures { IfOk result (λ spoken. spoken.items ≡ spoken_text bytes.now) }
{
    let bytes = without_markup(alloc, bytes)?;
    let characters = Notation::Mermaid.characters(alloc, bytes.as_slice())?;
    let shown = shown_characters(alloc, characters.as_slice())?;
    last_blanks(alloc, after_blanks(shown.as_slice()))
}

/// The characters without one pair of double quotes around all of them, if there are more.
#[tactic(auto, unfolding(crate::specs::Speaking::unquoted))]
fn unquoted(characters: &[char]) -> &[char]
    ensures { result.now ≡ unquoted characters.now }
{
    match characters {
        ['"', quoted @ .., '"'] if !quoted.is_empty() => quoted,
        _ => characters,
    }
}

/// A name or label of a Mermaid diagram as people read it: a blank for each tag such as `<br/>` and
/// each escape such as `\n`, the character for each entity such as `#35;` or `#quot;`, each of
/// these characters as [`shown`](crate::shown) shows it, one blank for each run of blanks, and none
/// at the ends. What writes no character, as `#copy;` or `#1114112;`, stays. The only error is want
/// of memory.
pub fn spoken(alloc: Global, bytes: &[u8]) -> Result<String, AllocError>
    ensures bytes { IfOk result (λ text. string_bytes text
        ≡ encode_utf8_all (spoken_text bytes.now)) }
    ensures characters { IfOk result (λ text. chars (string_bytes text) ≡ spoken_text bytes.now) }
{
    let spoken = spoken_characters(alloc, bytes)?;
    text_of(alloc, spoken.as_slice())
}

/// The shown name of a line of a Mermaid diagram as people read it: as [`spoken`], without one pair
/// of double quotes around all of it, if there is more. The only error is want of memory.
pub fn spoken_name(alloc: Global, bytes: &[u8]) -> Result<String, AllocError>
    ensures bytes { IfOk result (λ text. string_bytes text
        ≡ encode_utf8_all (unquoted (spoken_text bytes.now))) }
    ensures characters { IfOk result (λ text. chars (string_bytes text)
        ≡ unquoted (spoken_text bytes.now)) }
{
    let spoken = spoken_characters(alloc, bytes)?;
    text_of(alloc, unquoted(spoken.as_slice()))
}
