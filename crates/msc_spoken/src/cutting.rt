//! Columns of a terminal, and texts that are cut to fit.

ghost use Rattle.std.specs.Prelude.{◌≡◌, ◌≤◌, IfOk, encode_utf8_all, length};
ghost use Rattle.std.specs.Str.{chars};
ghost use Rattle.std.specs.String.{string_bytes};
ghost use Rattle.msc_spoken.specs.Cutting.{columns_of, cut_text, fitting, width_of};

use crate::speaking::before_blanks;
use crate::text::text_of;
use std::alloc::{AllocError, Global};
use unicode_width::UnicodeWidthChar;

/// The greatest number of columns of a text that is not cut.
const COLUMNS: usize = 40;

/// The number of columns of a terminal that a character takes, by Unicode's East Asian Width: a
/// control and a nonspacing mark take none, and a wide character takes two.
#[tactic(auto, unfolding(crate::specs::Cutting::width_of))]
pub fn width(character: char) -> usize
    ensures value { result ≡ width_of character }
    ensures bound { result ≤ 3 }
{
    character.width().unwrap_or(0)
}

/// The number of columns of a terminal that a text takes: the sum of those of its characters. It
/// takes no memory.
pub fn columns(text: &str) -> usize
    ensures { result ≡ columns_of (chars text.now) }
{
    text.chars().map(width).sum()
}

/// The number of characters at the front that fit whole into `room` columns of a terminal.
pub fn fitting(room: usize, characters: &[char]) -> usize
    ensures value { result ≡ fitting room characters.now }
    ensures within { result ≤ length characters.now }
{
    let mut left = room;
    for i in 0..characters.len() {
        let width = width(characters[i]);
        if width > left {
            return i;
        }
        left -= width;
    }
    characters.len()
}

/// The characters of a text that is cut to fit.
fn cut_characters(alloc: Global, characters: &[char]) -> Result<Vec<char>, AllocError>
    ensures { IfOk result (λ cut. cut.items ≡ cut_text characters.now) }
{
    let count = fitting(COLUMNS, characters);
    if count == characters.len() {
        return Vec::from_slice(alloc, characters);
    }
    let mut cut = Vec::from_slice(alloc, before_blanks(&characters[..count]))?;
    cut.extend_from_slice(&['.', '.', '.'])?;
    Ok(cut)
}

/// Cuts a text of more than 40 columns: it becomes the characters at its front that fit whole into
/// 40 columns, without the blanks at their end, and `...`. Any other text stays as it is. The only
/// error is want of memory.
pub fn cut(alloc: Global, text: &str) -> Result<String, AllocError>
    ensures bytes { IfOk result (λ cut. string_bytes cut
        ≡ encode_utf8_all (cut_text (chars text.now))) }
    ensures characters { IfOk result (λ cut. chars (string_bytes cut)
        ≡ cut_text (chars text.now)) }
{
    let characters: Vec<char> = text.chars().collect(alloc)?;
    let cut = cut_characters(alloc, characters.as_slice())?;
    text_of(alloc, cut.as_slice())
}
