//! How a mark names the other arrow of a race.

ghost use Rattle.std.specs.Prelude.{◌≡◌, IfOk, option_map};
ghost use Rattle.std.specs.List.{list_all, list_any};
ghost use Rattle.std.specs.Char.{is_ascii_digit};
ghost use Rattle.msc_arrow_marks.specs.Heads.{behind_blank, is_number, label_in, other_in};
ghost use Rattle.msc_arrow_marks.specs.Heads.{other_of};
ghost use Rattle.msc_arrow_marks.specs.Parts.{is_quote};

use crate::parts::is_quote;
use listed::Listed;
use std::alloc::{AllocError, Global};

/// How a mark names the other arrow of a race.
#[derive(Drop)]
pub enum OtherArrow {
    /// By its label, as it stands in the text. No byte of it is a double quote.
    Label(Listed<u8>),
    /// By its number, at least one decimal digit. Zeros may stand in front.
    Number(Listed<u8>),
}

/// Whether a byte is a double quote.
fn has_quote(bytes: &[u8]) -> bool
    ensures { result ≡ list_any is_quote bytes.now }
{
    bytes.iter().any(|byte| is_quote(*byte))
}

/// Whether all bytes are decimal digits.
fn are_digits(bytes: &[u8]) -> bool
    ensures { result ≡ list_all is_ascii_digit bytes.now }
{
    bytes.iter().all(|byte| byte.is_ascii_digit())
}

/// The label between two double quotes, if the text is one.
fn label_in(text: &[u8]) -> Option<&[u8]>
    ensures { option_map (λ label. label.now) result ≡ label_in text.now }
{
    match text {
        [b'"', label @ .., b'"'] if !has_quote(label) => Some(label),
        _ => None,
    }
}

/// Whether the text is a number.
fn is_number(text: &[u8]) -> bool
    ensures { result ≡ is_number text.now }
{
    !text.is_empty() && are_digits(text)
}

/// The text behind a blank, if one is in front.
pub(crate) fn behind_blank(part: &[u8]) -> Option<&[u8]>
    ensures { option_map (λ text. text.now) result ≡ behind_blank part.now }
{
    match part {
        [b' ', text @ ..] => Some(text),
        _ => None,
    }
}

/// The arrow that a text names, if it names one.
fn other_of(alloc: Global, text: &[u8]) -> Result<Option<OtherArrow>, AllocError>
    ensures { IfOk result (λ other. other ≡ other_of text.now) }
{
    if let Some(label) = label_in(text) {
        let label = Vec::from_slice(alloc, label)?;
        return Ok(Some(OtherArrow::Label(Listed::from_vec(label))));
    }
    if is_number(text) {
        let digits = Vec::from_slice(alloc, text)?;
        return Ok(Some(OtherArrow::Number(Listed::from_vec(digits))));
    }
    Ok(None)
}

/// The arrow that a part names: a blank and its name.
pub(crate) fn other_in(alloc: Global, part: &[u8]) -> Result<Option<OtherArrow>, AllocError>
    ensures { IfOk result (λ other. other ≡ other_in part.now) }
{
    match behind_blank(part) {
        Some(text) => other_of(alloc, text),
        None => Ok(None),
    }
}
