//! The words of a mark, with blanks between them.

ghost use Rattle.std.specs.Prelude.{◌≡◌, ◌≤◌, map, length, IfOk};
ghost use Rattle.std.specs.List.{prefix_len, slice_split};
ghost use Rattle.msc_lexer.specs.Bytes.{is_run_byte};
ghost use Rattle.msc_mark.specs.Accepting.{ends_half};
ghost use Rattle.msc_mark.specs.Words.{closing_by, closing_of, is_blank, name_of};

use listed::Listed;
use std::alloc::{AllocError, Global};

/// What follows the letters, digits and underscores of a word.
#[derive(Clone, Copy, Debug, PartialEq, Eq)]
pub(crate) enum Closing {
    /// Nothing.
    Bare,
    /// A comma.
    Comma,
    /// A semicolon.
    Semicolon,
    /// Anything else; or the word does not begin with one of these.
    Other,
}

impl Closing {
    /// Whether it is a comma.
    pub(crate) fn is_comma(self) -> bool
        ensures { result ≡ ends_half self }
    {
        matches!(self, Closing::Comma)
    }
}

/// Whether names are made of this byte.
fn is_run_byte(byte: u8) -> bool
    ensures { result ≡ is_run_byte byte }
{
    byte.is_ascii_alphanumeric() || byte == b'_'
}

/// The number of letters, digits and underscores at the beginning of a word.
fn name_length(word: &[u8]) -> usize
    ensures length { result ≡ prefix_len is_run_byte word.now }
    ensures within { result ≤ length word.now }
{
    word.iter().take_while(|byte| is_run_byte(**byte)).count()
}

/// The letters, digits and underscores at the beginning of a word.
pub(crate) fn name_of(word: &[u8]) -> &[u8]
    ensures { result.now ≡ name_of word.now }
{
    &word[..name_length(word)]
}

/// What follows the name of a word, by the rest of it.
fn closing_by(rest: &[u8]) -> Closing
    ensures { result ≡ closing_by rest.now }
{
    if rest == "".as_bytes() {
        return Closing::Bare;
    }
    if rest == ",".as_bytes() {
        return Closing::Comma;
    }
    if rest == ";".as_bytes() {
        return Closing::Semicolon;
    }
    Closing::Other
}

/// What follows the name of a word.
pub(crate) fn closing_of(word: &[u8]) -> Closing
    ensures { result ≡ closing_of word.now }
{
    let length = name_length(word);
    if length == 0 {
        return Closing::Other;
    }
    closing_by(&word[length..])
}

/// The parts between the blanks.
fn parts(alloc: Global, bytes: &[u8]) -> Result<Vec<&[u8]>, AllocError>
    ensures { IfOk result (λ v. map (λ x. x.now) v.items ≡ slice_split is_blank bytes.now) }
{
    bytes.split(|byte| *byte == b' ').collect(alloc)
}

/// The words between the blanks.
pub(crate) fn words_of(alloc: Global, bytes: &[u8]) -> Result<Vec<Listed<u8>>, AllocError>
    ensures { IfOk result (λ words. words.items ≡ slice_split is_blank bytes.now) }
{
    let parts = parts(alloc, bytes)?;
    let mut words = Vec::new(alloc);
    for part in parts.as_slice() {
        words.push(Listed::from_vec(Vec::from_slice(alloc, part)?))?;
    }
    Ok(words)
}
