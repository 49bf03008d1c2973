//! The characters of a line as people read them, and their columns.

ghost use Rattle.std.specs.Prelude.{◌≡◌, ◌+◌, ◌-◌, IfOk, drop, length, max, take};
ghost use Rattle.std.specs.List.{suffix_len};
ghost use Rattle.std.specs.Str.{chars};
ghost use Rattle.msc_spoken.specs.Cutting.{columns_of};
ghost use Rattle.msc_spoken.specs.Showing.{shown_text};
ghost use Rattle.msc_diagnostic.specs.Columns.{character_size, column_of, columns_in, is_blank, trimmed};

use crate::source::{front, rest};
use bstr::decode_utf8;
use msc_spoken::{columns, shown, width};
use std::alloc::{AllocError, Global};

/// A sum of columns. An error says that it does not fit, so no memory has room for as many.
pub(crate) fn sum(columns: usize, more: usize) -> Result<usize, AllocError>
    ensures { IfOk result (λ sum. sum ≡ columns + more) }
{
    match columns.checked_add(more) {
        Some(sum) => Ok(sum),
        None => Err(AllocError),
    }
}

/// The characters of a text. The only error is want of memory.
#[tactic(auto, using(std::proofs::lemmas::Str::chars_from_encodes))]
fn characters_of(alloc: Global, text: &str) -> Result<Vec<char>, AllocError>
    ensures { IfOk result (λ characters. characters.items ≡ chars text.now) }
{
    text.chars().collect(alloc)
}

/// The characters that are shown of a line. The only error is want of memory.
pub(crate) fn shown_characters(alloc: Global, bytes: &[u8]) -> Result<Vec<char>, AllocError>
    ensures { IfOk result (λ shown. shown.items ≡ shown_text bytes.now) }
{
    let text = shown(alloc, bytes)?;
    characters_of(alloc, text.as_str())
}

/// The columns of what is shown of a line. The only error is want of memory.
fn shown_columns(alloc: Global, bytes: &[u8]) -> Result<usize, AllocError>
    ensures { IfOk result (λ columns. columns ≡ columns_of (shown_text bytes.now)) }
{
    let shown = shown(alloc, bytes)?;
    Ok(columns(shown.as_str()))
}

/// The columns of characters. The only error is want of memory.
pub(crate) fn columns_of(characters: &[char]) -> Result<usize, AllocError>
    ensures { IfOk result (λ columns. columns ≡ columns_of characters.now) }
{
    let mut columns = 0;
    for character in characters {
        columns = sum(columns, width(*character))?;
    }
    Ok(columns)
}

/// The columns before a byte of a line: those of what is shown before it, and one for each byte
/// after the end of the line. The only error is want of memory.
pub(crate) fn column_of(alloc: Global, line: &[u8], first: usize) -> Result<usize, AllocError>
    ensures { IfOk result (λ column. column ≡ column_of line.now first) }
{
    let before = shown_columns(alloc, front(line, first))?;
    sum(before, first.saturating_sub(line.len()))
}

/// The number of bytes of the character at the front. A byte that is part of no character is one.
#[tactic(auto, unfolding(msc_spoken::specs::Reading::decoded_front))]
fn character_size(bytes: &[u8]) -> usize
    ensures { result ≡ character_size bytes.now }
{
    match decode_utf8(bytes) {
        (Some(_), size) => size.max(1),
        (None, _) => 1,
    }
}

/// The columns of a part of a line: those of what is shown of it, with its first character whole,
/// and at least one. The only error is want of memory.
pub(crate) fn columns_in(
    alloc: Global,
    line: &[u8],
    first: usize,
    count: usize,
) -> Result<usize, AllocError>
    ensures { IfOk result (λ columns. columns ≡ columns_in line.now first count) }
{
    let tail = rest(line, first);
    let part = front(tail, count.max(character_size(tail)));
    Ok(shown_columns(alloc, part)?.max(1))
}

/// The number of blanks and tabs at the end.
fn blanks_at_end(bytes: &[u8]) -> usize
    ensures { result ≡ suffix_len is_blank bytes.now }
{
    bytes
        .iter()
        .rev()
        .take_while(|byte| **byte == b' ' || **byte == b'\t')
        .count()
}

/// The number of bytes of a part of a line that ends before this length, without the blanks and
/// tabs at its end, and at least 1.
pub(crate) fn trimmed(line: &[u8], first: usize, length: usize) -> usize
    ensures { result ≡ trimmed line.now first length }
{
    let part = front(rest(line, first), length);
    let blanks = blanks_at_end(part);
    part.len().saturating_sub(blanks).max(1)
}
