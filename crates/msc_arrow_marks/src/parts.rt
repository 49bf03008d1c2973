//! Texts in parts between separators: between all, or between those that are not in double quotes.

ghost use Rattle.std.specs.Prelude.{◌≡◌, ◌≤◌, IfOk, drop, false, length, map};
ghost use Rattle.msc_arrow_marks.specs.Parts.{is_quote, open_length, open_parts, quoted_after};
ghost use Rattle.msc_arrow_marks.specs.Parts.{pieces, separates};

use std::alloc::{AllocError, Global};

/// The bytes behind the first `count`, or none if there are fewer.
pub(crate) fn behind(bytes: &[u8], count: usize) -> &[u8]
    ensures { result.now ≡ drop count bytes.now }
{
    if count > bytes.len() {
        return &[];
    }
    &bytes[count..]
}

/// The pieces between all separators.
pub(crate) fn pieces(alloc: Global, separator: u8, text: &[u8]) -> Result<Vec<&[u8]>, AllocError>
    ensures { IfOk result (λ parts.
        map (λ part. part.now) parts.items ≡ pieces separator text.now) }
{
    text.split(|byte| *byte == separator).collect(alloc)
}

/// Whether the byte is a double quote.
pub(crate) fn is_quote(byte: u8) -> bool
    ensures { result ≡ is_quote byte }
{
    byte == b'"'
}

/// Whether what follows a byte is between quotes, if the byte itself is or not.
fn quoted_after(quoted: bool, byte: u8) -> bool
    ensures { result ≡ quoted_after quoted byte }
{
    if is_quote(byte) { !quoted } else { quoted }
}

/// Whether the byte is the separator, and not between quotes.
fn separates(separator: u8, quoted: bool, byte: u8) -> bool
    ensures { result ≡ separates separator quoted byte }
{
    byte == separator && !quoted
}

/// The number of bytes before the first separator that is not between quotes; that of all bytes if
/// there is none.
pub(crate) fn open_length(separator: u8, bytes: &[u8]) -> usize
    ensures length { result ≡ open_length separator false bytes.now }
    ensures within { result ≤ length bytes.now }
{
    let mut quoted = false;
    for i in 0..bytes.len() {
        if separates(separator, quoted, bytes[i]) {
            return i;
        }
        quoted = quoted_after(quoted, bytes[i]);
    }
    bytes.len()
}

/// The parts between the separators that are not between quotes.
pub(crate) fn open_parts(
    alloc: Global,
    separator: u8,
    bytes: &[u8],
) -> Result<Vec<&[u8]>, AllocError>
    ensures { IfOk result (λ parts.
        map (λ part. part.now) parts.items ≡ open_parts separator bytes.now) }
{
    let mut parts = Vec::new(alloc);
    let mut quoted = false;
    let mut start = 0;
    for i in 0..bytes.len() {
        if separates(separator, quoted, bytes[i]) {
            parts.push(&bytes[start..i])?;
            start = i + 1;
        }
        quoted = quoted_after(quoted, bytes[i]);
    }
    parts.push(&bytes[start..])?;
    Ok(parts)
}
