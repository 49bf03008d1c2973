//! Reads comments.

ghost use Rattle.std.specs.Prelude.{◌≡◌, ◌≤◌, length, nat_lt};
ghost use Rattle.std.specs.List.{list_any, prefix_len};
ghost use Rattle.msc_mark.specs.Readings.{has_reason, ReadsComment};
ghost use Rattle.msc_mark.specs.Words.{head_of, is_head_byte};

use crate::fault::MarkFault;
use crate::mark::Mark;
use crate::place::place_behind;
use crate::word::words_of;
use listed::Listed;
use std::alloc::Global;

/// The number of bytes before the first colon.
fn head_length(bytes: &[u8]) -> usize
    ensures length { result ≡ prefix_len is_head_byte bytes.now }
    ensures within { result ≤ length bytes.now }
{
    bytes.iter().take_while(|byte| **byte != b':').count()
}

/// The bytes before the first colon.
fn head_of(bytes: &[u8]) -> &[u8]
    ensures { result.now ≡ head_of bytes.now }
{
    &bytes[..head_length(bytes)]
}

/// Whether some byte is above 32.
fn has_print(bytes: &[u8]) -> bool
    ensures { result ≡ list_any (λ b. nat_lt 32 b) bytes.now }
{
    bytes.iter().any(|byte| *byte > 32)
}

/// Whether a byte after the first colon is above 32.
fn has_reason(bytes: &[u8]) -> bool
    ensures { result ≡ has_reason bytes.now }
{
    let colon = head_length(bytes);
    if colon == bytes.len() {
        return false;
    }
    has_print(&bytes[colon + 1..])
}

/// The mark in a comment of an event's statement, if it is one. Its text begins at `place` and has
/// these bytes.
pub(crate) fn read_comment(
    alloc: Global,
    event: usize,
    place: usize,
    bytes: &[u8],
) -> Result<Option<Mark>, MarkFault>
    ensures { ReadsComment event place bytes.now result }
{
    if !bytes.starts_with("race ok".as_bytes()) {
        return Ok(None);
    }
    let words = words_of(alloc, head_of(bytes))?;
    if !place_behind(words.as_slice()).is_complete() {
        return Err(MarkFault::Part(place));
    }
    if !has_reason(bytes) {
        return Err(MarkFault::Reason(place));
    }
    Ok(Some(Mark {
        event,
        place,
        words: Listed::from_vec(words),
    }))
}
