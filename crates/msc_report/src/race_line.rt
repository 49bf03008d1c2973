//! The line of a race, made from the parts of its two events.
//!
//! Most parts are short. They are copied as blocks of a size that the compiler knows, which takes a
//! few instructions for each, into room that is reserved once. The bytes of a block that exceed its
//! part are overwritten by the next block, and dropped after the last.

ghost use Rattle.std.specs.Prelude.{◌≡◌, ◌+◌, ◌≤◌, ◌++◌, IsTrue, IfOk, OnOk, length, slice_range};
ghost use Rattle.std.specs.Prelude.{take};
ghost use Rattle.std.specs.List.{All};
ghost use Rattle.msc_report.specs.Spans.{text_at, with_parts, AllAreShort, AreShort, IsSpanIn};

use crate::event_texts::Span;
use std::alloc::AllocError;

/// The bytes of a block for a number, or the beginning of a line with a number.
const NUMBER: usize = 16;

/// The bytes of a block for the words of an event.
pub(crate) const WORDS: usize = 64;

/// The bytes of the four blocks of a race, or the room for ten numbers.
const ROOM: usize = 160;

/// Whether each part of a race of these two events fits into its block, and no block goes past the
/// bytes.
pub(crate) fn are_short(bytes: &[u8], one: &Span, two: &Span) -> bool
    requires one { IsSpanIn bytes.now one.now }
    requires two { IsSpanIn bytes.now two.now }
    ensures { IsTrue result → AreShort (length bytes.now) one.now two.now }
{
    one.colon - one.opening <= NUMBER
        && two.colon - two.number <= NUMBER
        && one.placed - one.first <= WORDS
        && two.end - two.second <= WORDS
        && bytes.len() - one.first >= WORDS
        && bytes.len() - two.second >= WORDS
}

/// Whether this holds for each two of these texts.
pub(crate) fn all_are_short(bytes: &[u8], spans: &[Span]) -> bool
    requires { All (IsSpanIn bytes.now) spans.now }
    ensures { IsTrue result → AllAreShort bytes.now spans.now }
{
    for span in spans {
        if !are_short(bytes, span, span) {
            return false;
        }
    }
    true
}

/// Puts the bytes from one place to another into a room, as a block of N bytes. It returns where
/// they end.
#[inline(always)]
fn print_block<const N: usize>(
    room: &mut [u8],
    at: usize,
    bytes: &[u8],
    from: usize,
    to: usize,
) -> usize
    requires rising { from ≤ to }
    requires short { to ≤ from + N }
    requires block { from + N ≤ length bytes.now }
    requires room { at + N ≤ length room.old }
    ensures end { result + from ≡ at + to }
    ensures size { length room.new ≡ length room.old }
    ensures put { take result room.new ≡ take at room.old ++ slice_range bytes.now from to }
{
    room[at..at + N].copy_from_slice(&bytes[from..from + N]);
    at + (to - from)
}

/// Appends the parts of a race to a page, as blocks. An error is a growth of memory that was
/// refused.
pub(crate) fn print_blocks(
    page: &mut Vec<u8>,
    bytes: &[u8],
    one: &Span,
    two: &Span,
) -> Result<(), AllocError>
    requires short { AreShort (length bytes.now) one.now two.now }
    requires one { IsSpanIn bytes.now one.now }
    requires two { IsSpanIn bytes.now two.now }
    ensures { OnOk result (page.new.items
        ≡ with_parts page.old.items (text_at bytes.now one.now) (text_at bytes.now two.now)) }
{
    let at = page.len();
    page.extend_from_slice(&[0; ROOM])?;
    let room = page.as_mut_slice();
    let at = print_block::<NUMBER>(room, at, bytes, one.opening, one.colon);
    let at = print_block::<NUMBER>(room, at, bytes, two.number, two.colon);
    let at = print_block::<WORDS>(room, at, bytes, one.first, one.placed);
    let at = print_block::<WORDS>(room, at, bytes, two.second, two.end);
    page.truncate(at);
    Ok(())
}

/// Appends the parts of a race to a page, however long they are. An error is a growth of memory
/// that was refused.
pub(crate) fn print_slices(
    page: &mut Vec<u8>,
    bytes: &[u8],
    one: &Span,
    two: &Span,
) -> Result<(), AllocError>
    requires one { IsSpanIn bytes.now one.now }
    requires two { IsSpanIn bytes.now two.now }
    ensures { OnOk result (page.new.items
        ≡ with_parts page.old.items (text_at bytes.now one.now) (text_at bytes.now two.now)) }
{
    page.extend_from_slice(&bytes[one.opening..one.colon])?;
    page.extend_from_slice(&bytes[two.number..two.colon])?;
    page.extend_from_slice(&bytes[one.first..one.placed])?;
    page.extend_from_slice(&bytes[two.second..two.end])?;
    Ok(())
}

/// Puts the number of an event after the first `at` bytes of a line, as a block if that does not
/// exceed the bytes. It returns where the number ends; what follows is room, which is reserved once
/// for many numbers. An error is a growth of memory that was refused.
#[inline(always)]
pub(crate) fn print_number(
    line: &mut Vec<u8>,
    at: usize,
    bytes: &[u8],
    span: &Span,
) -> Result<usize, AllocError>
    requires span { IsSpanIn bytes.now span.now }
    requires room { at ≤ length line.old.items }
    ensures within { IfOk result (λ end. end ≤ length line.new.items) }
    ensures put { IfOk result (λ end. take end line.new.items
        ≡ take at line.old.items ++ (text_at bytes.now span.now).number) }
{
    if span.colon - span.number > NUMBER || bytes.len() - span.number < NUMBER {
        line.truncate(at);
        line.extend_from_slice(&bytes[span.number..span.colon])?;
        return Ok(line.len());
    }
    if line.len() - at < NUMBER {
        line.extend_from_slice(&[0; ROOM])?;
    }
    let room = line.as_mut_slice();
    Ok(print_block::<NUMBER>(room, at, bytes, span.number, span.colon))
}
