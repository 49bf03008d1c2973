//! Lines and columns.

ghost use Rattle.std.specs.Prelude.{◌≡◌, ℕ, List, ◌+◌, ◌≤◌, ◌++◌, length, count_by};
ghost use Rattle.msc_place.specs.Positions.{EndsAt, IsPosition};
ghost use Rattle.msc_place.specs.Positions.{is_line_end, begins_character, BeginsLine};

use memchr::memrchr;

/// The line and the column of a place in a text, both from 1.
#[derive(Clone, Copy, Debug, PartialEq, Eq)]
pub struct Position {
    pub line: usize,
    pub column: usize,
}

/// Whether a byte begins a character: all do but the continuation bytes of UTF-8.
pub(crate) fn begins_character(byte: u8) -> bool
    ensures { result ≡ begins_character byte }
{
    byte < 128 || 191 < byte
}

/// The place of the last line of the bytes.
pub(crate) fn line_start(before: &[u8]) -> usize
    ensures { BeginsLine before.now result }
{
    match memrchr(b'\n', before) {
        Some(end) => end + 1,
        None => 0,
    }
}

/// The number of lines that end in the bytes.
fn line_ends(above: &[u8]) -> usize
    ensures count { result ≡ count_by (is_line_end) above.now }
    ensures within { result ≤ length above.now }
{
    above.iter().filter(|byte| **byte == b'\n').count()
}

/// The number of columns of the bytes of a line.
pub(crate) fn columns(line: &[u8]) -> usize
    ensures count { result ≡ count_by begins_character line.now }
    ensures within { result ≤ length line.now }
{
    line.iter().filter(|byte| begins_character(**byte)).count()
}

impl Position {
    /// The line and the column of a place, both from 1. Only LF ends a line, and a column is a byte
    /// that is no continuation byte of UTF-8. It takes no memory.
    pub fn of(text: &[u8], at: usize) -> Position
        requires { at ≤ length text.now }
        ensures { IsPosition text.now at result.line result.column }
    {
        let before = &text[..at];
        let start = line_start(before);
        Position {
            line: line_ends(&before[..start]) + 1,
            column: columns(&before[start..]) + 1,
        }
    }

    /// The position after these bytes, which begin at this one.
    pub(crate) fn moved(self, bytes: &[u8]) -> Position
        requires line { self.line + length bytes.now ≤ usize.MAX }
        requires column { self.column + length bytes.now ≤ usize.MAX }
        requires first { 1 ≤ self.column }
        ensures { (before : List ℕ) → EndsAt before self.line self.column
            → EndsAt (before ++ bytes.now) result.line result.column }
    {
        let start = line_start(bytes);
        let column = if start == 0 { self.column } else { 1 };
        Position {
            line: self.line + line_ends(&bytes[..start]),
            column: column + columns(&bytes[start..]),
        }
    }
}
