//! The line of a place, with a mark below it.

ghost use Rattle.std.specs.Prelude.{◌≡◌, ◌≤◌, ◌+◌, length, take, drop, replicate};
ghost use Rattle.std.specs.Prelude.{IfOk};
ghost use Rattle.std.specs.List.{position_or_len};
ghost use Rattle.msc_place.specs.Positions.{is_line_end};
ghost use Rattle.msc_place.specs.Excerpts.{IsExcerpt};
ghost use Rattle.msc_place.specs.Excerpts.{shown, without_return, row_of, lines_of};

use crate::position::{begins_character, columns, line_start};
use memchr::memchr;
use std::alloc::{AllocError, Global};

/// The greatest number of columns that are shown of a line.
const SHOWN: usize = 100;

/// The greatest number of columns that are shown before the place.
const BEFORE: usize = 49;

/// The byte that is shown for a byte: itself, a blank for a tab, and `?` for a byte that can't be
/// printed.
fn shown(byte: u8) -> u8
    ensures { result ≡ shown byte }
{
    match byte {
        b'\t' => b' ',
        b' '..=b'~' => byte,
        _ => b'?',
    }
}

/// The place of the end of a line, before its LF.
fn line_end(text: &[u8], at: usize) -> usize
    requires { at ≤ length text.now }
    ensures end { result ≡ at + position_or_len (is_line_end) (drop at text.now) }
    ensures within { result ≤ length text.now }
{
    match memchr(b'\n', &text[at..]) {
        Some(length) => at + length,
        None => text.len(),
    }
}

/// A line without a CR at its end.
fn without_return(line: &[u8]) -> &[u8]
    ensures { result.now ≡ without_return line.now }
{
    if line.ends_with(b"\r") {
        return &line[..line.len() - 1];
    }
    line
}

/// The columns of a line that are shown, from one on.
fn window(alloc: Global, line: &[u8], first: usize) -> Result<Vec<u8>, AllocError>
    ensures { IfOk result (λ row. row.items ≡ take SHOWN (drop first (row_of line.now))) }
{
    line.iter()
        .filter(|byte| begins_character(**byte))
        .map(|byte| shown(*byte))
        .skip(first)
        .take(SHOWN)
        .collect(alloc)
}

/// `count` blanks.
fn blanks(alloc: Global, count: usize) -> Result<Vec<u8>, AllocError>
    ensures { IfOk result (λ bytes. bytes.items ≡ replicate count 32) }
{
    vec![in alloc; b' '; count]
}

/// The columns of a line that are shown around one, and a line with a mark below that column.
fn marked(alloc: Global, line: &[u8], before: usize) -> Result<Vec<u8>, AllocError>
    ensures { IfOk result (λ lines. lines.items ≡ lines_of (row_of line.now) before) }
{
    let first = before.saturating_sub(BEFORE);
    let caret = before.min(columns(line)).saturating_sub(first);
    let mut lines = Vec::from_slice(alloc, b"  ")?;
    lines.extend_from_slice(&window(alloc, line, first)?)?;
    lines.extend_from_slice(b"\n  ")?;
    lines.extend_from_slice(&blanks(alloc, caret)?)?;
    lines.extend_from_slice(b"^\n")?;
    Ok(lines)
}

/// The line of a place after two blanks, and a line with `^` below the place, each with its LF.
///
/// Each byte is one of 32 to 126, or LF: a tab is a blank, and any other byte is `?`. A
/// continuation byte of UTF-8 is left out, and so is a CR at the line's end. Of a long line 100
/// columns are shown, from the 49th before the place on. The only error is want of memory.
pub fn excerpt(alloc: Global, text: &[u8], at: usize) -> Result<Vec<u8>, AllocError>
    requires { at ≤ length text.now }
    ensures { IfOk result (λ lines. IsExcerpt text.now at lines.items) }
{
    let start = line_start(&text[..at]);
    let line = without_return(&text[start..line_end(text, at)]);
    marked(alloc, line, columns(&text[start..at]))
}
