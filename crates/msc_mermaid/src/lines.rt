//! The lines of a text and its columns.

ghost use Rattle.std.specs.Prelude.{◌≡◌, ◌≤◌, false, count_by, map, length, IfOk};
ghost use Rattle.msc_mermaid.specs.Lines.{behind_mark, further, is_counted, lines_behind, lines_of};
ghost use Rattle.msc_mermaid.specs.Lines.{position_of, start_on, starts_behind, starts_of};

use msc_place::Position;
use std::alloc::{AllocError, Global};

/// The text after its byte order mark, if it has one.
fn behind_mark(text: &[u8]) -> &[u8]
    ensures { result.now ≡ behind_mark text.now }
{
    if text.starts_with(&[239, 187, 191]) {
        return &text[3..];
    }
    text
}

/// The lines of a text after its byte order mark.
fn lines_behind(alloc: Global, text: &[u8]) -> Result<Vec<&[u8]>, AllocError>
    ensures { IfOk result (λ v. map (λ x. x.now) v.items ≡ lines_behind false text.now) }
{
    let mut lines = Vec::new(alloc);
    let mut start = 0;
    let mut cr = false;
    for i in 0..text.len() {
        let byte = text[i];
        if byte == b'\n' && cr {
            start = i + 1;
        } else if byte == b'\n' || byte == b'\r' {
            lines.push(&text[start..i])?;
            start = i + 1;
        }
        cr = byte == b'\r';
    }
    lines.push(&text[start..])?;
    Ok(lines)
}

/// The lines of a text, without their ends. The only error is that memory ran out.
pub fn lines_of(alloc: Global, text: &[u8]) -> Result<Vec<&[u8]>, AllocError>
    ensures { IfOk result (λ v. map (λ x. x.now) v.items ≡ lines_of text.now) }
{
    lines_behind(alloc, behind_mark(text))
}

/// The places at which the lines of a text begin that follows `before` bytes of another text.
fn starts_behind(alloc: Global, before: usize, text: &[u8]) -> Result<Vec<usize>, AllocError>
    requires { before ≤ 3 }
    ensures { IfOk result (λ v. v.items ≡ starts_behind before false text.now) }
{
    let mut starts = Vec::new(alloc);
    let mut start = before;
    let mut cr = false;
    for i in 0..text.len() {
        let byte = text[i];
        let next = before + i + 1;
        if byte == b'\n' && cr {
            start = next;
        } else if byte == b'\n' || byte == b'\r' {
            starts.push(start)?;
            start = next;
        }
        cr = byte == b'\r';
    }
    starts.push(start)?;
    Ok(starts)
}

/// The places at which the lines of a text begin: the number of bytes before each line. The only
/// error is that memory ran out.
pub fn starts_of(alloc: Global, text: &[u8]) -> Result<Vec<usize>, AllocError>
    ensures { IfOk result (λ v. v.items ≡ starts_of text.now) }
{
    let rest = behind_mark(text);
    starts_behind(alloc, text.len().saturating_sub(rest.len()), rest)
}

/// The place at which the line of a number, from 1, begins.
pub(crate) fn start_on(starts: &[usize], line: usize) -> usize
    ensures { result ≡ start_on starts.now line }
{
    let at = line.saturating_sub(1);
    if at < starts.len() { starts[at] } else { 0 }
}

/// The position `count` bytes after a position in a text.
#[tactic(auto, unfolding(crate::specs::Lines::further))]
pub(crate) fn further(place: usize, count: usize) -> usize
    ensures { result ≡ further place count }
{
    place.saturating_add(count)
}

/// The number of these bytes that columns count: all but continuation bytes of UTF-8.
pub fn counted(bytes: &[u8]) -> usize
    ensures value { result ≡ count_by is_counted bytes.now }
    ensures within { result ≤ length bytes.now }
{
    bytes
        .iter()
        .filter(|byte| **byte < 128 || **byte > 191)
        .count()
}

/// A line of a text: its number, from 1, and its bytes.
#[derive(Clone, Copy)]
pub(crate) struct Row<'t> {
    pub line: usize,
    pub bytes: &'t [u8],
}

impl Row<'_> {
    /// The position of these bytes, with which the line ends.
    pub(crate) fn position_of(self, rest: &[u8]) -> Position
        ensures { result ≡ position_of self.entry.line self.entry.bytes.now rest.now }
    {
        let front = self.bytes.len().saturating_sub(rest.len());
        Position {
            line: self.line,
            column: counted(&self.bytes[..front]) + 1,
        }
    }
}
