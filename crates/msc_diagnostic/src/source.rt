//! The lines of a text.

ghost use Rattle.std.specs.Prelude.{◌≡◌, ◌≤◌, IfOk, Option, length, drop, take, slice_index};
ghost use Rattle.std.specs.Option.{option_copied};
ghost use Rattle.msc_diagnostic.specs.Lines.{begins_line, ends_line, line_bytes, line_of};
ghost use Rattle.msc_diagnostic.specs.Lines.{line_starts, line_up_to, start_of, without};
ghost use Rattle.msc_diagnostic.specs.Lines.{without_end};

use std::alloc::{AllocError, Global};

/// Which bytes end a line.
#[derive(Clone, Copy, Debug, PartialEq, Eq)]
pub enum LineEnds {
    /// A line feed, as in charts.
    LineFeed,
    /// A line feed, a carriage return, or both in this order, as in diagrams.
    Any,
}

/// The first `count` bytes, or all bytes if there are fewer.
pub(crate) fn front(bytes: &[u8], count: usize) -> &[u8]
    ensures { result.now ≡ take count bytes.now }
{
    &bytes[..count.min(bytes.len())]
}

/// The bytes after the first ones.
pub(crate) fn rest(bytes: &[u8], count: usize) -> &[u8]
    ensures { result.now ≡ drop count bytes.now }
{
    &bytes[count.min(bytes.len())..]
}

/// The number at this index, or 0 past the end.
fn number_at(numbers: &[usize], index: usize) -> usize
    ensures { result ≡ slice_index numbers.now index }
{
    numbers.get(index).copied().unwrap_or(0)
}

/// The byte at this index, or 0 past the end.
fn byte_at(bytes: &[u8], index: usize) -> u8
    ensures { result ≡ slice_index bytes.now index }
{
    bytes.get(index).copied().unwrap_or(0)
}

/// Whether a byte ends a line before this next one.
fn ends_line(ends: LineEnds, byte: u8, next: u8) -> bool
    ensures { result ≡ ends_line ends byte next }
{
    match ends {
        LineEnds::LineFeed => byte == b'\n',
        LineEnds::Any => byte == b'\n' || (byte == b'\r' && next != b'\n'),
    }
}

/// Whether a line begins at this place.
fn begins_line(ends: LineEnds, text: &[u8], at: usize) -> bool
    ensures { result ≡ begins_line ends text.now at }
{
    if at == 0 {
        return true;
    }
    ends_line(ends, byte_at(text, at - 1), byte_at(text, at))
}

/// The bytes without this one at their end.
fn without(byte: u8, bytes: &[u8]) -> &[u8]
    ensures { result.now ≡ without byte bytes.now }
{
    match bytes {
        [front @ .., last] if *last == byte => front,
        _ => bytes,
    }
}

/// A line without its end.
fn without_end(bytes: &[u8]) -> &[u8]
    ensures { result.now ≡ without_end bytes.now }
{
    without(b'\r', without(b'\n', bytes))
}

/// The bytes of a line that begins at `start`, without its end. The next line begins at `next`, if
/// there is one.
fn line_up_to(text: &[u8], start: usize, next: Option<usize>) -> &[u8]
    ensures { result.now ≡ line_up_to text.now start next }
{
    match next {
        Some(next) => without_end(front(rest(text, start), next.saturating_sub(start))),
        None => rest(text, start),
    }
}

/// The places where the lines of a text begin.
fn line_starts(alloc: Global, text: &[u8], ends: LineEnds) -> Result<Vec<usize>, AllocError>
    ensures { IfOk result (λ starts. starts.items ≡ line_starts ends text.now) }
{
    (0..text.len() + 1)
        .filter(|at| begins_line(ends, text, *at))
        .collect(alloc)
}

/// A text, and where its lines begin. Lines are numbered from 1, and bytes from 0.
#[derive(Drop)]
pub struct Source<'t> {
    pub text: &'t [u8],
    /// Which bytes end its lines.
    pub ends: LineEnds,
    starts: Vec<usize>,
    ghost lines: { starts.items ≡ line_starts ends text.now },
}

impl<'t> Source<'t> {
    /// The lines of a text. The only error is want of memory.
    pub fn new(alloc: Global, text: &'t [u8], ends: LineEnds) -> Result<Source<'t>, AllocError>
        ensures text { IfOk result (λ source. source.text ≡ text.entry) }
        ensures ends { IfOk result (λ source. source.ends ≡ ends) }
    {
        let starts = line_starts(alloc, text, ends)?;
        Ok(Source { text, ends, starts })
    }

    /// The line of a place. It takes no memory.
    pub(crate) fn line_of(&self, at: usize) -> usize
        ensures { result ≡ line_of (line_starts self.now.ends self.now.text.now) at }
    {
        self.starts.as_slice().partition_point(|start| *start <= at)
    }

    /// The place where a line begins.
    pub(crate) fn start_of(&self, line: usize) -> usize
        ensures { result ≡ start_of (line_starts self.now.ends self.now.text.now) line }
    {
        number_at(self.starts.as_slice(), line.saturating_sub(1))
    }

    /// The bytes of a line, without its end.
    #[tactic(auto, unfolding(crate::specs::Lines::line_bytes))]
    pub(crate) fn line_bytes(&self, line: usize) -> &'t [u8]
        ensures { result.now
            ≡ line_bytes (line_starts self.now.ends self.now.text.now) self.now.text.now line }
    {
        let next = self.starts.as_slice().get(line).copied();
        line_up_to(self.text, self.start_of(line), next)
    }
}
