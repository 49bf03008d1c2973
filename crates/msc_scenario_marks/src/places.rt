//! Where the marks of a diagram stand in its text.

ghost use Rattle.std.specs.Prelude.{◌≡◌, drop, nat_le, take, slice_index, IfOk};
ghost use Rattle.std.specs.List.Sorted.{IsPartitionedBy};
ghost use Rattle.msc_mermaid.specs.Lines.{starts_of};
ghost use Rattle.msc_scenario_marks.specs.Places.{line_in, mark_first, mark_place, position_at};
ghost use Rattle.msc_scenario_marks.specs.Places.{position_in};

use msc_arrow_marks::AcceptedArrows;
use msc_mermaid::{counted, starts_of};
use msc_place::Position;
use std::alloc::{AllocError, Global};

/// The bytes of a text from a place up to another one, as far as it has them.
fn between(text: &[u8], first: usize, past: usize) -> &[u8]
    ensures { result.now ≡ drop first (take past text.now) }
{
    let front = &text[..past.min(text.len())];
    &front[first.min(front.len())..]
}

/// The place at this index, or 0 after the last.
fn start_at(starts: &[usize], index: usize) -> usize
    ensures { result ≡ slice_index starts.now index }
{
    starts.get(index).copied().unwrap_or(0)
}

/// The line of a byte, if lines begin at `starts`.
fn line_in(starts: &[usize], at: usize) -> usize
    requires { IsPartitionedBy (λ start. nat_le start at) starts.now }
    ensures { result ≡ line_in starts.now at }
{
    starts.partition_point(|start| *start <= at)
}

/// The position of a byte of a diagram's text, whose lines begin at `starts`. It takes no memory.
fn position_in(text: &[u8], starts: &[usize], at: usize) -> Position
    requires { starts.now ≡ starts_of text.now }
    ensures { result ≡ position_in text.now starts.now at }
{
    let line = line_in(starts, at);
    let start = start_at(starts, line.saturating_sub(1));
    Position {
        line,
        column: counted(between(text, start, at)) + 1,
    }
}

/// The position of a byte of a diagram's text. An error is a growth of memory that was refused.
pub fn position_at(alloc: Global, text: &[u8], at: usize) -> Result<Position, AllocError>
    ensures { IfOk result (λ position. position ≡ position_at text.now at) }
{
    let starts = starts_of(alloc, text)?;
    Ok(position_in(text, starts.as_slice(), at))
}

/// The first byte of the mark with this number; 0 if there is none.
fn mark_first(accepted: &AcceptedArrows<'_>, k: usize) -> usize
    ensures { result ≡ mark_first accepted.now k }
{
    match accepted.marks().get(k) {
        Some(mark) => mark.comment.first,
        None => 0,
    }
}

/// The position of the mark with this number, if the lines of its text begin at `starts`
/// ([`msc_mermaid::starts_of`]). It takes no memory.
pub fn mark_place(accepted: &AcceptedArrows<'_>, starts: &[usize], k: usize) -> Position
    requires { starts.now ≡ starts_of accepted.now.text }
    ensures { result ≡ mark_place accepted.now starts.now k }
{
    position_in(accepted.text(), starts, mark_first(accepted, k))
}
