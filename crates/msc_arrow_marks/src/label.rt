//! Marks that are parts of labels.

ghost use Rattle.std.specs.Prelude.{◌≡◌, IfOk, map};
ghost use Rattle.msc_arrow_marks.specs.Labels.{begins_mark, has_mark, has_signed, is_signed};

use crate::parts::pieces;
use crate::reading::is_marked;
use msc_mermaid::trimmed;
use std::alloc::{AllocError, Global};

/// Whether a piece begins as a mark, behind white space.
fn begins_mark(piece: &[u8]) -> bool
    ensures { result ≡ begins_mark piece.now }
{
    is_marked(trimmed(piece))
}

/// Whether a piece without bytes is in front, and then one that begins as a mark.
fn is_signed(pieces: &[&[u8]]) -> bool
    ensures { result ≡ is_signed (map (λ piece. piece.now) pieces.now) }
{
    match pieces {
        [first, next, ..] => first.is_empty() && begins_mark(next),
        _ => false,
    }
}

/// Whether such a piece is among the pieces.
fn has_signed(pieces: &[&[u8]]) -> bool
    ensures { result ≡ has_signed (map (λ piece. piece.now) pieces.now) }
{
    for i in 0..pieces.len() {
        if is_signed(&pieces[i..]) {
            return true;
        }
    }
    false
}

/// Whether a label has a mark in it: two percent signs, and what begins as a mark behind white
/// space.
#[tactic(auto, unfolding(crate::specs::Labels::has_signed))]
pub(crate) fn has_mark(alloc: Global, label: &[u8]) -> Result<bool, AllocError>
    ensures { IfOk result (λ has. has ≡ has_mark label.now) }
{
    let pieces = pieces(alloc, b'%', label)?;
    match pieces.as_slice() {
        [] => Ok(false),
        [_, behind @ ..] => Ok(has_signed(behind)),
    }
}
