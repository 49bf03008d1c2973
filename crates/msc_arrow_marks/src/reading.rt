//! Reads comments.

ghost use Rattle.std.specs.Prelude.{◌≡◌, ◌≤◌, IfOk, length};
ghost use Rattle.msc_arrow_marks.specs.Readings.{has_print, head_bytes, is_marked, reading_of, reason_bytes, said};

use crate::fault::Slip;
use crate::head::{MarkHead, head_of};
use crate::other::OtherArrow;
use crate::parts::{behind, open_length};
use listed::Listed;
use msc_chart::LinkKind;
use msc_mermaid::trimmed;
use std::alloc::{AllocError, Global};

/// What a mark says.
#[derive(Drop)]
pub struct MarkText {
    /// The architectures that it is for, each by its usual kind; for all, if there are none.
    pub kinds: Listed<LinkKind>,
    /// The other arrows that it names; it accepts races with all arrows, if there are none.
    pub others: Listed<OtherArrow>,
    /// The reason, without white space at both ends.
    pub reason: Listed<u8>,
}

/// How a comment reads.
#[derive(Drop)]
pub(crate) enum Reading {
    /// It is no mark.
    Other,
    /// It begins as a mark, and is none.
    Faulty(Slip),
    /// It is a mark.
    Says(MarkText),
}

/// Whether a text begins as a mark.
pub(crate) fn is_marked(text: &[u8]) -> bool
    ensures { result ≡ is_marked text.now }
{
    text.starts_with("race ok".as_bytes())
}

/// Whether some byte is above 32.
fn has_print(bytes: &[u8]) -> bool
    ensures { result ≡ has_print bytes.now }
{
    bytes.iter().any(|byte| *byte > 32)
}

/// The part of a mark before the colon.
fn head_bytes(text: &[u8]) -> &[u8]
    ensures value { result.now ≡ head_bytes text.now }
    ensures within { length result.now ≤ length text.now }
{
    &text[..open_length(b':', text)]
}

/// The part of a mark behind the colon.
fn reason_bytes(text: &[u8]) -> &[u8]
    ensures { result.now ≡ reason_bytes text.now }
{
    behind(behind(text, open_length(b':', text)), 1)
}

/// What a mark says with this head and this reason.
fn said(alloc: Global, head: MarkHead, reason: &[u8]) -> Result<MarkText, AllocError>
    ensures { IfOk result (λ text. text ≡ said head reason.now) }
{
    let reason = Vec::from_slice(alloc, trimmed(reason))?;
    Ok(MarkText {
        kinds: head.kinds,
        others: head.others,
        reason: Listed::from_vec(reason),
    })
}

/// How the text of a comment reads, which has no white space in front.
#[tactic(auto, unfolding(crate::specs::Readings::reading_of))]
pub(crate) fn reading_of(alloc: Global, text: &[u8]) -> Result<Reading, AllocError>
    ensures { IfOk result (λ reading. reading ≡ reading_of text.now) }
{
    if !is_marked(text) {
        return Ok(Reading::Other);
    }
    let Some(head) = head_of(alloc, behind(head_bytes(text), 7))? else {
        return Ok(Reading::Faulty(Slip::Part));
    };
    let reason = reason_bytes(text);
    if !has_print(reason) {
        return Ok(Reading::Faulty(Slip::Reason));
    }
    Ok(Reading::Says(said(alloc, head, reason)?))
}
