//! The head of a mark: what stands before its colon.

ghost use Rattle.std.specs.Prelude.{◌≡◌, ◌≤◌, IfOk, length, map, option_map};
ghost use Rattle.msc_chart.specs.Architectures.{link_kind_of_word};
ghost use Rattle.msc_arrow_marks.specs.Heads.{all_of, begins_with, head_of, kind_in, kinds_in, other_in};
ghost use Rattle.msc_arrow_marks.specs.Heads.{others_in, with_place};

use crate::other::{OtherArrow, behind_blank, other_in};
use crate::parts::{behind, open_parts, pieces};
use listed::Listed;
use msc_chart::LinkKind;
use std::alloc::{AllocError, Global};

/// The head of a mark.
#[derive(Drop)]
pub(crate) struct MarkHead {
    /// The architectures that it is for, each by its usual kind; for all, if there are none.
    pub kinds: Listed<LinkKind>,
    /// The arrows that it names; it accepts races with all arrows, if there are none.
    pub others: Listed<OtherArrow>,
}

/// The kind with this word, in small letters.
#[tactic(auto, unfolding(msc_chart::specs::Architectures::link_kind_of_word))]
fn kind_of(word: &[u8]) -> Option<LinkKind>
    ensures { result ≡ link_kind_of_word word.now }
{
    LinkKind::ALL
        .into_iter()
        .find(|kind| word == kind.word().as_bytes())
}

/// The kind that a part names: a blank and its word.
fn kind_in(part: &[u8]) -> Option<LinkKind>
    ensures { result ≡ kind_in part.now }
{
    match behind_blank(part) {
        Some(word) => kind_of(word),
        None => None,
    }
}

/// The kinds that parts name, if each of them names one.
fn kinds_of(alloc: Global, parts: &[&[u8]]) -> Result<Option<Vec<LinkKind>>, AllocError>
    ensures { IfOk result (λ kinds. option_map (λ v. v.items) kinds
        ≡ all_of kind_in (map (λ part. part.now) parts.now)) }
{
    let mut kinds = Vec::new(alloc);
    for part in parts {
        let Some(kind) = kind_in(part) else {
            return Ok(None);
        };
        kinds.push(kind)?;
    }
    Ok(Some(kinds))
}

/// The architectures of a mark, if they are well written: ` in ARCH, ARCH..`, or nothing.
#[tactic(auto, unfolding(crate::specs::Heads::kinds_in))]
fn kinds_in(alloc: Global, text: &[u8]) -> Result<Option<Vec<LinkKind>>, AllocError>
    ensures { IfOk result (λ kinds. option_map (λ v. v.items) kinds ≡ kinds_in text.now) }
{
    if text.is_empty() {
        return Ok(Some(Vec::new(alloc)));
    }
    if !text.starts_with(" in".as_bytes()) {
        return Ok(None);
    }
    let pieces = pieces(alloc, b',', behind(text, 3))?;
    kinds_of(alloc, pieces.as_slice())
}

/// The arrows that parts name, if each of them names one.
fn others_of(alloc: Global, parts: &[&[u8]]) -> Result<Option<Vec<OtherArrow>>, AllocError>
    ensures { IfOk result (λ others. option_map (λ v. v.items) others
        ≡ all_of other_in (map (λ part. part.now) parts.now)) }
{
    let mut others = Vec::new(alloc);
    for part in parts {
        let Some(other) = other_in(alloc, part)? else {
            return Ok(None);
        };
        others.push(other)?;
    }
    Ok(Some(others))
}

/// The arrows of a mark, if they are well written: ` with ID; ID..`, or nothing.
#[tactic(auto, unfolding(crate::specs::Heads::others_in))]
fn others_in(alloc: Global, text: &[u8]) -> Result<Option<Vec<OtherArrow>>, AllocError>
    ensures { IfOk result (λ others. option_map (λ v. v.items) others ≡ others_in text.now) }
{
    if text.is_empty() {
        return Ok(Some(Vec::new(alloc)));
    }
    if !text.starts_with(" with".as_bytes()) {
        return Ok(None);
    }
    let parts = open_parts(alloc, b';', behind(text, 5))?;
    others_of(alloc, parts.as_slice())
}

/// Whether the text begins with ` with `.
fn begins_with(text: &[u8]) -> bool
    ensures { result ≡ begins_with text.now }
{
    text.starts_with(" with ".as_bytes())
}

/// The number of bytes before the first ` with `; that of all bytes if there is none.
fn with_place(text: &[u8]) -> usize
    ensures place { result ≡ with_place text.now }
    ensures within { result ≤ length text.now }
{
    for i in 0..text.len() {
        if begins_with(&text[i..]) {
            return i;
        }
    }
    text.len()
}

/// The head of a mark without its first two words, if it is well written.
#[tactic(auto, unfolding(crate::specs::Heads::head_of))]
pub(crate) fn head_of(alloc: Global, text: &[u8]) -> Result<Option<MarkHead>, AllocError>
    ensures { IfOk result (λ head. head ≡ head_of text.now) }
{
    let place = with_place(text);
    let Some(kinds) = kinds_in(alloc, &text[..place])? else {
        return Ok(None);
    };
    let Some(others) = others_in(alloc, &text[place..])? else {
        return Ok(None);
    };
    Ok(Some(MarkHead {
        kinds: Listed::from_vec(kinds),
        others: Listed::from_vec(others),
    }))
}
