//! The text of a row of a picture in text, and the column at which it begins.

ghost use Rattle.std.specs.Prelude.{◌≡◌, ◌<◌, ◌≤◌, ◌+◌, ◌-◌, ◌++◌, IfOk, codes, length, replicate};
ghost use Rattle.std.specs.Prelude.{slice_get};
ghost use Rattle.msc_picture.specs.Pieces.{action_piece, arrow_piece, both_piece, dashed, drawn_by};
ghost use Rattle.msc_picture.specs.Pieces.{ends_of, from_column, input_piece, message_piece};
ghost use Rattle.msc_picture.specs.Pieces.{no_piece, output_piece, row_piece, up_to_column};

use crate::columns::{Columns, SHOWN, plus};
use crate::scene::{Act, Arrow, Row, Scene};
use listed::Listed;
use msc_chart::Event;
use std::alloc::{AllocError, Global};

/// The part of a message that a row shows.
#[derive(Clone, Copy)]
pub enum Ends {
    Output,
    Input,
    Both,
}

/// A text, and the column at which it begins.
#[derive(Drop)]
pub struct Piece {
    pub start: usize,
    pub text: Listed<u8>,
}

/// No text.
fn no_piece(alloc: Global) -> Piece
    ensures { result ≡ no_piece }
{
    Piece {
        start: 0,
        text: Listed::from_vec(Vec::new(alloc)),
    }
}

/// A text between two others.
fn joined(alloc: Global, before: &[u8], text: &[u8], after: &[u8]) -> Result<Vec<u8>, AllocError>
    ensures { IfOk result (λ v. v.items ≡ (before.now ++ text.now) ++ after.now) }
{
    let mut all = Vec::from_slice(alloc, before)?;
    all.extend_from_slice(text)?;
    all.extend_from_slice(after)?;
    Ok(all)
}

/// A text between two others that begins after a column.
fn from_column(
    alloc: Global,
    column: usize,
    before: &[u8],
    text: &[u8],
    after: &[u8],
) -> Result<Piece, AllocError>
    ensures { IfOk result (λ p. p
        ≡ from_column (column + 1) before.now text.now after.now) }
{
    Ok(Piece {
        start: plus(column, 1)?,
        text: Listed::from_vec(joined(alloc, before, text, after)?),
    })
}

/// A text between two others, that ends before a column.
fn up_to_column(
    alloc: Global,
    column: usize,
    before: &[u8],
    text: &[u8],
    after: &[u8],
) -> Result<Piece, AllocError>
    ensures { IfOk result (λ p. p
        ≡ up_to_column column before.now text.now after.now) }
{
    Ok(Piece {
        start: column.saturating_sub(plus(text.len(), 6)?),
        text: Listed::from_vec(joined(alloc, before, text, after)?),
    })
}

/// An action on this column.
fn action_piece(alloc: Global, column: usize, text: &[u8]) -> Result<Piece, AllocError>
    ensures { IfOk result (λ p. p ≡ action_piece column text.now) }
{
    if text.len() > SHOWN {
        let front = &text[..SHOWN - 2];
        return from_column(alloc, column, b"[", front, b"..]");
    }
    from_column(alloc, column, b"[", text, b"]")
}

/// `many` dashes between two texts.
fn dashed(alloc: Global, before: &[u8], many: usize, after: &[u8]) -> Result<Vec<u8>, AllocError>
    ensures { IfOk result (λ v. v.items ≡ dashed before.now many after.now) }
{
    let row = vec![in alloc; b'-'; many]?;
    joined(alloc, before, &row, after)
}

/// The arrow of a message from column `a` to column `b`, with `many` dashes.
fn arrow_piece(
    alloc: Global,
    a: usize,
    b: usize,
    many: usize,
    label: &[u8],
) -> Result<Piece, AllocError>
    ensures { IfOk result (λ p. p ≡ arrow_piece a b many label.now) }
{
    let half = many / 2;
    let rest = many - half;
    if a < b {
        let before = dashed(alloc, b"", rest, b" ")?;
        let after = dashed(alloc, b" ", half.saturating_sub(1), b">")?;
        return from_column(alloc, a, &before, label, &after);
    }
    let before = dashed(alloc, b"<", rest.saturating_sub(1), b" ")?;
    let after = dashed(alloc, b" ", half, b"")?;
    from_column(alloc, b, &before, label, &after)
}

/// An output in column `a`, whose input in column `b` is in another row.
fn output_piece(alloc: Global, a: usize, b: usize, label: &[u8]) -> Result<Piece, AllocError>
    ensures { IfOk result (λ p. p ≡ output_piece a b label.now) }
{
    if b < a {
        return up_to_column(alloc, a, b".. ", label, b" --");
    }
    from_column(alloc, a, b"-- ", label, b" ..")
}

/// An input in column `b`, whose output in column `a` is in another row.
fn input_piece(alloc: Global, a: usize, b: usize, label: &[u8]) -> Result<Piece, AllocError>
    ensures { IfOk result (λ p. p ≡ input_piece a b label.now) }
{
    if a < b {
        return up_to_column(alloc, b, b".. ", label, b" ->");
    }
    from_column(alloc, b, b"<- ", label, b" ..")
}

/// Both ends of a message, in columns `a` and `b`.
fn both_piece(alloc: Global, a: usize, b: usize, arrow: &Arrow) -> Result<Piece, AllocError>
    ensures { IfOk result (λ p. p ≡ both_piece a b arrow.now) }
{
    let label = arrow.label.as_slice();
    if arrow.from == arrow.to {
        return from_column(alloc, a, b"<- ", label, b" --)");
    }
    let apart = a.max(b) - a.min(b);
    let many = apart.saturating_sub(plus(label.len(), 3)?);
    arrow_piece(alloc, a, b, many, label)
}

/// The part of a message in the row of its output: the output only, or its input too.
fn ends_of(second: Option<Event>) -> Ends
    ensures { result ≡ ends_of second }
{
    match second {
        None => Ends::Output,
        Some(_) => Ends::Both,
    }
}

/// The text of message `m`: its output, its input, or both.
fn message_piece(
    alloc: Global,
    scene: &Scene,
    c: &Columns,
    m: u32,
    ends: Ends,
) -> Result<Piece, AllocError>
    ensures { IfOk result (λ p. p
        ≡ message_piece c.now (drawn_by ends) (slice_get scene.now.arrows m)) }
{
    let Some(arrow) = scene.arrows.as_slice().get(m as usize) else {
        return Ok(no_piece(alloc));
    };
    let a = c.column(arrow.from as usize);
    let b = c.column(arrow.to as usize);
    match ends {
        Ends::Output => output_piece(alloc, a, b, arrow.label.as_slice()),
        Ends::Input => input_piece(alloc, a, b, arrow.label.as_slice()),
        Ends::Both => both_piece(alloc, a, b, arrow),
    }
}

/// The text of a row.
pub fn row_piece(alloc: Global, scene: &Scene, c: &Columns, row: Row) -> Result<Piece, AllocError>
    ensures { IfOk result (λ p. p ≡ row_piece scene.now c.now row) }
{
    let Some(spot) = scene.spots.as_slice().get(row.first as usize) else {
        return Ok(no_piece(alloc));
    };
    match &spot.act {
        Act::Sends(m) => message_piece(alloc, scene, c, *m, ends_of(row.second)),
        Act::Takes(m) => message_piece(alloc, scene, c, *m, Ends::Input),
        Act::Does(text) => action_piece(alloc, c.column(spot.instance as usize), text.as_slice()),
    }
}
