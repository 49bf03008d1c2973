//! The places of the columns of a picture in text.

ghost use Rattle.std.specs.Prelude.{◌≡◌, ◌<◌, ◌≤◌, ◌+◌, ◌-◌, IfOk, OnOk, fold, get_or, length, map};
ghost use Rattle.std.specs.Prelude.{max, min, slice_set};
ghost use Rattle.std.specs.List.{range_with_len};
ghost use Rattle.msc_picture.specs.Columns.{added_up, arrow_room, column, column_after, columns_of};
ghost use Rattle.msc_picture.specs.Columns.{end_room, first_gap, gaps_of, name_length};
ghost use Rattle.msc_picture.specs.Columns.{room, short_text, span, spot_room, widened, widened_by};

use crate::scene::{Act, Arrow, Scene, Spot};
use listed::Listed;
use std::alloc::{AllocError, Global};

/// The greatest number of characters of an action's text that are shown.
pub const SHOWN: usize = 40;

/// The columns of the instances, and the number of characters of a line.
#[derive(Drop)]
pub struct Columns {
    pub columns: Listed<usize>,
    pub width: usize,
}

impl Columns {
    /// The column of instance `i`, or 0 past the last.
    pub fn column(&self, i: usize) -> usize
        ensures { result ≡ column self.now i }
    {
        gap_at(self.columns.as_slice(), i)
    }
}

/// The sum of two lengths. A length past all numbers is an error, as if memory ran out.
pub fn plus(a: usize, b: usize) -> Result<usize, AllocError>
    ensures { IfOk result (λ sum. sum ≡ a + b) }
{
    match a.checked_add(b) {
        Some(sum) => Ok(sum),
        None => Err(AllocError),
    }
}

/// The gap at a place, or 0 past the last.
fn gap_at(gaps: &[usize], k: usize) -> usize
    ensures { result ≡ get_or gaps.now k 0 }
{
    if k < gaps.len() { gaps[k] } else { 0 }
}

/// The number of characters of an action's text that are shown.
fn shown_length(text: &[u8]) -> usize
    ensures value { result ≡ length (short_text text.now) }
    ensures few { result ≤ SHOWN }
{
    if text.len() > SHOWN {
        SHOWN
    } else {
        text.len()
    }
}

/// The room that an arrow takes right of instance `i`.
fn arrow_room(arrow: &Arrow, i: usize) -> Result<usize, AllocError>
    ensures { IfOk result (λ room. room ≡ arrow_room i arrow.now) }
{
    if arrow.from as usize == i && arrow.to as usize == i {
        return plus(arrow.label.as_slice().len(), 8);
    }
    Ok(0)
}

/// The room that an event takes right of instance `i`.
fn spot_room(spot: &Spot, i: usize) -> Result<usize, AllocError>
    ensures { IfOk result (λ room. room ≡ spot_room i spot.now) }
{
    if spot.instance as usize != i {
        return Ok(0);
    }
    match &spot.act {
        Act::Does(text) => Ok(shown_length(text.as_slice()) + 3),
        Act::Sends(_) | Act::Takes(_) => Ok(0),
    }
}

/// The greatest room that an arrow takes right of instance `i`.
fn room_of_arrows(arrows: &[Arrow], i: usize) -> Result<usize, AllocError>
    ensures { IfOk result (λ room.
        room ≡ fold (λ most a. max most (arrow_room i a)) 0 arrows.now) }
{
    let mut most = 0;
    for arrow in arrows {
        most = most.max(arrow_room(arrow, i)?);
    }
    Ok(most)
}

/// The greatest room that an arrow or an event takes right of instance `i`.
fn room(scene: &Scene, i: usize) -> Result<usize, AllocError>
    ensures { IfOk result (λ r. r ≡ room scene.now i) }
{
    let mut most = room_of_arrows(scene.arrows.as_slice(), i)?;
    let spots = scene.spots.as_slice();
    for spot in spots {
        most = most.max(spot_room(spot, i)?);
    }
    Ok(most)
}

/// The length of the name of instance `i`.
fn name_length(scene: &Scene, i: usize) -> usize
    ensures { result ≡ name_length scene.now i }
{
    let heads = scene.heads.as_slice();
    if i < heads.len() {
        heads[i].name.as_slice().len()
    } else {
        0
    }
}

/// The gap after instance `i` that names, actions and messages to oneself require.
fn first_gap(scene: &Scene, i: usize) -> Result<usize, AllocError>
    requires { i < usize.MAX }
    ensures { IfOk result (λ gap. gap ≡ first_gap scene.now i) }
{
    let names = plus(name_length(scene, i), name_length(scene, i + 1))?;
    let least = plus(names / 2, 3)?.max(14);
    let own = plus(room(scene, i)?, 1)?;
    Ok(least.max(own))
}

/// The first `many` gaps.
fn first_gaps(alloc: Global, scene: &Scene, many: usize) -> Result<Vec<usize>, AllocError>
    ensures { IfOk result (λ gaps.
        gaps.items ≡ map (first_gap scene.now) (range_with_len 0 many)) }
{
    let mut gaps = Vec::new(alloc);
    for i in 0..many {
        let gap = first_gap(scene, i)?;
        gaps.push(gap)?;
    }
    Ok(gaps)
}

/// The number of gaps that an arrow spans.
fn span(arrow: &Arrow) -> usize
    ensures { result ≡ span arrow.now }
{
    (arrow.from.max(arrow.to) - arrow.from.min(arrow.to)) as usize
}

/// The sum of `many` gaps from this one on.
fn added_up(gaps: &[usize], start: usize, many: usize) -> Result<usize, AllocError>
    ensures { IfOk result (λ total. total ≡ added_up gaps.now start many) }
{
    let mut total = 0;
    for k in 0..many {
        let at = plus(start, k)?;
        let next = plus(total, gap_at(gaps, at))?;
        total = next;
    }
    Ok(total)
}

/// Widens the rightmost gap of an arrow by what its label needs more.
fn widen(gaps: &mut Vec<usize>, arrow: &Arrow, last: usize) -> Result<(), AllocError>
    ensures { OnOk result (gaps.new.items ≡ widened gaps.old.items arrow.now last) }
{
    let least = plus(arrow.label.as_slice().len(), 12)?;
    let start = arrow.from.min(arrow.to) as usize;
    let lacks = least.saturating_sub(added_up(gaps, start, span(arrow))?);
    let gap = plus(gap_at(gaps, last), lacks)?;
    if last < gaps.len() {
        gaps[last] = gap;
    }
    Ok(())
}

/// Widens gaps by what the arrows over `many` gaps need.
fn widen_by(gaps: &mut Vec<usize>, arrows: &[Arrow], many: usize) -> Result<(), AllocError>
    ensures { OnOk result (gaps.new.items ≡ widened_by arrows.now gaps.old.items many) }
{
    for arrow in arrows {
        if span(arrow) == many {
            let last = arrow.from.max(arrow.to).saturating_sub(1) as usize;
            widen(gaps, arrow, last)?;
        }
    }
    Ok(())
}

/// The `many` gaps between consecutive columns.
fn gaps_of(alloc: Global, scene: &Scene, many: usize) -> Result<Vec<usize>, AllocError>
    requires { many ≡ length scene.now.heads - 1 }
    ensures { IfOk result (λ gaps. gaps.items ≡ gaps_of scene.now) }
{
    let mut gaps = first_gaps(alloc, scene, many)?;
    for k in 0..many {
        widen_by(&mut gaps, scene.arrows.as_slice(), k + 1)?;
    }
    Ok(gaps)
}

/// The columns after a first one, each after a gap.
fn columns_after(
    alloc: Global,
    first: usize,
    gaps: &[usize],
    many: usize,
) -> Result<Listed<usize>, AllocError>
    ensures { IfOk result (λ columns.
        columns ≡ map (column_after first gaps.now) (range_with_len 0 many)) }
{
    let mut columns = Vec::new(alloc);
    for i in 0..many {
        let behind = added_up(gaps, 0, i)?;
        let column = plus(first, behind)?;
        columns.push(column)?;
    }
    Ok(Listed::from_vec(columns))
}

/// The room after the last column.
fn end_room(scene: &Scene, last: usize) -> Result<usize, AllocError>
    ensures { IfOk result (λ r. r ≡ end_room scene.now last) }
{
    let half = plus(name_length(scene, last) / 2, 2)?;
    Ok(half.max(2).max(room(scene, last)?))
}

/// The columns of a picture of `many` instances. An error is a growth of memory that was refused.
pub fn columns_of(alloc: Global, scene: &Scene, many: usize) -> Result<Columns, AllocError>
    requires { many ≡ length scene.now.heads }
    ensures { IfOk result (λ c. c ≡ columns_of scene.now) }
{
    let last = many.saturating_sub(1);
    let gaps = gaps_of(alloc, scene, last)?;
    let first = plus(name_length(scene, 0) / 2, 2)?.max(4);
    let width = plus(
        plus(first, added_up(&gaps, 0, last)?)?,
        end_room(scene, last)?,
    )?;
    Ok(Columns {
        columns: columns_after(alloc, first, &gaps, many)?,
        width,
    })
}
