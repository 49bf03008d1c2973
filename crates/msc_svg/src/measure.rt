//! The room that heads, actions and labels take next to the axes.

ghost use Rattle.std.specs.Prelude.{◌≡◌, ◌<◌, ◌+◌, ◌*◌, IfOk, fold, get_or, length, map, max};
ghost use Rattle.std.specs.List.{range_with_len};
ghost use Rattle.msc_picture.specs.Columns.{no_head};
ghost use Rattle.msc_svg.specs.Layouts.{act_reach, at, begins_over, gap, gaps_of, half, head_half};
ghost use Rattle.msc_svg.specs.Layouts.{label_room, label_rooms, left, own_room, own_rooms, reach};
ghost use Rattle.msc_svg.specs.Layouts.{right, side_room, spot_reach};

use crate::action::action_box;
use msc_picture::{Act, Arrow, Head, Scene, Spot, plus};
use std::alloc::{AllocError, Global};

/// The product of two lengths. A length past all numbers is an error, as if memory ran out.
pub fn times(a: usize, b: usize) -> Result<usize, AllocError>
    ensures { IfOk result (λ product. product ≡ a * b) }
{
    match a.checked_mul(b) {
        Some(product) => Ok(product),
        None => Err(AllocError),
    }
}

/// The number at a place, or 0 past the last.
pub fn at(numbers: &[usize], k: usize) -> usize
    ensures { result ≡ at numbers.now k }
{
    if k < numbers.len() { numbers[k] } else { 0 }
}

/// Half the width of a head.
fn head_half(head: &Head) -> Result<usize, AllocError>
    ensures { IfOk result (λ half. half ≡ head_half head.now) }
{
    let long = head.name.as_slice().len().max(head.kind.as_slice().len());
    plus(times(4, long)?, 10)
}

/// Half the width of the head of instance `i`.
pub fn half(scene: &Scene, i: usize) -> Result<usize, AllocError>
    ensures { IfOk result (λ width. width ≡ half scene.now i) }
{
    let heads = scene.heads.as_slice();
    if i < heads.len() {
        return head_half(&heads[i]);
    }
    Ok(10)
}

/// How far the box of an event reaches from the axis of instance `i`.
fn spot_reach(alloc: Global, spot: &Spot, i: usize) -> Result<usize, AllocError>
    ensures { IfOk result (λ reach. reach ≡ spot_reach i spot.now) }
{
    if spot.instance as usize != i {
        return Ok(0);
    }
    match &spot.act {
        Act::Does(text) => Ok(action_box(alloc, text.as_slice())?.reach),
        Act::Sends(_) | Act::Takes(_) => Ok(0),
    }
}

/// How far boxes reach from the axis of instance `i`.
fn reach(alloc: Global, scene: &Scene, i: usize) -> Result<usize, AllocError>
    ensures { IfOk result (λ r. r ≡ reach scene.now i) }
{
    let mut most = 0;
    let spots = scene.spots.as_slice();
    for spot in spots {
        most = most.max(spot_reach(alloc, spot, i)?);
    }
    Ok(most)
}

/// The room that a message to oneself takes right of instance `i`, by the depths of outputs.
fn own_room(depths: &[usize], arrow: &Arrow, i: usize) -> Result<usize, AllocError>
    ensures { IfOk result (λ room. room ≡ own_room depths.now i arrow.now) }
{
    if arrow.from as usize == i && arrow.to as usize == i {
        let depth = at(depths, arrow.output as usize);
        let long = plus(arrow.label.as_slice().len(), depth)?;
        return plus(times(8, long)?, 56);
    }
    Ok(0)
}

/// The room that messages to oneself take right of instance `i`.
fn own_rooms(scene: &Scene, depths: &[usize], i: usize) -> Result<usize, AllocError>
    ensures { IfOk result (λ room. room ≡ own_rooms scene.now depths.now i) }
{
    let mut most = 0;
    let arrows = scene.arrows.as_slice();
    for arrow in arrows {
        most = most.max(own_room(depths, arrow, i)?);
    }
    Ok(most)
}

/// The room left of instance `i`.
pub fn left(alloc: Global, scene: &Scene, i: usize) -> Result<usize, AllocError>
    ensures { IfOk result (λ room. room ≡ left scene.now i) }
{
    let head = plus(half(scene, i)?, 8)?;
    let boxes = plus(reach(alloc, scene, i)?, 16)?;
    Ok(40_usize.max(head).max(boxes))
}

/// The room right of instance `i`, by the depths of outputs.
pub fn right(alloc: Global, scene: &Scene, depths: &[usize], i: usize) -> Result<usize, AllocError>
    ensures { IfOk result (λ room. room ≡ right scene.now depths.now i) }
{
    let head = plus(half(scene, i)?, 8)?;
    let boxes = plus(reach(alloc, scene, i)?, 40)?;
    let own = own_rooms(scene, depths, i)?;
    Ok(40_usize.max(head).max(boxes).max(own))
}

/// Whether a message spans the gap after instance `i` first.
fn begins_over(arrow: &Arrow, i: usize) -> bool
    requires { i < usize.MAX }
    ensures { result ≡ begins_over i arrow.now }
{
    let from = arrow.from as usize;
    let to = arrow.to as usize;
    (from == i && i < to) || (from == i + 1 && to < i + 1)
}

/// The room that the label of a message takes in the gap after instance `i`.
fn label_room(arrow: &Arrow, i: usize) -> Result<usize, AllocError>
    requires { i < usize.MAX }
    ensures { IfOk result (λ room. room ≡ label_room i arrow.now) }
{
    if begins_over(arrow, i) {
        return plus(times(8, arrow.label.as_slice().len())?, 64);
    }
    Ok(0)
}

/// The room that labels take in the gap after instance `i`.
fn label_rooms(scene: &Scene, i: usize) -> Result<usize, AllocError>
    requires { i < usize.MAX }
    ensures { IfOk result (λ room. room ≡ label_rooms scene.now i) }
{
    let mut most = 0;
    let arrows = scene.arrows.as_slice();
    for arrow in arrows {
        most = most.max(label_room(arrow, i)?);
    }
    Ok(most)
}

/// The gap that the heads and the sides of instance `i` and the next one require between them.
fn side_room(alloc: Global, scene: &Scene, depths: &[usize], i: usize) -> Result<usize, AllocError>
    requires { i < usize.MAX }
    ensures { IfOk result (λ room. room ≡ side_room scene.now depths.now i) }
{
    let heads = plus(plus(half(scene, i)?, half(scene, i + 1)?)?, 16)?;
    let before = plus(right(alloc, scene, depths, i)?, 16)?;
    let after = plus(left(alloc, scene, i + 1)?, 16)?;
    Ok(112_usize.max(heads).max(before).max(after))
}

/// The gap after instance `i`.
fn gap(alloc: Global, scene: &Scene, depths: &[usize], i: usize) -> Result<usize, AllocError>
    requires { i < usize.MAX }
    ensures { IfOk result (λ room. room ≡ gap scene.now depths.now i) }
{
    let sides = side_room(alloc, scene, depths, i)?;
    Ok(sides.max(label_rooms(scene, i)?))
}

/// The gaps between instances.
pub fn gaps_of(alloc: Global, scene: &Scene, depths: &[usize]) -> Result<Vec<usize>, AllocError>
    ensures { IfOk result (λ gaps. gaps.items ≡ gaps_of scene.now depths.now) }
{
    let many = scene.heads.as_slice().len().saturating_sub(1);
    let mut gaps = Vec::new(alloc);
    for i in 0..many {
        let next = gap(alloc, scene, depths, i)?;
        gaps.push(next)?;
    }
    Ok(gaps)
}
