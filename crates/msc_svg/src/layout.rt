//! The layout of a picture: the places of its parts.

ghost use Rattle.std.specs.Prelude.{◌≡◌, ◌<◌, ◌≤◌, ◌+◌, ◌*◌, ◌/◌, ◌-◌, IfOk, cond, fold, get_or};
ghost use Rattle.std.specs.Prelude.{length, map, max, nat_eq, slice_get, ℕ};
ghost use Rattle.std.specs.List.{range_with_len};
ghost use Rattle.msc_picture.specs.Rows.{row_passes};
ghost use Rattle.msc_svg.specs.Layouts.{across_of, act_height, below_of, down_of, first_axis};
ghost use Rattle.msc_svg.specs.Layouts.{has_kind, head_height, head_room, heading_width, height_of};
ghost use Rattle.msc_svg.specs.Layouts.{is_short, is_short_arrow, layout_of, need, row_height};
ghost use Rattle.msc_svg.specs.Layouts.{row_heights, row_numbers, sums, top_of, total};

use crate::action::action_box;
use crate::depth::{depths_of, put};
use crate::measure::{at, gaps_of, left, right, times};
use listed::Listed;
use msc_parser::Label;
use msc_picture::{Act, Arrow, Head, Row, Scene, plus};
use std::alloc::{AllocError, Global};

/// The layout of a picture: its width and height; the places at which the heads begin and end, and
/// at which the axes end; the axis of each instance; the places at which each row begins and the
/// last one ends; the row of each event; and for each output of a message to oneself how deep its
/// arrow reaches.
#[derive(Drop)]
pub struct Layout {
    pub width: usize,
    pub height: usize,
    pub top: usize,
    pub below: usize,
    pub foot: usize,
    pub axes: Listed<usize>,
    pub edges: Listed<usize>,
    pub rows: Listed<usize>,
    pub depths: Listed<usize>,
}

/// The sum of numbers and a first one.
fn total(start: usize, steps: &[usize]) -> Result<usize, AllocError>
    ensures { IfOk result (λ sum. sum ≡ total start steps.now) }
{
    let mut sum = start;
    for step in steps {
        sum = plus(sum, *step)?;
    }
    Ok(sum)
}

/// A number, and the sum after each step.
fn sums(alloc: Global, start: usize, steps: &[usize]) -> Result<Listed<usize>, AllocError>
    ensures { IfOk result (λ all. all ≡ sums start steps.now) }
{
    let mut all = Vec::new(alloc);
    let mut sum = start;
    for step in steps {
        all.push(sum)?;
        sum = plus(sum, *step)?;
    }
    all.push(sum)?;
    Ok(Listed::from_vec(all))
}

/// The width that the instances need.
fn need(alloc: Global, scene: &Scene, depths: &[usize], gaps: &[usize]) -> Result<usize, AllocError>
    ensures { IfOk result (λ needed. needed ≡ need scene.now depths.now gaps.now) }
{
    let many = scene.heads.as_slice().len();
    if many == 0 {
        return Ok(16);
    }
    let last = total(left(alloc, scene, 0)?, gaps)?;
    let behind = right(alloc, scene, depths, many - 1)?;
    plus(plus(last, behind)?, 16)
}

/// The width that a heading needs.
fn heading_width(heading: &[Label]) -> Result<usize, AllocError>
    ensures { IfOk result (λ width. width ≡ heading_width heading.now) }
{
    let mut most = 64;
    for text in heading {
        most = most.max(plus(times(8, text.as_slice().len())?, 32)?);
    }
    Ok(most)
}

/// The first axis.
fn first_axis(
    alloc: Global,
    scene: &Scene,
    width: usize,
    needed: usize,
) -> Result<usize, AllocError>
    ensures { IfOk result (λ axis. axis ≡ first_axis scene.now width needed) }
{
    let start = plus(width.saturating_sub(needed) / 2, 8)?;
    plus(start, left(alloc, scene, 0)?)
}

/// Whether an instance has a kind.
pub fn has_kind(head: &Head) -> bool
    ensures { result ≡ has_kind head.now }
{
    0 < head.kind.as_slice().len()
}

/// The height of a head.
fn head_room(head: &Head) -> usize
    ensures value { result ≡ head_room head.now }
    ensures few { result ≤ 42 }
{
    if has_kind(head) { 42 } else { 26 }
}

/// The height of the heads.
fn head_height(heads: &[Head]) -> usize
    ensures { result ≡ head_height heads.now }
{
    let mut most = 26;
    for head in heads {
        most = most.max(head_room(head));
    }
    most
}

/// Notes the number of a row for its events.
fn put_row(numbers: &mut Vec<usize>, row: Row, r: usize)
    ensures long { length numbers.new.items ≡ length numbers.old.items }
    ensures each { (e : ℕ) → e < length numbers.old.items → get_or numbers.new.items e 0
        ≡ cond (row_passes (nat_eq e) row) r (get_or numbers.old.items e 0) }
{
    put(numbers, row.first as usize, r);
    if let Some(second) = row.second {
        put(numbers, second as usize, r);
    }
}

/// The numbers of the rows of the events. The pass begins with the last row, so each event keeps
/// its first row.
fn row_numbers(alloc: Global, scene: &Scene) -> Result<Vec<usize>, AllocError>
    ensures { IfOk result (λ numbers. numbers.items ≡ row_numbers scene.now) }
{
    let rows = scene.rows.as_slice();
    let many = rows.len();
    let mut numbers = vec![in alloc; many; scene.spots.as_slice().len()]?;
    for k in 0..many {
        let r = many - 1 - k;
        put_row(&mut numbers, rows[r], r);
    }
    Ok(numbers)
}

/// Whether a message to oneself is short, by the rows of events.
fn is_short_arrow(numbers: &[usize], arrow: &Arrow) -> bool
    ensures { result ≡ is_short_arrow numbers.now arrow.now }
{
    arrow.from == arrow.to
        && at(numbers, arrow.output as usize) == at(numbers, arrow.input as usize)
}

/// The same for message `m`, if there is one.
pub fn is_short(numbers: &[usize], scene: &Scene, m: u32) -> bool
    ensures { result ≡ is_short numbers.now (slice_get scene.now.arrows m) }
{
    match scene.arrows.as_slice().get(m as usize) {
        Some(arrow) => is_short_arrow(numbers, arrow),
        None => false,
    }
}

/// The height of a row whose first event has this act.
fn act_height(
    alloc: Global,
    scene: &Scene,
    numbers: &[usize],
    act: &Act,
) -> Result<usize, AllocError>
    ensures { IfOk result (λ height. height ≡ act_height scene.now numbers.now act.now) }
{
    match act {
        Act::Sends(m) => {
            if is_short(numbers, scene, *m) {
                return Ok(48);
            }
            Ok(32)
        }
        Act::Takes(_) => Ok(32),
        Act::Does(text) => {
            let lines = action_box(alloc, text.as_slice())?.lines.as_slice().len();
            plus(times(16, lines)?, 32)
        }
    }
}

/// The height of a row.
fn row_height(
    alloc: Global,
    scene: &Scene,
    numbers: &[usize],
    row: &Row,
) -> Result<usize, AllocError>
    ensures { IfOk result (λ height. height ≡ row_height scene.now numbers.now row.now) }
{
    match scene.spots.as_slice().get(row.first as usize) {
        Some(spot) => act_height(alloc, scene, numbers, &spot.act),
        None => Ok(32),
    }
}

/// The heights of the rows.
fn row_heights(alloc: Global, scene: &Scene, numbers: &[usize]) -> Result<Vec<usize>, AllocError>
    ensures { IfOk result (λ heights. heights.items ≡ row_heights scene.now numbers.now) }
{
    let rows = scene.rows.as_slice();
    let mut heights = Vec::new(alloc);
    for row in rows {
        let height = row_height(alloc, scene, numbers, row)?;
        heights.push(height)?;
    }
    Ok(heights)
}

/// The place at which the heads begin, below a heading.
fn top_of(heading: &[Label]) -> Result<usize, AllocError>
    ensures { IfOk result (λ top. top ≡ top_of heading.now) }
{
    plus(times(18, heading.len())?, 16)
}

/// The height of a picture.
fn height_of(scene: &Scene, top: usize, foot: usize) -> Result<usize, AllocError>
    ensures { IfOk result (λ height. height ≡ height_of scene.now top foot) }
{
    if scene.heads.as_slice().len() == 0 {
        return Ok(top);
    }
    plus(foot, 22)
}

/// The width of a picture, and the places of its axes.
fn axes_of(
    alloc: Global,
    scene: &Scene,
    heading: &[Label],
    depths: &[usize],
) -> Result<(usize, Listed<usize>), AllocError>
    ensures { IfOk result (λ across. across ≡ across_of scene.now heading.now depths.now) }
{
    let gaps = gaps_of(alloc, scene, depths)?;
    let needed = need(alloc, scene, depths, gaps.as_slice())?;
    let width = heading_width(heading)?.max(needed);
    let first = first_axis(alloc, scene, width, needed)?;
    Ok((width, sums(alloc, first, gaps.as_slice())?))
}

/// The places of the rows of a picture whose heads end here, and of the ends of its axes.
fn edges_of(
    alloc: Global,
    scene: &Scene,
    numbers: &[usize],
    below: usize,
) -> Result<(usize, Listed<usize>), AllocError>
    ensures { IfOk result (λ down. down ≡ down_of scene.now numbers.now below) }
{
    let heights = row_heights(alloc, scene, numbers)?;
    let first = plus(below, 8)?;
    let foot = plus(total(first, heights.as_slice())?, 8)?;
    Ok((foot, sums(alloc, first, heights.as_slice())?))
}

/// The layout of a picture below a heading. An error is a growth of memory that was refused.
pub fn layout_of(alloc: Global, scene: &Scene, heading: &[Label]) -> Result<Layout, AllocError>
    ensures { IfOk result (λ layout. layout ≡ layout_of scene.now heading.now) }
{
    let depths = depths_of(alloc, scene)?;
    let rows = row_numbers(alloc, scene)?;
    let (width, axes) = axes_of(alloc, scene, heading, depths.as_slice())?;
    let top = top_of(heading)?;
    let below = plus(top, head_height(scene.heads.as_slice()))?;
    let (foot, edges) = edges_of(alloc, scene, rows.as_slice(), below)?;
    Ok(Layout {
        width,
        height: height_of(scene, top, foot)?,
        top,
        below,
        foot,
        axes,
        edges,
        rows: Listed::from_vec(rows),
        depths: Listed::from_vec(depths),
    })
}
