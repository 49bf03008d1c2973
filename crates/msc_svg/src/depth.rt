//! The depths of messages to oneself: how far they reach from their axes.

ghost use Rattle.std.specs.Prelude.{◌≡◌, ◌<◌, [], IfOk, List, OnOk, filter, fold, length, max};
ghost use Rattle.std.specs.Prelude.{replicate, slice_get, slice_set};
ghost use Rattle.msc_picture.specs.Laws.{events_of_rows};
ghost use Rattle.msc_svg.specs.Depths.{begun, depths_of, is_other, next_depth, past_depth};
ghost use Rattle.msc_svg.specs.Depths.{sent, walked};

use msc_chart::Event;
use msc_picture::{Act, Row, Scene, plus};
use std::alloc::{AllocError, Global};

/// A message to oneself that is under way, its instance, and its depth.
#[derive(Clone, Copy)]
pub struct Underway {
    pub message: u32,
    pub instance: u32,
    pub depth: usize,
}

/// One more than the depth of a message to oneself of this instance that is under way.
fn past_depth(u: &Underway, instance: u32) -> Result<usize, AllocError>
    ensures { IfOk result (λ depth. depth ≡ past_depth instance u.now) }
{
    if u.instance == instance {
        return plus(u.depth, 1);
    }
    Ok(0)
}

/// The depth of a message to oneself of this instance that begins while these are under way.
fn next_depth(under: &[Underway], instance: u32) -> Result<usize, AllocError>
    ensures { IfOk result (λ depth. depth ≡ next_depth under.now instance) }
{
    let mut most = 0;
    for u in under {
        most = most.max(past_depth(u, instance)?);
    }
    Ok(most)
}

/// Puts a number into a table. A place past it takes none.
pub fn put(table: &mut Vec<usize>, at: usize, n: usize)
    ensures { table.new.items ≡ slice_set table.old.items at n }
{
    if at < table.len() {
        table[at] = n;
    }
}

/// Reaches the output `e` of message `m` of an instance to itself.
fn begin(
    table: &mut Vec<usize>,
    under: &mut Vec<Underway>,
    e: Event,
    m: u32,
    instance: u32,
) -> Result<(), AllocError>
    ensures { OnOk result ((table.new.items, under.new.items)
        ≡ begun e m instance (table.old.items, under.old.items)) }
{
    let depth = next_depth(under.as_slice(), instance)?;
    put(table, e as usize, depth);
    under.push(Underway {
        message: m,
        instance,
        depth,
    })?;
    Ok(())
}

/// Reaches the output `e` of message `m`.
fn send(
    table: &mut Vec<usize>,
    under: &mut Vec<Underway>,
    scene: &Scene,
    e: Event,
    m: u32,
) -> Result<(), AllocError>
    ensures { OnOk result ((table.new.items, under.new.items)
        ≡ sent e m (table.old.items, under.old.items) (slice_get scene.now.arrows m)) }
{
    let Some(arrow) = scene.arrows.as_slice().get(m as usize) else {
        return Ok(());
    };
    if arrow.from == arrow.to {
        return begin(table, under, e, m, arrow.from);
    }
    Ok(())
}

/// The messages under way without message `m`, whose input is reached.
fn others(alloc: Global, under: &[Underway], m: u32) -> Result<Vec<Underway>, AllocError>
    ensures { IfOk result (λ kept. kept.items ≡ filter (is_other m) under.now) }
{
    let mut kept = Vec::new(alloc);
    for u in under {
        if u.message != m {
            kept.push(*u)?;
        }
    }
    Ok(kept)
}

/// Reaches event `e`.
fn walk(
    table: &mut Vec<usize>,
    under: &mut Vec<Underway>,
    alloc: Global,
    scene: &Scene,
    e: Event,
) -> Result<(), AllocError>
    ensures { OnOk result ((table.new.items, under.new.items)
        ≡ walked scene.now (table.old.items, under.old.items) e) }
{
    let Some(spot) = scene.spots.as_slice().get(e as usize) else {
        return Ok(());
    };
    match &spot.act {
        Act::Sends(m) => send(table, under, scene, e, *m),
        Act::Takes(m) => {
            *under = others(alloc, under.as_slice(), *m)?;
            Ok(())
        }
        Act::Does(_) => Ok(()),
    }
}

/// The events of rows, read from the first row down.
pub fn events_of_rows(alloc: Global, rows: &[Row]) -> Result<Vec<Event>, AllocError>
    ensures { IfOk result (λ order. order.items ≡ events_of_rows rows.now) }
{
    let mut order = Vec::new(alloc);
    for row in rows {
        order.push(row.first)?;
        if let Some(second) = row.second {
            order.push(second)?;
        }
    }
    Ok(order)
}

/// The depths of messages to oneself, by their outputs.
pub fn depths_of(alloc: Global, scene: &Scene) -> Result<Vec<usize>, AllocError>
    ensures { IfOk result (λ depths. depths.items ≡ depths_of scene.now) }
{
    let order = events_of_rows(alloc, scene.rows.as_slice())?;
    let mut table = vec![in alloc; 0; scene.spots.as_slice().len()]?;
    let mut under = Vec::new(alloc);
    for e in order.as_slice() {
        walk(&mut table, &mut under, alloc, scene, *e)?;
    }
    Ok(table)
}
