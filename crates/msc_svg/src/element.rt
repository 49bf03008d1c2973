//! The arrows of messages, the boxes of actions and the plates of texts.

ghost use Rattle.std.specs.Prelude.{◌≡◌, ◌<◌, ◌+◌, ◌*◌, ◌-◌, ◌++◌, ◌∷◌, [], IfOk, OnOk, codes};
ghost use Rattle.std.specs.Prelude.{cond, get_or, length, map, slice_get};
ghost use Rattle.std.specs.List.{flat_map, range_with_len};
ghost use Rattle.msc_picture.specs.Laws.{events_of_rows};
ghost use Rattle.msc_svg.specs.Elements.{area, arrow_node, box_nodes, boxes};
ghost use Rattle.msc_svg.specs.Elements.{other_path, own_path, plate_nodes, spot_nodes, words_at};
ghost use Rattle.msc_svg.specs.Elements.{words_nodes};
ghost use Rattle.msc_svg.specs.Hits.{AreHits};
ghost use Rattle.msc_tree.specs.Trees.{line_text, lines_text};

use crate::action::{ActionBox, action_box};
use crate::caption::{Caption, plates};
use crate::hits::hits_of;
use crate::layout::Layout;
use crate::measure::times;
use crate::place::place;
use msc_chart::Event;
use msc_picture::{Act, Arrow, Scene, plus};
use msc_tree::{Area, put_path, put_point, put_rect, put_step, put_text_at};
use std::alloc::{AllocError, Global};

/// The path of a message to oneself.
fn own_path(alloc: Global, scene: &Scene, layout: &Layout, a: &Arrow) -> Result<Vec<u8>, AllocError>
    ensures { IfOk result (λ d. d.items ≡ own_path scene.now layout.now a.now) }
{
    let x = layout.axis(a.from);
    let wide = plus(times(8, layout.depth(a.output))?, 40)?;
    let mut d = Vec::new(alloc);
    put_point(&mut d, b"M", x, place(scene, layout, a.output)?)?;
    put_step(&mut d, b"h", wide)?;
    put_step(&mut d, b"V", place(scene, layout, a.input)?)?;
    put_step(&mut d, b"H", x)?;
    Ok(d)
}

/// The path of a message to another instance.
fn other_path(
    alloc: Global,
    scene: &Scene,
    layout: &Layout,
    a: &Arrow,
) -> Result<Vec<u8>, AllocError>
    ensures { IfOk result (λ d. d.items ≡ other_path scene.now layout.now a.now) }
{
    let upper = place(scene, layout, a.output)?;
    let lower = place(scene, layout, a.input)?;
    let mut d = Vec::new(alloc);
    put_point(&mut d, b"M", layout.axis(a.from), upper)?;
    put_point(&mut d, b"L", layout.axis(a.to), lower)?;
    Ok(d)
}

/// Appends the arrow of a message to a page.
fn put_arrow(
    page: &mut Vec<u8>,
    alloc: Global,
    scene: &Scene,
    layout: &Layout,
    a: &Arrow,
) -> Result<(), AllocError>
    ensures { OnOk result (page.new.items
        ≡ page.old.items ++ line_text (arrow_node scene.now layout.now a.now)) }
{
    if a.from == a.to {
        let own = own_path(alloc, scene, layout, a)?;
        return put_path(page, b"arrow", own.as_slice());
    }
    let other = other_path(alloc, scene, layout, a)?;
    put_path(page, b"arrow", other.as_slice())
}

/// Appends the arrows of the messages to a page.
pub fn put_arrows(
    page: &mut Vec<u8>,
    alloc: Global,
    scene: &Scene,
    layout: &Layout,
) -> Result<(), AllocError>
    ensures { OnOk result (page.new.items ≡ page.old.items
        ++ lines_text (map (arrow_node scene.now layout.now) scene.now.arrows)) }
{
    let arrows = scene.arrows.as_slice();
    for arrow in arrows {
        put_arrow(page, alloc, scene, layout, arrow)?;
    }
    Ok(())
}

/// Appends the plates to a page, if there are events.
pub fn put_plates(page: &mut Vec<u8>, alloc: Global, captions: &[Caption]) -> Result<(), AllocError>
    ensures { OnOk result
        (page.new.items ≡ page.old.items ++ lines_text (plate_nodes captions.now)) }
{
    if captions.len() == 0 {
        return Ok(());
    }
    put_path(page, b"plate", plates(alloc, captions)?.as_slice())
}

/// Appends line `k` of a box to a page, if it is not empty.
fn put_words_at(
    page: &mut Vec<u8>,
    x: usize,
    y: usize,
    at: &ActionBox,
    k: usize,
) -> Result<(), AllocError>
    requires { k < length at.now.lines }
    ensures { OnOk result
        (page.new.items ≡ page.old.items ++ lines_text (words_at x y at.now k)) }
{
    let line = at.lines.as_slice()[k].as_slice();
    if line.len() == 0 {
        return Ok(());
    }
    let below = plus(times(16, k)?, 16)?;
    put_text_at(
        page,
        b"words",
        x,
        plus(y.saturating_sub(at.up), below)?,
        line,
    )
}

/// Appends the lines of a box to a page.
fn put_words(page: &mut Vec<u8>, x: usize, y: usize, at: &ActionBox) -> Result<(), AllocError>
    ensures { OnOk result
        (page.new.items ≡ page.old.items ++ lines_text (words_nodes x y at.now)) }
{
    for k in 0..at.lines.as_slice().len() {
        put_words_at(page, x, y, at, k)?;
    }
    Ok(())
}

/// The class of the box of an event that belongs to a bar, or to none.
fn box_class(is_hit: bool) -> &'static [u8]
    ensures { result.now ≡ cond is_hit (codes "action hit") (codes "action") }
{
    if is_hit { b"action hit" } else { b"action" }
}

/// Appends a box to a page.
fn put_box(
    page: &mut Vec<u8>,
    class: &[u8],
    x: usize,
    y: usize,
    at: &ActionBox,
) -> Result<(), AllocError>
    ensures { OnOk result
        (page.new.items ≡ page.old.items ++ lines_text (box_nodes class.now x y at.now)) }
{
    let around = Area {
        x: x.saturating_sub(at.reach),
        y: y.saturating_sub(at.up),
        width: times(2, at.reach)?,
        height: times(2, at.up)?,
    };
    put_rect(page, class, around, 0)?;
    put_words(page, x, y, at)
}

/// Appends the box of event `e` to a page, if it is an action.
fn put_spot(
    page: &mut Vec<u8>,
    alloc: Global,
    scene: &Scene,
    layout: &Layout,
    hits: &[bool],
    e: Event,
) -> Result<(), AllocError>
    requires { AreHits scene.now hits.now }
    ensures { OnOk result (page.new.items ≡ page.old.items
        ++ lines_text (spot_nodes scene.now layout.now e (slice_get scene.now.spots e))) }
{
    let Some(spot) = scene.spots.as_slice().get(e as usize) else {
        return Ok(());
    };
    match &spot.act {
        Act::Does(text) => {
            let at = action_box(alloc, text.as_slice())?;
            let x = layout.axis(spot.instance);
            let y = layout.event_middle(e)?;
            put_box(page, box_class(hits[e as usize]), x, y, &at)
        }
        Act::Sends(_) | Act::Takes(_) => Ok(()),
    }
}

/// Appends the boxes of actions to a page.
pub fn put_boxes(
    page: &mut Vec<u8>,
    alloc: Global,
    scene: &Scene,
    layout: &Layout,
    order: &[Event],
) -> Result<(), AllocError>
    requires { order.now ≡ events_of_rows scene.now.rows }
    ensures { OnOk result
        (page.new.items ≡ page.old.items ++ lines_text (boxes scene.now layout.now)) }
{
    let hits = hits_of(alloc, scene)?;
    for e in order {
        put_spot(page, alloc, scene, layout, &hits, *e)?;
    }
    Ok(())
}
