//! The bars of races and their badges.

ghost use Rattle.std.specs.Prelude.{◌≡◌, ◌+◌, ◌*◌, ◌-◌, ◌++◌, ◌∷◌, [], IfOk, OnOk, codes, length};
ghost use Rattle.std.specs.Prelude.{nat_eq, slice_get};
ghost use Rattle.std.specs.Fmt.{decimal};
ghost use Rattle.std.specs.List.{flat_map};
ghost use Rattle.msc_svg.specs.Elements.{area, badge_nodes, badge_of, capsule, capsule_of};
ghost use Rattle.msc_svg.specs.Elements.{count_rect};
ghost use Rattle.msc_svg.specs.Elements.{count_text, end_at, ends_at, bar_end, bar_nodes, bar_top};
ghost use Rattle.msc_svg.specs.Places.{place};
ghost use Rattle.msc_tree.specs.Shapes.{end_circle, text_at};
ghost use Rattle.msc_tree.specs.Trees.{line_text, lines_text};

use crate::layout::Layout;
use crate::measure::times;
use crate::place::{greatest_place, least_edge, least_place, place};
use msc_chart::Event;
use msc_picture::{Act, RaceBar, Scene, plus};
use msc_tree::{Area, put_decimal, put_end_circle, put_rect, put_text_at};
use std::alloc::{AllocError, Global};

/// Appends an end of a race to a page.
fn put_circle_of(
    page: &mut Vec<u8>,
    scene: &Scene,
    layout: &Layout,
    x: usize,
    e: Event,
) -> Result<(), AllocError>
    ensures { OnOk result (page.new.items ≡ page.old.items
        ++ lines_text (end_circle x (place scene.now layout.now e) ∷ [])) }
{
    let y = place(scene, layout, e)?;
    put_end_circle(page, x, y)
}

/// Appends an end of a race to a page, if it is no action.
fn put_end(
    page: &mut Vec<u8>,
    scene: &Scene,
    layout: &Layout,
    x: usize,
    e: Event,
) -> Result<(), AllocError>
    ensures { OnOk result (page.new.items ≡ page.old.items
        ++ lines_text (end_at scene.now layout.now x e (slice_get scene.now.spots e))) }
{
    let Some(spot) = scene.spots.as_slice().get(e as usize) else {
        return Ok(());
    };
    match &spot.act {
        Act::Sends(_) => put_circle_of(page, scene, layout, x, e),
        Act::Takes(_) => put_circle_of(page, scene, layout, x, e),
        Act::Does(_) => Ok(()),
    }
}

/// Appends ends of races that are no actions to a page.
fn put_ends(
    page: &mut Vec<u8>,
    scene: &Scene,
    layout: &Layout,
    x: usize,
    events: &[Event],
) -> Result<(), AllocError>
    ensures { OnOk result (page.new.items
        ≡ page.old.items ++ lines_text (ends_at scene.now layout.now x events.now)) }
{
    for e in events {
        put_end(page, scene, layout, x, *e)?;
    }
    Ok(())
}

/// Appends a capsule around an axis to a page, from the least to the greatest of these places.
fn put_capsule(page: &mut Vec<u8>, x: usize, least: usize, most: usize) -> Result<(), AllocError>
    ensures { OnOk result
        (page.new.items ≡ page.old.items ++ line_text (capsule x least most)) }
{
    let around = Area {
        x: x.saturating_sub(9),
        y: least.saturating_sub(9),
        width: 18,
        height: plus(most.saturating_sub(least), 18)?,
    };
    put_rect(page, b"race", around, 9)
}

/// The least place of the events of a bar.
fn bar_top(scene: &Scene, layout: &Layout, bar: &RaceBar) -> Result<usize, AllocError>
    ensures { IfOk result (λ y. y ≡ bar_top scene.now layout.now bar.now) }
{
    let first = least_place(scene, layout, layout.foot, bar.upper.as_slice())?;
    least_place(scene, layout, first, bar.lower.as_slice())
}

/// The greatest place of the events of a bar.
fn bar_end(scene: &Scene, layout: &Layout, bar: &RaceBar) -> Result<usize, AllocError>
    ensures { IfOk result (λ y. y ≡ bar_end scene.now layout.now bar.now) }
{
    let last = greatest_place(scene, layout, 0, bar.upper.as_slice())?;
    greatest_place(scene, layout, last, bar.lower.as_slice())
}

/// Appends the capsule of a bar to a page.
fn put_capsule_of(
    page: &mut Vec<u8>,
    scene: &Scene,
    layout: &Layout,
    bar: &RaceBar,
) -> Result<(), AllocError>
    ensures { OnOk result (page.new.items
        ≡ page.old.items ++ line_text (capsule_of scene.now layout.now bar.now)) }
{
    let x = layout.axis(bar.instance);
    let least = bar_top(scene, layout, bar)?;
    let most = bar_end(scene, layout, bar)?;
    put_capsule(page, x, least, most)?;
    Ok(())
}

/// Appends a bar to a page.
fn put_bar(
    page: &mut Vec<u8>,
    scene: &Scene,
    layout: &Layout,
    bar: &RaceBar,
) -> Result<(), AllocError>
    ensures { OnOk result (page.new.items
        ≡ page.old.items ++ lines_text (bar_nodes scene.now layout.now bar.now)) }
{
    let x = layout.axis(bar.instance);
    put_capsule_of(page, scene, layout, bar)?;
    put_ends(page, scene, layout, x, bar.upper.as_slice())?;
    put_ends(page, scene, layout, x, bar.lower.as_slice())?;
    Ok(())
}

/// Appends the bars to a page.
pub fn put_bars(page: &mut Vec<u8>, scene: &Scene, layout: &Layout) -> Result<(), AllocError>
    ensures { OnOk result (page.new.items ≡ page.old.items
        ++ lines_text (flat_map (bar_nodes scene.now layout.now) scene.now.bars)) }
{
    let bars = scene.bars.as_slice();
    for bar in bars {
        put_bar(page, scene, layout, bar)?;
    }
    Ok(())
}

/// The numbers of a bar's races.
fn count_text(alloc: Global, bar: &RaceBar) -> Result<Vec<u8>, AllocError>
    ensures { IfOk result (λ text. text.items ≡ count_text bar.now) }
{
    let mut text = Vec::new(alloc);
    put_decimal(&mut text, bar.first)?;
    if bar.first != bar.last {
        text.extend_from_slice(b"-")?;
        put_decimal(&mut text, bar.last)?;
    }
    Ok(text)
}

/// Appends the plate of a badge with a text of this length to a page.
fn put_count(page: &mut Vec<u8>, x: usize, z: usize, long: usize) -> Result<(), AllocError>
    ensures { OnOk result (page.new.items ≡ page.old.items ++ line_text (count_rect x z long)) }
{
    let v = plus(times(3, long)?, 5)?;
    let around = Area {
        x: x.saturating_sub(v),
        y: z.saturating_sub(10),
        width: times(2, v)?,
        height: 15,
    };
    put_rect(page, b"count", around, 7)
}

/// Appends the text of a badge to a page.
fn put_count_text(page: &mut Vec<u8>, x: usize, z: usize, text: &[u8]) -> Result<(), AllocError>
    ensures { OnOk result
        (page.new.items ≡ page.old.items ++ line_text (text_at (codes "badge") x (z + 1) text.now)) }
{
    let y = plus(z, 1)?;
    put_text_at(page, b"badge", x, y, text)
}

/// Appends the badge of a text to a page.
fn put_badge(page: &mut Vec<u8>, x: usize, z: usize, text: &[u8]) -> Result<(), AllocError>
    ensures { OnOk result
        (page.new.items ≡ page.old.items ++ lines_text (badge_nodes x z text.now)) }
{
    put_count(page, x, z, text.len())?;
    put_count_text(page, x, z, text)?;
    Ok(())
}

/// Appends the badge of a bar with a number to a page.
fn put_badge_of(
    page: &mut Vec<u8>,
    alloc: Global,
    layout: &Layout,
    bar: &RaceBar,
) -> Result<(), AllocError>
    ensures { OnOk result
        (page.new.items ≡ page.old.items ++ lines_text (badge_of layout.now bar.now)) }
{
    if bar.first == 0 {
        return Ok(());
    }
    let text = count_text(alloc, bar)?;
    let x = layout.axis(bar.instance);
    let z = least_edge(layout, bar.lower.as_slice());
    put_badge(page, x, z, text.as_slice())
}

/// Appends the badges to a page.
pub fn put_badges(
    page: &mut Vec<u8>,
    alloc: Global,
    scene: &Scene,
    layout: &Layout,
) -> Result<(), AllocError>
    ensures { OnOk result (page.new.items ≡ page.old.items
        ++ lines_text (flat_map (badge_of layout.now) scene.now.bars)) }
{
    let bars = scene.bars.as_slice();
    for bar in bars {
        put_badge_of(page, alloc, layout, bar)?;
    }
    Ok(())
}
