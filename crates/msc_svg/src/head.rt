//! The heading of a picture, and its instances: their heads, axes and feet.

ghost use Rattle.std.specs.Prelude.{◌≡◌, ◌<◌, ◌+◌, ◌*◌, ◌-◌, ◌/◌, ◌++◌, ◌∷◌, [], IfOk, OnOk, cond};
ghost use Rattle.std.specs.Prelude.{get_or, length, map, ℕ};
ghost use Rattle.std.specs.List.{flat_map, range_with_len};
ghost use Rattle.msc_picture.specs.Columns.{no_head};
ghost use Rattle.msc_svg.specs.Elements.{area, axis_from, axis_node, axis_nodes, foot_node, head_nodes};
ghost use Rattle.msc_svg.specs.Elements.{heading_class};
ghost use Rattle.msc_svg.specs.Elements.{heading_node, heading_nodes, instance_nodes, kind_nodes};
ghost use Rattle.msc_svg.specs.Elements.{head_rect, name_drop, name_node, open_nodes, open_path, stretch_at};
ghost use Rattle.msc_svg.specs.Elements.{stretch_nodes, stretches, tick_path};
ghost use Rattle.msc_tree.specs.Trees.{line_text, lines_text};

use crate::layout::{Layout, has_kind};
use crate::measure::{half, times};
use msc_parser::Label;
use msc_picture::{Band, Head, Scene, plus};
use msc_tree::{Area, put_path, put_point, put_rect, put_step, put_text_at};
use std::alloc::{AllocError, Global};

/// The class of text `k` of a heading.
fn heading_class(k: usize) -> &'static [u8]
    ensures { result.now ≡ heading_class k }
{
    if k == 0 { b"title" } else { b"verdict" }
}

/// Appends text `k` of a heading to a page.
fn put_heading_text(page: &mut Vec<u8>, heading: &[Label], k: usize) -> Result<(), AllocError>
    requires { k < length heading.now }
    ensures { OnOk result
        (page.new.items ≡ page.old.items ++ line_text (heading_node heading.now k)) }
{
    let y = plus(times(18, k)?, 24)?;
    let text = heading[k].as_slice();
    put_text_at(page, heading_class(k), 16, y, text)
}

/// Appends the texts of a heading to a page.
pub fn put_heading(page: &mut Vec<u8>, heading: &[Label]) -> Result<(), AllocError>
    ensures { OnOk result
        (page.new.items ≡ page.old.items ++ lines_text (heading_nodes heading.now)) }
{
    for k in 0..heading.len() {
        put_heading_text(page, heading, k)?;
    }
    Ok(())
}

/// Appends the first and the last place of a band to the stretches, if it is one of instance `i`.
fn put_stretch(
    stretches: &mut Vec<(usize, usize)>,
    layout: &Layout,
    i: usize,
    band: &Band,
) -> Result<(), AllocError>
    ensures { OnOk result (stretches.new.items
        ≡ stretches.old.items ++ stretch_at layout.now i band.now) }
{
    if band.instance as usize != i {
        return Ok(());
    }
    let upper = plus(layout.edge(band.first), 7)?;
    let lower = layout.edge(plus(band.last, 1)?).saturating_sub(7);
    stretches.push((upper, lower))?;
    Ok(())
}

/// The first and the last place of each band of instance `i`.
fn stretches(
    alloc: Global,
    scene: &Scene,
    layout: &Layout,
    i: usize,
) -> Result<Vec<(usize, usize)>, AllocError>
    ensures { IfOk result (λ all. all.items ≡ stretches scene.now layout.now i) }
{
    let mut all = Vec::new(alloc);
    let bands = scene.bands.as_slice();
    for band in bands {
        put_stretch(&mut all, layout, i, band)?;
    }
    Ok(all)
}

/// The path of an axis at `x` from `start` to `foot`, up to its stretches.
fn axis_from(
    alloc: Global,
    x: usize,
    start: usize,
    bands: &[(usize, usize)],
    foot: usize,
) -> Result<Vec<u8>, AllocError>
    ensures { IfOk result (λ d. d.items ≡ axis_from x start bands.now foot) }
{
    let mut d = Vec::new(alloc);
    let mut s = start;
    for band in bands {
        put_point(&mut d, b"M", x, s)?;
        put_step(&mut d, b"V", band.0)?;
        s = band.1;
    }
    put_point(&mut d, b"M", x, s)?;
    put_step(&mut d, b"V", foot)?;
    Ok(d)
}

/// The paths of the stretches at `x`.
fn open_paths(alloc: Global, x: usize, bands: &[(usize, usize)]) -> Result<Vec<u8>, AllocError>
    ensures { IfOk result (λ d. d.items ≡ flat_map (open_path x) bands.now) }
{
    let mut d = Vec::new(alloc);
    for band in bands {
        put_point(&mut d, b"M", x, band.0)?;
        put_step(&mut d, b"V", band.1)?;
    }
    Ok(d)
}

/// The ends of the stretches at `x`.
fn tick_paths(alloc: Global, x: usize, bands: &[(usize, usize)]) -> Result<Vec<u8>, AllocError>
    ensures { IfOk result (λ d. d.items ≡ flat_map (tick_path x) bands.now) }
{
    let mut d = Vec::new(alloc);
    let left = x.saturating_sub(18);
    for band in bands {
        put_point(&mut d, b"M", left, band.0)?;
        d.extend_from_slice(b"h36")?;
        put_point(&mut d, b"M", left, band.1)?;
        d.extend_from_slice(b"h36")?;
    }
    Ok(d)
}

/// Appends the stretches of an axis and their ends to a page.
fn put_stretches(
    page: &mut Vec<u8>,
    alloc: Global,
    x: usize,
    bands: &[(usize, usize)],
) -> Result<(), AllocError>
    ensures { OnOk result
        (page.new.items ≡ page.old.items ++ lines_text (stretch_nodes x bands.now)) }
{
    let opened = open_paths(alloc, x, bands)?;
    let ticks = tick_paths(alloc, x, bands)?;
    put_path(page, b"open", opened.as_slice())?;
    put_path(page, b"tick", ticks.as_slice())
}

/// Appends the open stretches of an axis to a page, if it has any.
fn put_open(
    page: &mut Vec<u8>,
    alloc: Global,
    x: usize,
    bands: &[(usize, usize)],
) -> Result<(), AllocError>
    ensures { OnOk result
        (page.new.items ≡ page.old.items ++ lines_text (open_nodes x bands.now)) }
{
    if bands.len() == 0 {
        return Ok(());
    }
    put_stretches(page, alloc, x, bands)
}

/// The distance of the name of a head below its top.
fn name_drop(layout: &Layout, head: &Head) -> Result<usize, AllocError>
    ensures { IfOk result (λ drop. drop ≡ name_drop layout.now head.now) }
{
    if has_kind(head) {
        return Ok(17);
    }
    plus(layout.below.saturating_sub(layout.top) / 2, 4)
}

/// Appends the kind of an instance to a page, if it has one.
fn put_kind(page: &mut Vec<u8>, layout: &Layout, x: usize, head: &Head) -> Result<(), AllocError>
    ensures { OnOk result
        (page.new.items ≡ page.old.items ++ lines_text (kind_nodes layout.now x head.now)) }
{
    if !has_kind(head) {
        return Ok(());
    }
    let y = plus(layout.top, 33)?;
    put_text_at(page, b"kind", x, y, head.kind.as_slice())
}

/// Appends the box of a head that reaches `w` to both sides of its axis to a page.
fn put_head_rect(page: &mut Vec<u8>, layout: &Layout, x: usize, w: usize) -> Result<(), AllocError>
    ensures { OnOk result
        (page.new.items ≡ page.old.items ++ line_text (head_rect layout.now x w)) }
{
    let around = Area {
        x: x.saturating_sub(w),
        y: layout.top,
        width: times(2, w)?,
        height: layout.below.saturating_sub(layout.top),
    };
    put_rect(page, b"head", around, 0)
}

/// Appends the name of an instance to a page.
fn put_name(page: &mut Vec<u8>, layout: &Layout, x: usize, head: &Head) -> Result<(), AllocError>
    ensures { OnOk result
        (page.new.items ≡ page.old.items ++ line_text (name_node layout.now x head.now)) }
{
    let y = plus(layout.top, name_drop(layout, head)?)?;
    put_text_at(page, b"name", x, y, head.name.as_slice())
}

/// Appends a head that reaches `w` to both sides of its axis to a page.
fn put_head(
    page: &mut Vec<u8>,
    layout: &Layout,
    x: usize,
    w: usize,
    head: &Head,
) -> Result<(), AllocError>
    ensures { OnOk result
        (page.new.items ≡ page.old.items ++ lines_text (head_nodes layout.now x w head.now)) }
{
    put_head_rect(page, layout, x, w)?;
    put_name(page, layout, x, head)?;
    put_kind(page, layout, x, head)
}

/// Appends an axis without its stretches to a page.
fn put_axis_path(
    page: &mut Vec<u8>,
    alloc: Global,
    layout: &Layout,
    x: usize,
    bands: &[(usize, usize)],
) -> Result<(), AllocError>
    ensures { OnOk result
        (page.new.items ≡ page.old.items ++ line_text (axis_node layout.now x bands.now)) }
{
    let d = axis_from(alloc, x, layout.below, bands, layout.foot)?;
    put_path(page, b"axis", d.as_slice())
}

/// Appends the foot of an axis to a page.
fn put_foot(page: &mut Vec<u8>, layout: &Layout, x: usize) -> Result<(), AllocError>
    ensures { OnOk result
        (page.new.items ≡ page.old.items ++ line_text (foot_node layout.now x)) }
{
    let foot = Area {
        x: x.saturating_sub(12),
        y: layout.foot,
        width: 24,
        height: 6,
    };
    put_rect(page, b"foot", foot, 0)
}

/// Appends an axis with its stretches, and its foot, to a page.
fn put_axis(
    page: &mut Vec<u8>,
    alloc: Global,
    layout: &Layout,
    x: usize,
    bands: &[(usize, usize)],
) -> Result<(), AllocError>
    ensures { OnOk result
        (page.new.items ≡ page.old.items ++ lines_text (axis_nodes layout.now x bands.now)) }
{
    put_axis_path(page, alloc, layout, x, bands)?;
    put_open(page, alloc, x, bands)?;
    put_foot(page, layout, x)?;
    Ok(())
}

/// Appends instance `i` to a page.
fn put_instance(
    page: &mut Vec<u8>,
    alloc: Global,
    scene: &Scene,
    layout: &Layout,
    i: usize,
) -> Result<(), AllocError>
    requires { i < length scene.now.heads }
    ensures { OnOk result
        (page.new.items ≡ page.old.items ++ lines_text (instance_nodes scene.now layout.now i)) }
{
    let x = layout.axis_at(i);
    let w = half(scene, i)?;
    let bands = stretches(alloc, scene, layout, i)?;
    put_head(page, layout, x, w, &scene.heads.as_slice()[i])?;
    put_axis(page, alloc, layout, x, bands.as_slice())?;
    Ok(())
}

/// Appends the instances to a page.
pub fn put_instances(
    page: &mut Vec<u8>,
    alloc: Global,
    scene: &Scene,
    layout: &Layout,
) -> Result<(), AllocError>
    ensures { OnOk result (page.new.items ≡ page.old.items ++ lines_text
        (flat_map (instance_nodes scene.now layout.now) (range_with_len 0 (length scene.now.heads)))) }
{
    for i in 0..scene.heads.as_slice().len() {
        put_instance(page, alloc, scene, layout, i)?;
    }
    Ok(())
}
