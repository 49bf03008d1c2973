//! The labels of messages and the numbers of events.

ghost use Rattle.std.specs.Prelude.{◌≡◌, ◌+◌, ◌*◌, ◌-◌, ◌/◌, ◌++◌, IfOk, OnOk, codes, length};
ghost use Rattle.std.specs.Prelude.{map, slice_get};
ghost use Rattle.std.specs.Fmt.{decimal};
ghost use Rattle.std.specs.List.{flat_map};
ghost use Rattle.msc_picture.specs.Laws.{events_of_rows};
ghost use Rattle.msc_svg.specs.Captions.{act_captions, action_number, arrow_label, begin_at, caption_class};
ghost use Rattle.msc_svg.specs.Captions.{caption_node, caption_plate, caption_width, captions_of};
ghost use Rattle.msc_svg.specs.Captions.{comes_from_right, end_number, gap_middle, goes_right, label};
ghost use Rattle.msc_svg.specs.Captions.{label_class, label_of, number, other_label, plate, plates};
ghost use Rattle.msc_svg.specs.Captions.{spot_captions, taken_number};
ghost use Rattle.msc_picture.specs.declared.scene.Act.{Act};
ghost use Rattle.msc_tree.specs.Trees.{line_text, lines_text};

use crate::action::action_box;
use crate::layout::Layout;
use crate::measure::times;
use crate::place::place;
use listed::Listed;
use msc_chart::Event;
use msc_parser::Label;
use msc_picture::{Act, Arrow, Scene, Spot, plus};
use msc_tree::{put_decimal, put_point, put_step, put_text_at};
use std::alloc::{AllocError, Global};

/// The side of a text: around its place, right of it, or left of it.
#[derive(Clone, Copy)]
pub enum Side {
    Middle,
    Right,
    Left,
}

/// A label of a message, or the number of an event.
#[derive(Drop)]
pub struct Caption {
    pub number: bool,
    pub side: Side,
    pub x: usize,
    pub y: usize,
    pub text: Label,
}

/// A label.
fn label(alloc: Global, side: Side, x: usize, y: usize, text: &[u8]) -> Result<Caption, AllocError>
    ensures { IfOk result (λ c. c ≡ label side x y text.now) }
{
    Ok(Caption {
        number: false,
        side,
        x,
        y,
        text: Listed::from_vec(Vec::from_slice(alloc, text)?),
    })
}

/// The number of event `e`.
fn number(alloc: Global, side: Side, x: usize, y: usize, e: Event) -> Result<Caption, AllocError>
    ensures { IfOk result (λ c. c ≡ number side x y e) }
{
    let mut text = Vec::new(alloc);
    put_decimal(&mut text, e as usize)?;
    Ok(Caption {
        number: true,
        side,
        x,
        y,
        text: Listed::from_vec(text),
    })
}

/// The middle of the gap next to instance `i` towards instance `j`.
fn gap_middle(layout: &Layout, i: u32, j: u32) -> Result<usize, AllocError>
    ensures { IfOk result (λ x. x ≡ gap_middle layout.now i j) }
{
    if i < j {
        return Ok(plus(layout.axis(i), layout.axis(i + 1))? / 2);
    }
    Ok(plus(layout.axis(i.saturating_sub(1)), layout.axis(i))? / 2)
}

/// The label of a message to another instance.
fn other_label(alloc: Global, layout: &Layout, a: &Arrow) -> Result<Caption, AllocError>
    ensures { IfOk result (λ c. c ≡ other_label layout.now a.now) }
{
    let text = a.label.as_slice();
    let y = layout.event_middle(a.output)?.saturating_sub(6);
    if layout.row(a.output) == layout.row(a.input) {
        return label(
            alloc,
            Side::Middle,
            gap_middle(layout, a.from, a.to)?,
            y,
            text,
        );
    }
    let x = layout.axis(a.from);
    if a.from < a.to {
        return label(alloc, Side::Right, plus(x, 32)?, y, text);
    }
    label(alloc, Side::Left, x.saturating_sub(32), y, text)
}

/// The label of a message.
fn arrow_label(alloc: Global, layout: &Layout, a: &Arrow) -> Result<Caption, AllocError>
    ensures { IfOk result (λ c. c ≡ arrow_label layout.now a.now) }
{
    if a.from != a.to {
        return other_label(alloc, layout, a);
    }
    let behind = plus(times(8, layout.depth(a.output))?, 48)?;
    let x = plus(layout.axis(a.from), behind)?;
    let y = plus(layout.event_middle(a.output)?, 4)?;
    label(alloc, Side::Right, x, y, a.label.as_slice())
}

/// Appends the label of message `m` to the captions, if there is one.
fn put_label(
    captions: &mut Vec<Caption>,
    alloc: Global,
    scene: &Scene,
    layout: &Layout,
    m: u32,
) -> Result<(), AllocError>
    ensures { OnOk result (captions.new.items ≡ captions.old.items
        ++ label_of layout.now (slice_get scene.now.arrows m)) }
{
    let Some(arrow) = scene.arrows.as_slice().get(m as usize) else {
        return Ok(());
    };
    let next = arrow_label(alloc, layout, arrow)?;
    captions.push(next)?;
    Ok(())
}

/// The number of an end of a message on instance `i`.
fn end_number(
    alloc: Global,
    scene: &Scene,
    layout: &Layout,
    e: Event,
    i: u32,
    is_left: bool,
) -> Result<Caption, AllocError>
    ensures { IfOk result (λ c. c ≡ end_number scene.now layout.now e i is_left) }
{
    let x = layout.axis(i);
    let y = plus(place(scene, layout, e)?, 3)?;
    if is_left {
        return number(alloc, Side::Left, x.saturating_sub(12), y, e);
    }
    number(alloc, Side::Right, plus(x, 12)?, y, e)
}

/// Whether the output of message `m` goes to its own instance or to a later one.
fn goes_right(scene: &Scene, m: u32) -> bool
    ensures { result ≡ goes_right (slice_get scene.now.arrows m) }
{
    match scene.arrows.as_slice().get(m as usize) {
        Some(a) => a.from <= a.to,
        None => false,
    }
}

/// Whether the input of message `m` comes from its own instance or from a later one.
fn comes_from_right(scene: &Scene, m: u32) -> bool
    ensures { result ≡ comes_from_right (slice_get scene.now.arrows m) }
{
    match scene.arrows.as_slice().get(m as usize) {
        Some(a) => a.to <= a.from,
        None => false,
    }
}

/// The number of an action on instance `i`.
fn action_number(
    alloc: Global,
    layout: &Layout,
    e: Event,
    i: u32,
    text: &[u8],
) -> Result<Caption, AllocError>
    ensures { IfOk result (λ c. c ≡ action_number layout.now e i text.now) }
{
    let reach = plus(action_box(alloc, text)?.reach, 6)?;
    let x = plus(layout.axis(i), reach)?;
    let y = plus(layout.event_middle(e)?, 3)?;
    number(alloc, Side::Right, x, y, e)
}

/// Appends the label of message `m`, and the number of its output `e` on instance `i`, to the
/// captions.
fn put_sent(
    captions: &mut Vec<Caption>,
    alloc: Global,
    scene: &Scene,
    layout: &Layout,
    e: Event,
    i: u32,
    m: u32,
) -> Result<(), AllocError>
    ensures { OnOk result (captions.new.items ≡ captions.old.items
        ++ act_captions scene.now layout.now e i (Act.Sends m)) }
{
    put_label(captions, alloc, scene, layout, m)?;
    let next = end_number(alloc, scene, layout, e, i, goes_right(scene, m))?;
    captions.push(next)?;
    Ok(())
}

/// The number of the input `e` of message `m` on instance `i`.
fn taken_number(
    alloc: Global,
    scene: &Scene,
    layout: &Layout,
    e: Event,
    i: u32,
    m: u32,
) -> Result<Caption, AllocError>
    ensures { IfOk result (λ c. c ≡ taken_number scene.now layout.now e i m) }
{
    end_number(alloc, scene, layout, e, i, comes_from_right(scene, m))
}

/// Appends the label of an output and the number of event `e` to the captions.
fn put_act(
    captions: &mut Vec<Caption>,
    alloc: Global,
    scene: &Scene,
    layout: &Layout,
    e: Event,
    spot: &Spot,
) -> Result<(), AllocError>
    ensures { OnOk result (captions.new.items ≡ captions.old.items
        ++ act_captions scene.now layout.now e spot.now.instance spot.now.act) }
{
    let i = spot.instance;
    match &spot.act {
        Act::Sends(m) => put_sent(captions, alloc, scene, layout, e, i, *m),
        Act::Takes(m) => {
            captions.push(taken_number(alloc, scene, layout, e, i, *m)?)?;
            Ok(())
        }
        Act::Does(text) => {
            captions.push(action_number(alloc, layout, e, i, text.as_slice())?)?;
            Ok(())
        }
    }
}

/// The same for event `e`, if there is one.
fn put_captions(
    captions: &mut Vec<Caption>,
    alloc: Global,
    scene: &Scene,
    layout: &Layout,
    e: Event,
) -> Result<(), AllocError>
    ensures { OnOk result (captions.new.items ≡ captions.old.items
        ++ spot_captions scene.now layout.now e (slice_get scene.now.spots e)) }
{
    let Some(spot) = scene.spots.as_slice().get(e as usize) else {
        return Ok(());
    };
    put_act(captions, alloc, scene, layout, e, spot)?;
    Ok(())
}

/// The labels and numbers of a picture, in the order of its events.
pub fn captions_of(
    alloc: Global,
    scene: &Scene,
    layout: &Layout,
    order: &[Event],
) -> Result<Vec<Caption>, AllocError>
    requires { order.now ≡ events_of_rows scene.now.rows }
    ensures { IfOk result (λ captions. captions.items ≡ captions_of scene.now layout.now) }
{
    let mut captions = Vec::new(alloc);
    for e in order {
        put_captions(&mut captions, alloc, scene, layout, *e)?;
    }
    Ok(captions)
}

/// The class of a label.
fn label_class(side: Side) -> &'static [u8]
    ensures { result.now ≡ label_class side }
{
    match side {
        Side::Middle => b"label",
        Side::Right => b"right",
        Side::Left => b"left",
    }
}

/// Appends the element of a label or a number to a page.
fn put_caption(page: &mut Vec<u8>, alloc: Global, c: &Caption) -> Result<(), AllocError>
    ensures { OnOk result
        (page.new.items ≡ page.old.items ++ line_text (caption_node c.now)) }
{
    let mut class = Vec::new(alloc);
    if c.number {
        class.extend_from_slice(b"number ")?;
    }
    class.extend_from_slice(label_class(c.side))?;
    put_text_at(page, class.as_slice(), c.x, c.y, c.text.as_slice())
}

/// Appends the elements of labels and numbers to a page.
pub fn put_caption_nodes(
    page: &mut Vec<u8>,
    alloc: Global,
    captions: &[Caption],
) -> Result<(), AllocError>
    ensures { OnOk result
        (page.new.items ≡ page.old.items ++ lines_text (map caption_node captions.now)) }
{
    for caption in captions {
        put_caption(page, alloc, caption)?;
    }
    Ok(())
}

/// The width of a label or a number.
fn caption_width(c: &Caption) -> Result<usize, AllocError>
    ensures { IfOk result (λ w. w ≡ caption_width c.now) }
{
    let long = c.text.as_slice().len();
    if c.number {
        return times(6, long);
    }
    times(8, long)
}

/// The beginning of a text of width `w`.
fn begin_at(side: Side, x: usize, w: usize) -> usize
    ensures { result ≡ begin_at side x w }
{
    match side {
        Side::Middle => x.saturating_sub(w / 2),
        Side::Right => x,
        Side::Left => x.saturating_sub(w),
    }
}

/// Appends a plate to a path.
fn put_plate(d: &mut Vec<u8>, u: usize, v: usize, w: usize, h: usize) -> Result<(), AllocError>
    ensures { OnOk result (d.new.items ≡ d.old.items ++ plate u v w h) }
{
    put_point(d, b"M", u, v)?;
    put_step(d, b"h", w)?;
    put_step(d, b"v", h)?;
    put_step(d, b"h-", w)?;
    d.extend_from_slice(b"z")
}

/// Appends the plate of a label or a number to a path.
fn put_caption_plate(d: &mut Vec<u8>, c: &Caption) -> Result<(), AllocError>
    ensures { OnOk result (d.new.items ≡ d.old.items ++ caption_plate c.now) }
{
    let w = caption_width(c)?;
    let u = begin_at(c.side, c.x, w);
    if c.number {
        return put_plate(d, u, c.y.saturating_sub(8), w, 9);
    }
    put_plate(
        d,
        u.saturating_sub(2),
        c.y.saturating_sub(11),
        plus(w, 4)?,
        13,
    )
}

/// All plates.
pub fn plates(alloc: Global, captions: &[Caption]) -> Result<Vec<u8>, AllocError>
    ensures { IfOk result (λ d. d.items ≡ plates captions.now) }
{
    let mut d = Vec::new(alloc);
    for caption in captions {
        put_caption_plate(&mut d, caption)?;
    }
    Ok(d)
}
