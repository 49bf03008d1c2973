//! The elements of pictures, each in a line.

ghost use Rattle.std.specs.Prelude.{◌≡◌, ◌++◌, OnOk, codes};
ghost use Rattle.msc_tree.specs.Shapes.{area_attributes, center_attributes, circle, end_circle};
ghost use Rattle.msc_tree.specs.Shapes.{held_at, path, plain, point, rect, rect_attributes};
ghost use Rattle.msc_tree.specs.Shapes.{rounding, step, text_at, text_attributes};
ghost use Rattle.msc_tree.specs.Trees.{attributes_text, closed, line_text, opened};

use crate::tree::{put_attribute, put_decimal, put_escaped, put_numbered};
use std::alloc::AllocError;

/// The place of a rectangle.
#[derive(Clone, Copy)]
pub struct Area {
    pub x: usize,
    pub y: usize,
    pub width: usize,
    pub height: usize,
}

/// Appends the place of a rectangle to a page.
fn put_area(page: &mut Vec<u8>, area: Area) -> Result<(), AllocError>
    ensures { OnOk result
        (page.new.items ≡ page.old.items ++ attributes_text (area_attributes area)) }
{
    put_numbered(page, b"x", area.x)?;
    put_numbered(page, b"y", area.y)?;
    put_numbered(page, b"width", area.width)?;
    put_numbered(page, b"height", area.height)
}

/// Appends the radius of round corners to a page, if there are any.
fn put_rounding(page: &mut Vec<u8>, round: usize) -> Result<(), AllocError>
    ensures { OnOk result
        (page.new.items ≡ page.old.items ++ attributes_text (rounding round)) }
{
    if round == 0 {
        return Ok(());
    }
    put_numbered(page, b"rx", round)
}

/// Appends the attributes of a rectangle to a page.
fn put_rect_attributes(
    page: &mut Vec<u8>,
    name: &[u8],
    area: Area,
    round: usize,
) -> Result<(), AllocError>
    ensures { OnOk result
        (page.new.items ≡ page.old.items ++ attributes_text (rect_attributes name.now area round)) }
{
    put_attribute(page, b"class", name)?;
    put_area(page, area)?;
    put_rounding(page, round)
}

/// Appends a rectangle to a page.
pub fn put_rect(
    page: &mut Vec<u8>,
    class: &[u8],
    area: Area,
    round: usize,
) -> Result<(), AllocError>
    ensures { OnOk result
        (page.new.items ≡ page.old.items ++ line_text (rect class.now area round)) }
{
    page.extend_from_slice(b"<rect")?;
    put_rect_attributes(page, class, area, round)?;
    page.extend_from_slice(b"/>\n")
}

/// Appends a path to a page.
pub fn put_path(page: &mut Vec<u8>, class: &[u8], d: &[u8]) -> Result<(), AllocError>
    ensures { OnOk result
        (page.new.items ≡ page.old.items ++ line_text (path class.now d.now)) }
{
    page.extend_from_slice(b"<path")?;
    put_attribute(page, b"class", class)?;
    put_attribute(page, b"d", d)?;
    page.extend_from_slice(b"/>\n")
}

/// Appends the attributes of a text at a place to a page.
fn put_text_attributes(
    page: &mut Vec<u8>,
    name: &[u8],
    x: usize,
    y: usize,
) -> Result<(), AllocError>
    ensures { OnOk result
        (page.new.items ≡ page.old.items ++ attributes_text (text_attributes name.now x y)) }
{
    put_attribute(page, b"class", name)?;
    put_numbered(page, b"x", x)?;
    put_numbered(page, b"y", y)
}

/// Appends the beginning of an element with a text at a place to a page.
fn put_opened(
    page: &mut Vec<u8>,
    element: &[u8],
    name: &[u8],
    x: usize,
    y: usize,
) -> Result<(), AllocError>
    ensures { OnOk result (page.new.items
        ≡ page.old.items ++ (opened element.now (text_attributes name.now x y) ++ codes ">")) }
{
    page.extend_from_slice(b"<")?;
    page.extend_from_slice(element)?;
    put_text_attributes(page, name, x, y)?;
    page.extend_from_slice(b">")
}

/// Appends the end of an element, and of its line, to a page.
fn put_closed(page: &mut Vec<u8>, element: &[u8]) -> Result<(), AllocError>
    ensures { OnOk result
        (page.new.items ≡ page.old.items ++ (closed element.now ++ codes "\n")) }
{
    page.extend_from_slice(b"</")?;
    page.extend_from_slice(element)?;
    page.extend_from_slice(b">\n")
}

/// Appends an element with a text at a place to a page.
fn put_held(
    page: &mut Vec<u8>,
    element: &[u8],
    name: &[u8],
    x: usize,
    y: usize,
    text: &[u8],
) -> Result<(), AllocError>
    ensures { OnOk result (page.new.items
        ≡ page.old.items ++ line_text (held_at element.now name.now x y text.now)) }
{
    put_opened(page, element, name, x, y)?;
    put_escaped(page, text)?;
    put_closed(page, element)
}

/// Appends a text at a place to a page.
pub fn put_text_at(
    page: &mut Vec<u8>,
    class: &[u8],
    x: usize,
    y: usize,
    text: &[u8],
) -> Result<(), AllocError>
    ensures { OnOk result
        (page.new.items ≡ page.old.items ++ line_text (text_at class.now x y text.now)) }
{
    put_held(page, b"text", class, x, y, text)
}

/// Appends the class and the center of a circle to a page.
fn put_center(page: &mut Vec<u8>, name: &[u8], x: usize, y: usize) -> Result<(), AllocError>
    ensures { OnOk result
        (page.new.items ≡ page.old.items ++ attributes_text (center_attributes name.now x y)) }
{
    put_attribute(page, b"class", name)?;
    put_numbered(page, b"cx", x)?;
    put_numbered(page, b"cy", y)
}

/// Appends a circle to a page.
fn put_circle(
    page: &mut Vec<u8>,
    name: &[u8],
    x: usize,
    y: usize,
    radius: &[u8],
) -> Result<(), AllocError>
    ensures { OnOk result
        (page.new.items ≡ page.old.items ++ line_text (circle name.now x y radius.now)) }
{
    page.extend_from_slice(b"<circle")?;
    put_center(page, name, x, y)?;
    put_attribute(page, b"r", radius)?;
    page.extend_from_slice(b"/>\n")
}

/// Appends the mark of an end of a race to a page.
pub fn put_end_circle(page: &mut Vec<u8>, x: usize, y: usize) -> Result<(), AllocError>
    ensures { OnOk result
        (page.new.items ≡ page.old.items ++ line_text (end_circle x y)) }
{
    put_circle(page, b"end", x, y, b"4")
}

/// Appends an element with a text and without attributes to a page.
pub fn put_plain(page: &mut Vec<u8>, name: &[u8], text: &[u8]) -> Result<(), AllocError>
    ensures { OnOk result
        (page.new.items ≡ page.old.items ++ line_text (plain name.now text.now)) }
{
    page.extend_from_slice(b"<")?;
    page.extend_from_slice(name)?;
    page.extend_from_slice(b">")?;
    put_escaped(page, text)?;
    page.extend_from_slice(b"</")?;
    page.extend_from_slice(name)?;
    page.extend_from_slice(b">\n")
}

/// Appends letters of a path and a point to a path.
pub fn put_point(d: &mut Vec<u8>, letters: &[u8], x: usize, y: usize) -> Result<(), AllocError>
    ensures { OnOk result (d.new.items ≡ d.old.items ++ point letters.now x y) }
{
    d.extend_from_slice(letters)?;
    put_decimal(d, x)?;
    d.extend_from_slice(b",")?;
    put_decimal(d, y)
}

/// Appends letters of a path and a number to a path.
pub fn put_step(d: &mut Vec<u8>, letters: &[u8], n: usize) -> Result<(), AllocError>
    ensures { OnOk result (d.new.items ≡ d.old.items ++ step letters.now n) }
{
    d.extend_from_slice(letters)?;
    put_decimal(d, n)
}
