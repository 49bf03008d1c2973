//! The picture in SVG.

ghost use Rattle.std.specs.Prelude.{◌≡◌, ◌-◌, ◌++◌, ◌∷◌, [], IfOk, OnOk, codes, cond, length};
ghost use Rattle.std.specs.Prelude.{nat_eq};
ghost use Rattle.std.specs.Fmt.{decimal};
ghost use Rattle.msc_svg.specs.Elements.{ground_nodes, picture_nodes, upper_nodes};
ghost use Rattle.msc_svg.specs.Layouts.{layout_of};
ghost use Rattle.msc_tree.specs.Shapes.{plain, valued};
ghost use Rattle.msc_svg.specs.Svg.{card, front_text, heading_of, size_attributes, style};
ghost use Rattle.msc_svg.specs.Svg.{svg_attributes, svg_text, tip, title_of, view_box};
ghost use Rattle.msc_tree.specs.Trees.{attribute_text, attributes_text, line_text, lines_text};

use crate::bar::{put_badges, put_bars};
use crate::caption::{captions_of, put_caption_nodes};
use crate::depth::events_of_rows;
use crate::element::{put_arrows, put_boxes, put_plates};
use crate::head::{put_heading, put_instances};
use crate::layout::{Layout, layout_of};
use listed::Listed;
use msc_parser::Label;
use msc_picture::Scene;
use msc_tree::laws::blocks_have_a_line_for_each_child;
use msc_tree::{Area, put_attribute, put_decimal, put_numbered, put_path, put_plain, put_rect};
use std::alloc::{AllocError, Global};

/// The style of the elements of a picture.
const STYLE: &[u8] = b"text{font:12px ui-monospace,Menlo,Consolas,DejaVu Sans Mono,monospace\
;text-anchor:middle;fill:#111}\
.right{text-anchor:start}.left{text-anchor:end}.name{font-weight:bold}\
.kind{fill:#444}.number{font-size:10px;fill:#555}\
.badge{font-size:10px;font-weight:bold;fill:#fff}\
.plate{fill:#fff;fill-opacity:.8}.head,.action{fill:#fff;stroke:#111}\
.axis,.tick,.open{fill:none;stroke:#111}.open{stroke-dasharray:6 4}\
.card,.head,.action,.axis,.tick,.open{shape-rendering:crispEdges}\
.foot,.tip{fill:#111}\
.arrow{fill:none;stroke:#111;stroke-width:1.5;marker-end:url(#tip)}\
.race{fill:#b80f2a;fill-opacity:.14;stroke:#b80f2a;stroke-width:1.5}\
.end,.count{fill:#b80f2a}.hit{stroke:#b80f2a;stroke-width:2}\
.card{fill:#fff;stroke:#999}.title,.verdict{text-anchor:start}\
.title{font-weight:bold}.verdict{fill:#444}";

/// Appends the heading, the instances, the bars and the arrows to a page.
fn put_ground(
    page: &mut Vec<u8>,
    alloc: Global,
    scene: &Scene,
    layout: &Layout,
    heading: &[Label],
) -> Result<(), AllocError>
    ensures { OnOk result (page.new.items ≡ page.old.items
        ++ lines_text (ground_nodes scene.now layout.now heading.now)) }
{
    put_heading(page, heading)?;
    put_instances(page, alloc, scene, layout)?;
    put_bars(page, scene, layout)?;
    put_arrows(page, alloc, scene, layout)
}

/// Appends the plates, the boxes of actions, the labels and numbers, and the badges to a page.
fn put_upper(
    page: &mut Vec<u8>,
    alloc: Global,
    scene: &Scene,
    layout: &Layout,
) -> Result<(), AllocError>
    ensures { OnOk result
        (page.new.items ≡ page.old.items ++ lines_text (upper_nodes scene.now layout.now)) }
{
    let order = events_of_rows(alloc, scene.rows.as_slice())?;
    let captions = captions_of(alloc, scene, layout, order.as_slice())?;
    put_plates(page, alloc, captions.as_slice())?;
    put_boxes(page, alloc, scene, layout, order.as_slice())?;
    put_caption_nodes(page, alloc, captions.as_slice())?;
    put_badges(page, alloc, scene, layout)
}

/// Appends the elements of a picture to a page, each in a line. An error is a growth of memory that
/// was refused; the page then has any bytes.
pub fn put_picture(
    page: &mut Vec<u8>,
    alloc: Global,
    scene: &Scene,
    layout: &Layout,
    heading: &[Label],
) -> Result<(), AllocError>
    ensures { OnOk result (page.new.items ≡ page.old.items
        ++ lines_text (picture_nodes scene.now layout.now heading.now)) }
{
    put_ground(page, alloc, scene, layout, heading)?;
    put_upper(page, alloc, scene, layout)?;
    Ok(())
}

/// The head of an arrow.
const TIP: &[u8] = b"<marker id=\"tip\" markerUnits=\"userSpaceOnUse\" markerWidth=\"12\" \
markerHeight=\"8\" refX=\"12\" refY=\"4\" orient=\"auto\">\n\
<path class=\"tip\" d=\"M0,0L12,4L0,8z\"/>\n</marker>\n";

/// Appends the head of an arrow to a page.
pub fn put_tip(page: &mut Vec<u8>) -> Result<(), AllocError>
    ensures { OnOk result (page.new.items ≡ page.old.items ++ line_text tip) }
{
    page.extend_from_slice(TIP)
}

/// Appends the style of the elements of a picture to a page.
fn put_style(page: &mut Vec<u8>) -> Result<(), AllocError>
    ensures { OnOk result
        (page.new.items ≡ page.old.items ++ line_text (plain (codes "style") style)) }
{
    put_plain(page, b"style", STYLE)
}

/// The part of the plane that is shown.
fn view_box(alloc: Global, layout: &Layout) -> Result<Vec<u8>, AllocError>
    ensures { IfOk result (λ text. text.items ≡ view_box layout.now) }
{
    let mut text = Vec::from_slice(alloc, b"0 0 ")?;
    put_decimal(&mut text, layout.width)?;
    text.extend_from_slice(b" ")?;
    put_decimal(&mut text, layout.height)?;
    Ok(text)
}

/// Appends the part of the plane that a picture shows to a page.
fn put_view_box(page: &mut Vec<u8>, alloc: Global, layout: &Layout) -> Result<(), AllocError>
    ensures { OnOk result (page.new.items
        ≡ page.old.items ++ attribute_text (valued (codes "viewBox") (view_box layout.now))) }
{
    let shown = view_box(alloc, layout)?;
    put_attribute(page, b"viewBox", shown.as_slice())
}

/// Appends the size of a picture, and the part of the plane that it shows, to a page.
pub fn put_size(page: &mut Vec<u8>, alloc: Global, layout: &Layout) -> Result<(), AllocError>
    ensures { OnOk result
        (page.new.items ≡ page.old.items ++ attributes_text (size_attributes layout.now)) }
{
    put_numbered(page, b"width", layout.width)?;
    put_numbered(page, b"height", layout.height)?;
    put_view_box(page, alloc, layout)?;
    Ok(())
}

/// Appends the attributes of the whole picture to a page.
fn put_svg_attributes(page: &mut Vec<u8>, alloc: Global, layout: &Layout) -> Result<(), AllocError>
    ensures { OnOk result
        (page.new.items ≡ page.old.items ++ attributes_text (svg_attributes layout.now)) }
{
    page.extend_from_slice(b" xmlns=\"http://www.w3.org/2000/svg\"")?;
    put_size(page, alloc, layout)?;
    page.extend_from_slice(b" role=\"img\"")?;
    Ok(())
}

/// Appends the card under a picture to a page.
fn put_card(page: &mut Vec<u8>, layout: &Layout) -> Result<(), AllocError>
    ensures { OnOk result (page.new.items ≡ page.old.items ++ line_text (card layout.now)) }
{
    let around = Area {
        x: 1,
        y: 1,
        width: layout.width.saturating_sub(2),
        height: layout.height.saturating_sub(2),
    };
    put_rect(page, b"card", around, 0)
}

/// The title of a picture.
fn title_of(alloc: Global, name: &[u8], more: &[u8]) -> Result<Vec<u8>, AllocError>
    ensures { IfOk result (λ title. title.items ≡ title_of name.now more.now) }
{
    let mut title = Vec::from_slice(alloc, name)?;
    if more.len() > 0 {
        title.extend_from_slice(b", ")?;
        title.extend_from_slice(more)?;
    }
    Ok(title)
}

/// The heading of a picture.
fn heading_of(alloc: Global, name: &[u8], more: &[u8]) -> Result<Vec<Label>, AllocError>
    ensures { IfOk result (λ heading. heading.items ≡ heading_of name.now more.now) }
{
    let mut first = Vec::from_slice(alloc, b"msc ")?;
    first.extend_from_slice(name)?;
    let mut heading = Vec::new(alloc);
    heading.push(Listed::from_vec(first))?;
    if more.len() > 0 {
        heading.push(Listed::from_vec(Vec::from_slice(alloc, more)?))?;
    }
    Ok(heading)
}

/// Appends the part of a picture in SVG before its elements to a page, with this title.
fn put_front(
    page: &mut Vec<u8>,
    alloc: Global,
    layout: &Layout,
    title: &[u8],
) -> Result<(), AllocError>
    ensures { OnOk result (page.new.items ≡ page.old.items ++ front_text layout.now title.now) }
{
    page.extend_from_slice(b"<svg")?;
    put_svg_attributes(page, alloc, layout)?;
    page.extend_from_slice(b">\n")?;
    put_plain(page, b"title", title)?;
    put_style(page)?;
    put_tip(page)?;
    put_card(page, layout)?;
    Ok(())
}

/// Appends the picture in SVG to a page, with a further text above it, which may be empty. An error
/// is a growth of memory that was refused; the page then has any bytes.
pub fn put_svg(
    alloc: Global,
    page: &mut Vec<u8>,
    scene: &Scene,
    more: &[u8],
) -> Result<(), AllocError>
    ensures { OnOk result (page.new.items ≡ page.old.items ++ svg_text scene.now more.now) }
{
    blocks_have_a_line_for_each_child();
    let name = scene.name.as_slice();
    let heading = heading_of(alloc, name, more)?;
    let layout = layout_of(alloc, scene, heading.as_slice())?;
    put_front(
        page,
        alloc,
        &layout,
        title_of(alloc, name, more)?.as_slice(),
    )?;
    put_picture(page, alloc, scene, &layout, heading.as_slice())?;
    page.extend_from_slice(b"</svg>\n")?;
    Ok(())
}
