//! Figures: pictures with their descriptions, and captions below them.

ghost use Rattle.std.specs.Prelude.{◌≡◌, ◌<◌, ◌++◌, OnOk, [], codes, length};
ghost use Rattle.msc_html.specs.Figures.{caption_nodes, drawing_attributes, drawing_node};
ghost use Rattle.msc_html.specs.Figures.{figure_node, figure_of};
ghost use Rattle.msc_tree.specs.Trees.{line_text, lines_text, opened};

use msc_picture::Scene;
use msc_svg::{Layout, layout_of, put_picture, put_size};
use msc_tree::{put_attribute, put_plain};
use std::alloc::{AllocError, Global};

/// Appends the beginning of a picture with this description to a page.
fn put_drawing_begin(
    page: &mut Vec<u8>,
    alloc: Global,
    layout: &Layout,
    label: &[u8],
) -> Result<(), AllocError>
    ensures { OnOk result (page.new.items ≡ page.old.items
        ++ (opened (codes "svg") (drawing_attributes layout.now label.now) ++ codes ">\n")) }
{
    page.extend_from_slice(b"<svg")?;
    put_size(page, alloc, layout)?;
    page.extend_from_slice(b" role=\"img\"")?;
    put_attribute(page, b"aria-label", label)?;
    page.extend_from_slice(b">\n")?;
    Ok(())
}

/// Appends the picture of a scene with this description to a page.
fn put_drawing(
    page: &mut Vec<u8>,
    alloc: Global,
    scene: &Scene,
    label: &[u8],
) -> Result<(), AllocError>
    requires { 0 < length scene.now.heads }
    ensures { OnOk result
        (page.new.items ≡ page.old.items ++ line_text (drawing_node scene.now label.now)) }
{
    let layout = layout_of(alloc, scene, &[])?;
    put_drawing_begin(page, alloc, &layout, label)?;
    put_picture(page, alloc, scene, &layout, &[])?;
    page.extend_from_slice(b"</svg>\n")?;
    Ok(())
}

/// Appends a caption to a page, if it is not empty.
fn put_caption(page: &mut Vec<u8>, text: &[u8]) -> Result<(), AllocError>
    ensures { OnOk result
        (page.new.items ≡ page.old.items ++ lines_text (caption_nodes text.now)) }
{
    if text.len() == 0 {
        return Ok(());
    }
    put_plain(page, b"figcaption", text)?;
    Ok(())
}

/// Appends the figure of a scene with this description, and with a caption, to a page.
fn put_some_figure(
    page: &mut Vec<u8>,
    alloc: Global,
    scene: &Scene,
    label: &[u8],
    caption: &[u8],
) -> Result<(), AllocError>
    requires { 0 < length scene.now.heads }
    ensures { OnOk result (page.new.items ≡ page.old.items
        ++ line_text (figure_node scene.now label.now (caption_nodes caption.now))) }
{
    page.extend_from_slice(b"<figure tabindex=\"0\">\n")?;
    put_drawing(page, alloc, scene, label)?;
    put_caption(page, caption)?;
    page.extend_from_slice(b"</figure>\n")?;
    Ok(())
}

/// Appends the same to a page, if there is an instance.
pub fn put_figure(
    page: &mut Vec<u8>,
    alloc: Global,
    scene: &Scene,
    label: &[u8],
    caption: &[u8],
) -> Result<(), AllocError>
    ensures { OnOk result (page.new.items ≡ page.old.items
        ++ line_text (figure_of scene.now label.now (caption_nodes caption.now))) }
{
    if scene.heads.as_slice().len() == 0 {
        put_plain(page, b"p", b"It has no instances.")?;
        return Ok(());
    }
    put_some_figure(page, alloc, scene, label, caption)?;
    Ok(())
}
