//! The formats of a picture.

ghost use Rattle.std.specs.Prelude.{◌≡◌, ◌++◌, [], IfOk, OnOk};
ghost use Rattle.msc_draw.specs.PictureFormats.{text_in};

use msc_picture::{Scene, put_text};
use msc_print::Page;
use msc_svg::put_svg;
use std::alloc::{AllocError, Global};

/// How a picture is written.
#[derive(Clone, Copy, Debug, PartialEq, Eq)]
pub enum PictureFormat {
    /// In lines of characters.
    Text,
    /// In SVG.
    Svg,
}

/// A picture in a format, with a further text above it, which may be empty. Lines of characters
/// have no such text.
pub fn page_in(
    alloc: Global,
    picture_format: PictureFormat,
    scene: &Scene,
    more: &[u8],
) -> Result<Page, AllocError>
    ensures { IfOk result (λ page. page.bytes.items ≡ text_in picture_format scene.now more.now) }
{
    let mut bytes = Vec::new(alloc);
    match picture_format {
        PictureFormat::Text => put_text(alloc, &mut bytes, scene)?,
        PictureFormat::Svg => put_svg(alloc, &mut bytes, scene, more)?,
    }
    Ok(Page { bytes })
}
