//! Laws of layouts and of pictures in SVG, over their definitions only. The functions have no code:
//! a caller that needs a law calls its function.

ghost use Rattle.msc_svg.specs.Laws.{AxesStandApart, RowsStandApart, SvgPicturesArePlain};

/// Axes are ordered from left to right, at least 112 apart, and rows from above, at least 32 high.
pub fn axes_and_rows_stand_apart()
    ensures axes { AxesStandApart }
    ensures rows { RowsStandApart }
{}

/// If all texts of a picture and the one above it consist of the bytes 32 to 126, the picture in
/// SVG consists of these bytes and line ends.
pub fn plain_bytes()
    ensures { SvgPicturesArePlain }
{}
