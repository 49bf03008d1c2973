//! The picture in text.

ghost use Rattle.std.specs.Prelude.{◌≡◌, ◌<◌, ◌+◌, ◌++◌, IfOk, OnOk, fold};
ghost use Rattle.std.specs.Prelude.{length, slice_set};
ghost use Rattle.std.specs.Fmt.{decimal};
ghost use Rattle.msc_picture.specs.Signs.{AreBandsIn, AreBarsIn, PutsBands, PutsBars, with_sign};
ghost use Rattle.msc_picture.specs.Texts.{head_line, numbers_text, over, picture_text};
ghost use Rattle.msc_picture.specs.Texts.{row_line, row_lines, with_axis, with_name};

use crate::columns::{Columns, columns_of, plus};
use crate::piece::{Piece, row_piece};
use crate::scene::{Row, Scene};
use crate::signs::Signs;
use itoa::Buffer;
use msc_chart::Event;
use std::alloc::{AllocError, Global};

/// Puts a byte into a line. A place past the line takes none.
fn put(line: &mut Vec<u8>, at: usize, byte: u8)
    ensures { line.new.items ≡ slice_set line.old.items at byte }
{
    if at < line.len() {
        line[at] = byte;
    }
}

/// Puts a piece on a line.
fn put_piece(line: &mut Vec<u8>, piece: &Piece) -> Result<(), AllocError>
    ensures { OnOk result (line.new.items ≡ over piece.now line.old.items) }
{
    let text = piece.text.as_slice();
    for k in 0..text.len() {
        let at = plus(piece.start, k)?;
        put(line, at, text[k]);
    }
    Ok(())
}

/// Puts the axes on a line.
fn put_axes(line: &mut Vec<u8>, columns: &[usize])
    ensures { line.new.items ≡ fold with_axis line.old.items columns.now }
{
    for column in columns {
        put(line, *column, b'|');
    }
}

/// Puts a sign on a line, on the axes of these instances.
fn put_signs(line: &mut Vec<u8>, c: &Columns, instances: &[u32], sign: u8)
    ensures { line.new.items ≡ fold (with_sign c.now sign) line.old.items instances.now }
{
    for instance in instances {
        put(line, c.column(*instance as usize), sign);
    }
}

/// Puts the signs of the bands over row `r` on a line.
fn put_bands(line: &mut Vec<u8>, c: &Columns, bands: &Signs, r: usize)
    ensures { PutsBands c.now r bands.now.instances.items line.old.items line.new.items }
{
    put_signs(line, c, bands.at(r), b':');
}

/// Puts the signs of the bars of a row on a line.
fn put_bars(line: &mut Vec<u8>, c: &Columns, bars: &Signs, row: Row)
    ensures { PutsBars c.now row bars.now.instances.items line.old.items line.new.items }
{
    put_signs(line, c, bars.at(row.first as usize), b'*');
    if let Some(second) = row.second {
        put_signs(line, c, bars.at(second as usize), b'*');
    }
}

/// Appends the number of an event to a text.
fn put_number(text: &mut Vec<u8>, e: Event) -> Result<(), AllocError>
    ensures { OnOk result (text.new.items ≡ text.old.items ++ decimal e) }
{
    let mut buffer = Buffer::new();
    text.extend_from_slice(buffer.format(e).as_bytes())
}

/// Appends the numbers of the events of a row to a line, and ends it.
fn put_numbers(line: &mut Vec<u8>, row: Row) -> Result<(), AllocError>
    ensures { OnOk result (line.new.items ≡ line.old.items ++ numbers_text row) }
{
    line.extend_from_slice(b"  ")?;
    put_number(line, row.first)?;
    if let Some(second) = row.second {
        line.extend_from_slice(b" ")?;
        put_number(line, second)?;
    }
    line.extend_from_slice(b"\n")
}

/// The line of row `r`.
fn row_line(
    alloc: Global,
    scene: &Scene,
    c: &Columns,
    bands: &Signs,
    bars: &Signs,
    r: usize,
    row: Row,
) -> Result<Vec<u8>, AllocError>
    requires known { r < length scene.now.rows }
    requires bands { AreBandsIn scene.now.bands (length scene.now.rows) bands.now.instances.items }
    requires bars { AreBarsIn scene.now.bars bars.now.instances.items }
    ensures { IfOk result (λ line. line.items ≡ row_line scene.now c.now r row) }
{
    let piece = row_piece(alloc, scene, c, row)?;
    let mut line = vec![in alloc; b' '; c.width]?;
    put_axes(&mut line, c.columns.as_slice());
    put_bands(&mut line, c, bands, r);
    put_piece(&mut line, &piece)?;
    put_bars(&mut line, c, bars, row);
    put_numbers(&mut line, row)?;
    Ok(line)
}

/// Appends the name of instance `i` to a line, with half its length left of its column.
fn put_name(
    alloc: Global,
    line: &mut Vec<u8>,
    scene: &Scene,
    c: &Columns,
    i: usize,
) -> Result<(), AllocError>
    requires { i < length scene.now.heads }
    ensures { OnOk result (line.new.items ≡ with_name scene.now c.now line.old.items i) }
{
    let name = scene.heads.as_slice()[i].name.as_slice();
    let start = c.column(i).saturating_sub(name.len() / 2);
    let lacks = start.saturating_sub(line.len());
    let blanks = vec![in alloc; b' '; lacks]?;
    line.extend_from_slice(&blanks)?;
    line.extend_from_slice(name)
}

/// The line of the names.
fn head_line(alloc: Global, scene: &Scene, c: &Columns, many: usize) -> Result<Vec<u8>, AllocError>
    requires { many ≡ length scene.now.heads }
    ensures { IfOk result (λ line. line.items ≡ head_line scene.now c.now) }
{
    let mut line = Vec::new(alloc);
    for i in 0..many {
        put_name(alloc, &mut line, scene, c, i)?;
    }
    line.extend_from_slice(b"\n")?;
    Ok(line)
}

/// Appends the lines of the rows to a page.
fn put_rows(alloc: Global, page: &mut Vec<u8>, scene: &Scene, c: &Columns) -> Result<(), AllocError>
    ensures { OnOk result (page.new.items ≡ page.old.items ++ row_lines scene.now c.now) }
{
    let rows = scene.rows.as_slice();
    let bands = Signs::of_bands(alloc, scene.bands.as_slice(), rows.len())?;
    let bars = Signs::of_bars(alloc, scene.bars.as_slice())?;
    for r in 0..rows.len() {
        let row = rows[r];
        let line = row_line(alloc, scene, c, &bands, &bars, r, row)?;
        page.extend_from_slice(&line)?;
    }
    Ok(())
}

/// Appends the picture in text to a page. An error is a growth of memory that was refused; the page
/// then has any bytes.
pub fn put_text(alloc: Global, page: &mut Vec<u8>, scene: &Scene) -> Result<(), AllocError>
    ensures { OnOk result (page.new.items ≡ page.old.items ++ picture_text scene.now) }
{
    let many = scene.heads.as_slice().len();
    if many == 0 {
        return page.extend_from_slice(b"\n");
    }
    let c = columns_of(alloc, scene, many)?;
    let head = head_line(alloc, scene, &c, many)?;
    page.extend_from_slice(&head)?;
    put_rows(alloc, page, scene, &c)
}
