//! Places as they are printed.

ghost use Rattle.std.specs.Prelude.{◌≡◌, ◌++◌, IsTrue, codes, decimal, map, OnOk};
ghost use Rattle.std.specs.Io.KnownBytes.{Appends};
ghost use Rattle.msc_place.specs.Texts.{place_text, places_line, shown_byte};

use crate::position::Position;
use itoa::Buffer;
use std::io;
use std::io::Write;

/// The byte that is shown for a byte of a file's name: `?` for one that can't be printed.
fn shown(byte: u8) -> u8
    ensures { result ≡ shown_byte byte }
{
    if byte < 32 || byte == 127 { b'?' } else { byte }
}

/// Whether each byte of a file's name is shown as it is.
pub(crate) fn is_plain(file: &[u8]) -> bool
    ensures { IsTrue result → map shown_byte file.now ≡ file.now }
{
    for byte in file {
        if shown(*byte) != *byte {
            return false;
        }
    }
    true
}

/// Writes the name of a file.
pub fn write_file<W: Write>(writer: &mut W, file: &[u8]) -> io::Result<()>
    ensures { OnOk result (Appends (W.contents writer.old) (W.contents writer.new)
        (map shown_byte file.now)) }
{
    for byte in file {
        writer.write_all(&[shown(*byte)])?;
    }
    Ok(())
}

/// Writes a place: the file's name, the line and the column.
pub fn write_place<W: Write>(writer: &mut W, file: &[u8], position: Position) -> io::Result<()>
    ensures { OnOk result (Appends (W.contents writer.old) (W.contents writer.new)
        (place_text file.now position.line position.column)) }
{
    write_file(writer, file)?;
    write_position(writer, position)
}

/// Writes the line and the column of a place, with a colon before each.
pub(crate) fn write_position<W: Write>(writer: &mut W, position: Position) -> io::Result<()>
    ensures { OnOk result (Appends (W.contents writer.old) (W.contents writer.new)
        (codes ":" ++ (decimal position.line ++ (codes ":" ++ decimal position.column)))) }
{
    let mut digits = Buffer::new();
    writer.write_all(b":")?;
    writer.write_all(digits.format(position.line).as_bytes())?;
    writer.write_all(b":")?;
    writer.write_all(digits.format(position.column).as_bytes())
}

/// Writes the line of two places.
pub fn write_places<W: Write>(
    writer: &mut W,
    file: &[u8],
    first: Position,
    second: Position,
) -> io::Result<()>
    ensures { OnOk result (Appends (W.contents writer.old) (W.contents writer.new)
        (places_line file.now first second)) }
{
    writer.write_all(b"at ")?;
    write_place(writer, file, first)?;
    writer.write_all(b" ")?;
    write_place(writer, file, second)?;
    writer.write_all(b"\n")
}
