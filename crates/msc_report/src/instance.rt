//! The fault of a name that no instance has.

ghost use Rattle.std.specs.Prelude.{OnOk};
ghost use Rattle.std.specs.Io.KnownBytes.{Appends};
ghost use Rattle.msc_report.specs.Texts.{instance_fault_line};

use msc_place::writing::write_file;
use std::io;
use std::io::Write;

/// Writes the line of a name that no instance has. A byte that can't be printed is written as a
/// question mark.
pub fn write_instance_fault<W: Write>(writer: &mut W, name: &[u8]) -> io::Result<()>
    ensures { OnOk result (Appends (W.contents writer.old) (W.contents writer.new)
        (instance_fault_line name.now)) }
{
    writer.write_all(b"ready fault 1: no instance ")?;
    write_file(writer, name)?;
    writer.write_all(b"\n")
}
