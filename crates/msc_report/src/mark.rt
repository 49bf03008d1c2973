//! The line of a comment that begins like a mark, and is none.

ghost use Rattle.std.specs.Prelude.{OnOk};
ghost use Rattle.std.specs.Io.KnownBytes.{Appends};
ghost use Rattle.msc_report.specs.Texts.{mark_fault_line};

use msc_mark::MarkFault;
use std::io;
use std::io::Write;

/// Writes the line of why the marks of a text can't be read.
pub fn write_mark_fault<W: Write>(writer: &mut W, fault: MarkFault) -> io::Result<()>
    ensures { OnOk result (Appends (W.contents writer.old) (W.contents writer.new)
        (mark_fault_line fault)) }
{
    match fault {
        MarkFault::Part(at) => {
            writeln!(
                writer,
                "accept fault 1 at {at}: expected in, with or a reason"
            )
        }
        MarkFault::Reason(at) => writeln!(writer, "accept fault 2 at {at}: no reason"),
        MarkFault::Memory => writer.write_all(b"memory fault\n"),
    }
}
