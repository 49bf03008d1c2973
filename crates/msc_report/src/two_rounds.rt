//! The line of the fault of two rounds of a chart.

ghost use Rattle.std.specs.Prelude.{OnOk};
ghost use Rattle.std.specs.Io.KnownBytes.{Appends};
ghost use Rattle.msc_report.specs.Texts.{unroll_fault_line};

use msc_chart::UnrollFault;
use std::io;
use std::io::Write;

/// Writes the line of the fault for which two rounds of a chart are no chart.
pub fn write_unroll_fault<W: Write>(writer: &mut W, fault: UnrollFault) -> io::Result<()>
    ensures { OnOk result (Appends (W.contents writer.old) (W.contents writer.new)
        (unroll_fault_line fault)) }
{
    match fault {
        UnrollFault::TooManyMessages => {
            writer.write_all(b"again fault 1: more than 512 messages\n")
        }
        UnrollFault::TooManyActions => {
            writer.write_all(b"again fault 2: more than 512 actions\n")
        }
        UnrollFault::Memory => writer.write_all(b"memory fault\n"),
    }
}
