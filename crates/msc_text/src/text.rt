//! The canonical text of a draft.

ghost use Rattle.std.specs.Prelude.{◌≡◌, ◌≢◌, IfErr, OnOk};
ghost use Rattle.std.specs.Io.KnownBytes.{Appends};
ghost use Rattle.msc_parser.specs.Canonical.{canonical};

use msc_print::WriteFault;
use msc_report::write_draft;
use msc_source::Reading;
use std::alloc::Global;
use std::io::Write;

/// Writes the canonical text of a draft. After `Memory` the writer has had no call.
pub fn write_reading<W: Write>(
    alloc: Global,
    read: &Reading,
    writer: &mut W,
) -> Result<(), WriteFault>
    ensures written { OnOk result (Appends (W.contents writer.old) (W.contents writer.new)
        (canonical read.now.draft)) }
    ensures untouched { IfErr result (λ e. e ≢ WriteFault.Device → writer.new ≡ writer.old) }
{
    let text = read.draft().write(alloc)?;
    write_draft(writer, text.as_slice())?;
    Ok(())
}
