//! From a text to its canonical text, bytes to bytes.

ghost use Rattle.std.specs.Prelude.{◌≡◌, ◌≢◌, IfErr, OnOk};
ghost use Rattle.msc_calls.specs.Answers.{BuildsNoChart, RefusesText, StartsNothing, WritesDraft};

use msc_parser::laws::one_parsing;
use msc_report::Fault;
use msc_source::{Language, Reading};
use msc_text::write_reading;
use std::alloc::Global;
use std::io::Write;

/// Writes the canonical text of a text's draft.
///
/// A text without a draft is refused with its first fault; want of memory is `Memory`. After both
/// the writer has had no call. `Device` means that the writer failed.
pub fn read_text<W: Write>(alloc: Global, text: &[u8], writer: &mut W) -> Result<(), Fault>
    ensures written { OnOk result
        (WritesDraft text.now (W.contents writer.old) (W.contents writer.new)) }
    ensures refused { RefusesText text.now result }
    ensures no_chart { BuildsNoChart result }
    ensures started { StartsNothing result }
    ensures untouched { IfErr result (λ e. e ≢ Fault.Device → writer.new ≡ writer.old) }
{
    one_parsing();
    let read = Reading::of(alloc, Language::MscPr, text)?;
    Ok(write_reading(alloc, &read, writer)?)
}
