//! Pages and flushes of the output.

ghost use Rattle.std.specs.Prelude.{◌≡◌, IfErr, Ok, OnOk};
ghost use Rattle.std.specs.Io.KnownBytes.{Keeps};
ghost use Rattle.msc_answer.specs.Answering.{IsPut};

use crate::ending::{Refusal, Status};
use msc_print::Page;
use msc_report::Fault;
use std::io::Write;

/// Writes a page, and returns this status if that succeeds.
pub(crate) fn put<O: Write>(
    output: &mut O,
    page: &Page,
    status: Status,
) -> Result<Status, Refusal<'static>>
    ensures { IsPut O.contents page.now.bytes.items status result output.old output.new }
{
    match output.write_all(page.bytes.as_slice()) {
        Ok(()) => Ok(status),
        Err(_) => Err(Refusal::Fault(Fault::Device)),
    }
}

/// Flushes the output.
pub(crate) fn flush<O: Write>(output: &mut O) -> Result<(), Refusal<'static>>
    ensures kept { OnOk result (Keeps (O.contents output.old) (O.contents output.new)) }
    ensures failed { IfErr result (λ refusal. refusal ≡ Refusal.Fault Fault.Device) }
{
    match output.flush() {
        Ok(()) => Ok(()),
        Err(_) => Err(Refusal::Fault(Fault::Device)),
    }
}
