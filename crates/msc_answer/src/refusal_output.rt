//! Refusals on the output and on standard error.

ghost use Rattle.std.specs.Prelude.{◌≡◌, Some, Ok, false};
ghost use Rattle.msc_answer.specs.Ending.{ends_as};
ghost use Rattle.msc_answer.specs.Refused.{form_of, IsToldIn, TellsThat, TellsUnread, TellsUnreadIn};
ghost use Rattle.msc_report.specs.Refusals.{of_reading};

use crate::ending::{Refusal, Status, end_refused, end_unread, ends_as, is_spent};
use crate::notes::{write_cause, write_notes};
use crate::output::{flush, put};
use crate::recorded::TellsFailure;
use crate::refused::refusal_lines;
use crate::refused_words::{has_words, refusal_words, unread_words};
use crate::tasks::{RefusalForm, Request, Task, form_of};
use msc_place::writing::write_file;
use msc_report::Fault;
use msc_source::ReadFault;
use std::alloc::Global;
use std::io;
use std::io::Write;

/// Writes the lines of a refusal for editors.
fn tell_lines<O: Write>(
    alloc: Global,
    task: Task<'_>,
    file: &str,
    text: &[u8],
    refusal: Refusal<'_>,
    output: &mut O,
) -> Result<(), Refusal<'static>>
    ensures { IsToldIn O.contents RefusalForm.Lines file.now text.now refusal.entry result
        output.old output.new }
{
    let page = refusal_lines(alloc, task, file, text, refusal)?;
    let _ = put(output, &page, Status::Refused)?;
    flush(output)
}

/// Writes a refusal as people read it.
fn tell_words<O: Write>(
    alloc: Global,
    task: Task<'_>,
    colours: bool,
    file: &str,
    text: &[u8],
    refusal: Refusal<'_>,
    output: &mut O,
) -> Result<(), Refusal<'static>>
    ensures { IsToldIn O.contents (RefusalForm.Words colours) file.now text.now refusal.entry result
        output.old output.new }
{
    let page = refusal_words(alloc, task, colours, file, text, refusal)?;
    let _ = put(output, &page, Status::Refused)?;
    flush(output)
}

/// Writes a refusal to the output, if its form requires it.
pub(crate) fn tell_in<O: Write>(
    alloc: Global,
    task: Task<'_>,
    file: &str,
    text: &[u8],
    refusal: Refusal<'_>,
    output: &mut O,
) -> Result<(), Refusal<'static>>
    ensures { IsToldIn O.contents (form_of task.entry) file.now text.now refusal.entry result
        output.old output.new }
{
    match form_of(task) {
        RefusalForm::Lines => tell_lines(alloc, task, file, text, refusal, output),
        RefusalForm::Words(colours) => {
            tell_words(alloc, task, colours, file, text, refusal, output)
        }
        RefusalForm::Nothing => Ok(()),
    }
}

/// Writes a refusal to the output, if its form requires it. Returns the refusal, or the failure of
/// that writing.
pub(crate) fn tell_refusal<'w, O: Write>(
    alloc: Global,
    task: Task<'_>,
    file: &str,
    text: &[u8],
    refusal: Refusal<'w>,
    output: &mut O,
) -> Refusal<'w>
    ensures { TellsThat O.contents (form_of task.entry) file.now text.now refusal.entry result
        output.old output.new }
{
    if is_spent(refusal) {
        return refusal;
    }
    match tell_in(alloc, task, file, text, refusal, output) {
        Ok(()) => refusal,
        Err(other) => other,
    }
}

/// Writes why the output failed, if the refusal is that failure.
fn tell_failure<O: TellsFailure, E: Write>(faults: &mut E, refusal: Refusal<'_>, output: &O) {
    if let Refusal::Fault(Fault::Device) = refusal
        && let Some(error) = output.failure()
    {
        let _ = writeln!(faults, "output: {error}");
    }
}

/// Whether the output has words for a refusal of a task.
fn is_said(task: Task<'_>, refusal: Refusal<'_>) -> bool {
    matches!(form_of(task), RefusalForm::Words(_)) && has_words(refusal)
}

/// Writes the line of a refusal, with its notes if they are requested, unless the output has words for
/// it. Returns the status.
pub(crate) fn end_told<O: TellsFailure, E: Write>(
    alloc: Global,
    request: Request<'_>,
    text: &[u8],
    refusal: Refusal<'_>,
    output: &O,
    faults: &mut E,
) -> Status
    ensures { result ≡ ends_as refusal.entry }
{
    if is_said(request.task, refusal) {
        return ends_as(refusal);
    }
    let status = end_refused(faults, refusal).0;
    if request.notes {
        let _ = write_notes(alloc, faults, request, text, refusal);
        tell_failure(faults, refusal, output);
    }
    status
}

/// Writes the lines for editors of a file that could not be read.
fn write_unread<O: Write>(output: &mut O, file: &str, error: &io::Error) -> io::Result<()> {
    write_file(output, file.as_bytes())?;
    output.write_all(b":1:1: error: device fault\n")?;
    write_file(output, file.as_bytes())?;
    output.write_all(b":1:1: note: ")?;
    write_cause(output, file, error)?;
    output.flush()
}

/// Writes that a file could not be read as people read it. Returns whether it was written.
fn write_unread_words<O: Write>(
    alloc: Global,
    colours: bool,
    file: &str,
    error: &io::Error,
    output: &mut O,
) -> bool {
    match unread_words(alloc, colours, file, error) {
        Ok(bytes) => output.write_all(bytes.as_slice()).is_ok() && output.flush().is_ok(),
        Err(_) => false,
    }
}

/// Writes to the output that a file could not be read, if the form requires it. Returns whether it
/// has words for that.
fn tell_unread<O: Write>(
    alloc: Global,
    form: RefusalForm,
    file: &str,
    fault: &ReadFault,
    output: &mut O,
) -> bool
    ensures { TellsUnreadIn form output.old output.new }
{
    match (form, fault) {
        (RefusalForm::Lines, ReadFault::Device(error)) => {
            let _ = write_unread(output, file, error);
            false
        }
        (RefusalForm::Words(colours), ReadFault::Device(error)) => {
            write_unread_words(alloc, colours, file, error, output)
        }
        _ => false,
    }
}

/// Writes why a file could not be read, and returns the status.
pub fn end_unread_task<O: Write, E: Write>(
    alloc: Global,
    request: Request<'_>,
    fault: ReadFault,
    output: &mut O,
    faults: &mut E,
) -> Status
    ensures status { result ≡ ends_as (Refusal.Fault (of_reading fault)) }
    ensures told { TellsUnread request.entry.task output.old output.new }
{
    let form = form_of(request.task);
    if tell_unread(alloc, form, request.file, &fault, output) {
        return ends_as(Refusal::Fault(fault.into()));
    }
    end_unread(faults, request.file, fault, request.notes)
}
