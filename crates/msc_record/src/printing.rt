//! Records, printed in parts: a head, entries, and an end; or a refusal.

ghost use Rattle.std.specs.Prelude.{◌≡◌, ◌++◌, IfOk, OnOk};
ghost use Rattle.std.specs.Option.{option_copied};
ghost use Rattle.msc_record.specs.Lent.{plain_entry, plain_head, plain_refusal};
ghost use Rattle.msc_record.specs.Numbers.{HeadHasNumbers, EntryHasNumbers, RunHasNumbers};
ghost use Rattle.msc_record.specs.Records.{end_text, entry_text, head_text, head_tokens};
ghost use Rattle.msc_record.specs.Records.{refusal_json, refusal_text, run_part};
ghost use Rattle.msc_record.specs.Records.{run_text};
ghost use Rattle.msc_record.specs.Values.{ReadsBack};
ghost use Rattle.msc_record.specs.Writing.{Adds};

use crate::entry::Entry;
use crate::event::EventNumber;
use crate::fault::Refusal;
use crate::head::Head;
use crate::part::{print_comma, print_object, print_open, writer_after};
use crate::value::{Object, write_array};
use json::Writer;
use std::alloc::{AllocError, Global};

/// Writes the tokens of a head.
fn write_head(alloc: Global, writer: &mut Writer, head: &Head<'_>) -> Result<(), AllocError>
    ensures { Adds result writer.old writer.new (head_tokens (plain_head head.now)) }
{
    writer.begin_object()?;
    head.write_members(alloc, writer)?;
    writer.key("list")?;
    writer.begin_array()
}

/// Appends the first part of a record to a page, up to the bracket before the entries. The only
/// error is want of memory; the page then has any bytes.
pub fn print_head(alloc: Global, page: &mut Vec<u8>, head: &Head<'_>) -> Result<(), AllocError>
    ensures printed { OnOk result
        (page.new.items ≡ page.old.items ++ head_text (plain_head head.now)) }
    ensures numbers { OnOk result (HeadHasNumbers (plain_head head.now)) }
{
    let mut writer = writer_after(alloc, page);
    let written = write_head(alloc, &mut writer, head);
    *page = writer.into_inner();
    written
}

/// Appends the text of a run to a page as a member, if there is one.
fn print_run(page: &mut Vec<u8>, run: Option<&[u8]>) -> Result<(), AllocError>
    ensures { OnOk result
        (page.new.items ≡ page.old.items ++ run_part (option_copied run.entry)) }
{
    let Some(run) = run else {
        return Ok(());
    };
    page.extend_from_slice(b",\"run\":")?;
    page.extend_from_slice(run)
}

/// Appends an entry of the list of a record to a page, after a comma if it is not the first. `run`
/// is the text of a run that shows it, which `run_text` makes. The only error is want of memory;
/// the page then has any bytes.
pub fn print_entry(
    alloc: Global,
    page: &mut Vec<u8>,
    is_first: bool,
    entry: &Entry<'_>,
    run: Option<&[u8]>,
) -> Result<(), AllocError>
    ensures printed { OnOk result (page.new.items
        ≡ page.old.items ++ entry_text is_first (plain_entry entry.now) (option_copied run.entry)) }
    ensures numbers { OnOk result (EntryHasNumbers (plain_entry entry.now)) }
{
    print_comma(page, is_first)?;
    print_open(alloc, page, entry)?;
    print_run(page, run)?;
    page.extend_from_slice(b"}")
}

/// The text of a run: an array of the numbers of its events. The only error is want of memory.
pub fn run_text(alloc: Global, events: &[EventNumber]) -> Result<Vec<u8>, AllocError>
    ensures text { IfOk result (λ text. text.items ≡ run_text events.now) }
    ensures numbers { OnOk result (RunHasNumbers events.now) }
{
    let mut writer = Writer::new(Vec::new(alloc));
    write_array(alloc, &mut writer, events)?;
    Ok(writer.into_inner())
}

/// Appends the last part of a record to a page, and the end of its line. The only error is want of
/// memory; the page then has any bytes.
pub fn print_end(page: &mut Vec<u8>) -> Result<(), AllocError>
    ensures { OnOk result (page.new.items ≡ page.old.items ++ end_text) }
{
    page.extend_from_slice(b"]}\n")
}

/// Appends a whole record to a page, of a text that is refused or a file that cannot be read, with
/// the end of its line. The only error is want of memory; the page then has any bytes.
pub fn print_refusal(
    alloc: Global,
    page: &mut Vec<u8>,
    refusal: &Refusal<'_>,
) -> Result<(), AllocError>
    ensures printed { OnOk result
        (page.new.items ≡ page.old.items ++ refusal_text (plain_refusal refusal.now)) }
    ensures reads_back { OnOk result (ReadsBack (refusal_json (plain_refusal refusal.now))) }
{
    print_object(alloc, page, refusal)?;
    page.extend_from_slice(b"\n")
}
