//! Parts of a text of JSON, appended to a page. The only error is want of memory.

ghost use Rattle.std.specs.Prelude.{◌≡◌, ◌++◌, [], ◌∷◌, OnOk};
ghost use Rattle.json.specs.Print.{print};
ghost use Rattle.json.specs.Token.{begin_object};
ghost use Rattle.msc_record.specs.Members.{object_of, tokens_of};
ghost use Rattle.msc_record.specs.Numbers.{HaveNumbers};
ghost use Rattle.msc_record.specs.Records.{comma};
ghost use Rattle.msc_record.specs.Values.{json_text};
ghost use Rattle.msc_record.specs.Writing.{Adds};

use crate::value::{Object, write_object};
use json::Writer;
use std::alloc::{AllocError, Global};
use std::mem::replace;

/// A writer that writes after what a page has, and leaves the page empty.
pub(crate) fn writer_after(alloc: Global, page: &mut Vec<u8>) -> Writer
    ensures before { result.before ≡ page.old.items }
    ensures tokens { result.tokens ≡ [] }
{
    Writer::new(replace(page, Vec::new(alloc)))
}

/// Writes the tokens of an object but for the brace that closes it.
fn write_open<T: Object>(alloc: Global, writer: &mut Writer, object: &T) -> Result<(), AllocError>
    ensures { Adds result writer.old writer.new
        (begin_object ∷ tokens_of (T.members object.now)) }
{
    writer.begin_object()?;
    object.write_members(alloc, writer)
}

/// Appends an object to a page, but for the brace that closes it.
pub(crate) fn print_open<T: Object>(
    alloc: Global,
    page: &mut Vec<u8>,
    object: &T,
) -> Result<(), AllocError>
    ensures printed { OnOk result (page.new.items
        ≡ page.old.items ++ print (begin_object ∷ tokens_of (T.members object.now))) }
    ensures numbers { OnOk result (HaveNumbers (T.members object.now)) }
{
    let mut writer = writer_after(alloc, page);
    let written = write_open(alloc, &mut writer, object);
    *page = writer.into_inner();
    written
}

/// Appends bytes to a page.
pub(crate) fn put(page: &mut Vec<u8>, bytes: &[u8]) -> Result<(), AllocError>
    ensures { OnOk result (page.new.items ≡ page.old.items ++ bytes.now) }
{
    page.extend_from_slice(bytes)
}

/// Appends a comma to a page, unless this is the first entry.
pub(crate) fn print_comma(page: &mut Vec<u8>, is_first: bool) -> Result<(), AllocError>
    ensures { OnOk result (page.new.items ≡ page.old.items ++ comma is_first) }
{
    if is_first {
        return Ok(());
    }
    page.extend_from_slice(b",")
}

/// Appends an object to a page.
pub(crate) fn print_object<T: Object>(
    alloc: Global,
    page: &mut Vec<u8>,
    object: &T,
) -> Result<(), AllocError>
    ensures printed { OnOk result (page.new.items
        ≡ page.old.items ++ json_text (object_of (T.members object.now))) }
    ensures numbers { OnOk result (HaveNumbers (T.members object.now)) }
{
    let mut writer = writer_after(alloc, page);
    let written = write_object(alloc, &mut writer, object);
    *page = writer.into_inner();
    written
}
