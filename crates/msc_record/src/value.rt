//! Values of JSON, and members of objects.

ghost use Rattle.std.specs.Prelude.{◌≡◌, ◌++◌, [], ◌∷◌, List, map};
ghost use Rattle.std.specs.Option.{option_copied};
ghost use Rattle.json.specs.Json.{Json, boolean, string};
ghost use Rattle.json.specs.Tree.{json_tokens};
ghost use Rattle.msc_record.specs.Members.{Member, array_of, member_if, member_if_any};
ghost use Rattle.msc_record.specs.Members.{member_tokens, natural, object_of, or_null, text};
ghost use Rattle.msc_record.specs.Members.{tokens_of};
ghost use Rattle.msc_record.specs.Writing.{Adds};

use json::Writer;
use std::alloc::{AllocError, Global};
use std::str::from_utf8;

/// What is written as a value of JSON. The only error is want of memory.
pub(crate) trait Value {
    /// The value.
    ghost json: { Self → Json };

    /// Writes its tokens.
    fn write(&self, alloc: Global, writer: &mut Writer) -> Result<(), AllocError>
        ensures { Adds result writer.old writer.new (json_tokens (json self.now)) };
}

/// What is written as an object. The only error is want of memory.
pub(crate) trait Object {
    /// Its members.
    ghost members: { Self → List Member };

    /// Writes the tokens of its members.
    fn write_members(&self, alloc: Global, writer: &mut Writer) -> Result<(), AllocError>
        ensures { Adds result writer.old writer.new (tokens_of (members self.now)) };
}

impl Value for u32 {
    ghost json = { natural };

    fn write(&self, _alloc: Global, writer: &mut Writer) -> Result<(), AllocError> {
        writer.u64(u64::from(*self))
    }
}

impl Value for u64 {
    ghost json = { natural };

    fn write(&self, _alloc: Global, writer: &mut Writer) -> Result<(), AllocError> {
        writer.u64(*self)
    }
}

impl Value for usize {
    ghost json = { natural };

    fn write(&self, _alloc: Global, writer: &mut Writer) -> Result<(), AllocError> {
        writer.u64(*self as u64)
    }
}

impl Value for bool {
    ghost json = { boolean };

    fn write(&self, _alloc: Global, writer: &mut Writer) -> Result<(), AllocError> {
        writer.boolean(*self)
    }
}

impl Value for &str {
    ghost json = { λ s. string s.now };

    fn write(&self, _alloc: Global, writer: &mut Writer) -> Result<(), AllocError> {
        writer.string(*self)
    }
}

/// Writes a text, with U+FFFD in place of what is no UTF-8.
#[tactic(auto, using(crate::proofs::TextLemmas::lossy_of_utf8))]
fn write_text(alloc: Global, writer: &mut Writer, bytes: &[u8]) -> Result<(), AllocError>
    ensures { Adds result writer.old writer.new (json_tokens (text bytes.now)) }
{
    match from_utf8(bytes) {
        Ok(text) => writer.string(text),
        Err(_) => {
            let text = String::from_utf8_lossy(alloc, bytes)?;
            writer.string(text.as_str())
        }
    }
}

impl Value for &[u8] {
    ghost json = { λ s. text s.now };

    fn write(&self, alloc: Global, writer: &mut Writer) -> Result<(), AllocError> {
        write_text(alloc, writer, *self)
    }
}

impl<T: Value> Value for Option<T> {
    ghost json = { or_null T.json };

    fn write(&self, alloc: Global, writer: &mut Writer) -> Result<(), AllocError> {
        match self {
            Some(value) => value.write(alloc, writer),
            None => writer.null(),
        }
    }
}

/// Writes an array.
pub(crate) fn write_array<T: Value>(
    alloc: Global,
    writer: &mut Writer,
    items: &[T],
) -> Result<(), AllocError>
    ensures { Adds result writer.old writer.new (json_tokens (array_of (map T.json items.now))) }
{
    writer.begin_array()?;
    for item in items {
        item.write(alloc, writer)?;
    }
    writer.end_array()
}

/// Writes an object.
pub(crate) fn write_object<T: Object>(
    alloc: Global,
    writer: &mut Writer,
    object: &T,
) -> Result<(), AllocError>
    ensures { Adds result writer.old writer.new (json_tokens (object_of (T.members object.now))) }
{
    writer.begin_object()?;
    object.write_members(alloc, writer)?;
    writer.end_object()
}

/// Writes a member of an object.
pub(crate) fn write_member<T: Value>(
    alloc: Global,
    writer: &mut Writer,
    name: &str,
    value: &T,
) -> Result<(), AllocError>
    ensures { Adds result writer.old writer.new (member_tokens (name.now, T.json value.now)) }
{
    writer.key(name)?;
    value.write(alloc, writer)
}

/// Writes a member whose value is an array.
pub(crate) fn write_list<T: Value>(
    alloc: Global,
    writer: &mut Writer,
    name: &str,
    items: &[T],
) -> Result<(), AllocError>
    ensures { Adds result writer.old writer.new
        (member_tokens (name.now, array_of (map T.json items.now))) }
{
    writer.key(name)?;
    write_array(alloc, writer, items)
}

/// Writes a member, if there is a value.
pub(crate) fn write_member_if<T: Value>(
    alloc: Global,
    writer: &mut Writer,
    name: &str,
    value: &Option<T>,
) -> Result<(), AllocError>
    ensures { Adds result writer.old writer.new
        (tokens_of (member_if T.json name.now value.now)) }
{
    match value {
        Some(value) => write_member(alloc, writer, name, value),
        None => Ok(()),
    }
}

/// Writes a member whose value is an array, if there is one.
pub(crate) fn write_list_if<T: Value>(
    alloc: Global,
    writer: &mut Writer,
    name: &str,
    items: Option<&[T]>,
) -> Result<(), AllocError>
    ensures { Adds result writer.old writer.new (tokens_of
        (member_if (λ xs. array_of (map T.json xs)) name.now (option_copied items.entry))) }
{
    match items {
        Some(items) => write_list(alloc, writer, name, items),
        None => Ok(()),
    }
}

/// Writes a member whose value is an array, if the array has an element.
pub(crate) fn write_list_if_any<T: Value>(
    alloc: Global,
    writer: &mut Writer,
    name: &str,
    items: &[T],
) -> Result<(), AllocError>
    ensures { Adds result writer.old writer.new
        (tokens_of (member_if_any T.json name.now items.now)) }
{
    match items {
        [] => Ok(()),
        [_, ..] => write_list(alloc, writer, name, items),
    }
}
