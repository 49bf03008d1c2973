//! The bytes of elements.

ghost use Rattle.std.specs.Prelude.{◌≡◌, ◌++◌, OnOk};
ghost use Rattle.std.specs.Fmt.{decimal};
ghost use Rattle.msc_tree.specs.Shapes.{numbered, valued};
ghost use Rattle.msc_tree.specs.Trees.{attribute_text, escaped, escaped_byte};

use itoa::Buffer;
use std::alloc::AllocError;

/// Appends the escaped form of a byte to a page.
fn put_escaped_byte(page: &mut Vec<u8>, byte: u8) -> Result<(), AllocError>
    ensures { OnOk result (page.new.items ≡ page.old.items ++ escaped_byte byte) }
{
    if byte == b'&' {
        return page.extend_from_slice(b"&amp;");
    }
    if byte == b'<' {
        return page.extend_from_slice(b"&lt;");
    }
    if byte == b'>' {
        return page.extend_from_slice(b"&gt;");
    }
    if byte == b'"' {
        return page.extend_from_slice(b"&quot;");
    }
    page.push(byte)?;
    Ok(())
}

/// Appends the escaped form of a text to a page.
pub fn put_escaped(page: &mut Vec<u8>, text: &[u8]) -> Result<(), AllocError>
    ensures { OnOk result (page.new.items ≡ page.old.items ++ escaped text.now) }
{
    for byte in text {
        put_escaped_byte(page, *byte)?;
    }
    Ok(())
}

/// Appends a number to a page.
pub fn put_decimal(page: &mut Vec<u8>, n: usize) -> Result<(), AllocError>
    ensures { OnOk result (page.new.items ≡ page.old.items ++ decimal n) }
{
    let mut buffer = Buffer::new();
    page.extend_from_slice(buffer.format(n).as_bytes())
}

/// Appends an attribute to a page.
pub fn put_attribute(page: &mut Vec<u8>, name: &[u8], value: &[u8]) -> Result<(), AllocError>
    ensures { OnOk result
        (page.new.items ≡ page.old.items ++ attribute_text (valued name.now value.now)) }
{
    page.extend_from_slice(b" ")?;
    page.extend_from_slice(name)?;
    page.extend_from_slice(b"=\"")?;
    put_escaped(page, value)?;
    page.extend_from_slice(b"\"")
}

/// Appends an attribute whose value is a number to a page.
pub fn put_numbered(page: &mut Vec<u8>, name: &[u8], n: usize) -> Result<(), AllocError>
    ensures { OnOk result
        (page.new.items ≡ page.old.items ++ attribute_text (numbered name.now n)) }
{
    let mut buffer = Buffer::new();
    put_attribute(page, name, buffer.format(n).as_bytes())
}
