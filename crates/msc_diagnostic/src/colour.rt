//! Colours of a terminal, and lists of bytes.

ghost use Rattle.std.specs.Prelude.{◌≡◌, ◌++◌, OnOk, replicate};
ghost use Rattle.msc_diagnostic.specs.Rows.{closed, opened, sequence};

use std::alloc::{AllocError, Global};

/// A colour of a terminal.
#[derive(Clone, Copy)]
pub(crate) enum Colour {
    BoldRed,
    BoldYellow,
    Bold,
    BoldBlue,
    Blue,
}

impl Colour {
    /// The sequence that begins the colour.
    fn sequence(self) -> &'static [u8]
        ensures { result.now ≡ sequence self }
    {
        match self {
            Colour::BoldRed => b"\x1b[1;31m",
            Colour::BoldYellow => b"\x1b[1;33m",
            Colour::Bold => b"\x1b[1m",
            Colour::BoldBlue => b"\x1b[1;34m",
            Colour::Blue => b"\x1b[34m",
        }
    }
}

/// What begins a colour, if there are colours.
pub(crate) fn opened(colours: bool, colour: Colour) -> &'static [u8]
    ensures { result.now ≡ opened colours colour }
{
    if colours { colour.sequence() } else { b"" }
}

/// What ends a colour, if there are colours.
pub(crate) fn closed(colours: bool) -> &'static [u8]
    ensures { result.now ≡ closed colours }
{
    if colours { b"\x1b[0m" } else { b"" }
}

/// Appends bytes. The only error is want of memory.
pub(crate) fn put(out: &mut Vec<u8>, bytes: &[u8]) -> Result<(), AllocError>
    ensures { OnOk result (out.new.items ≡ out.old.items ++ bytes.now) }
{
    out.extend_from_slice(bytes)
}

/// Appends a text. The only error is want of memory.
pub(crate) fn put_text(out: &mut Vec<u8>, text: &str) -> Result<(), AllocError>
    ensures { OnOk result (out.new.items ≡ out.old.items ++ text.now) }
{
    out.extend_from_slice(text.as_bytes())
}

/// Appends `count` copies of a byte. The only error is want of memory.
pub(crate) fn put_many(
    alloc: Global,
    out: &mut Vec<u8>,
    byte: u8,
    count: usize,
) -> Result<(), AllocError>
    ensures { OnOk result (out.new.items ≡ out.old.items ++ replicate count byte) }
{
    let bytes: Vec<u8> = vec![in alloc; byte; count]?;
    out.extend_from_slice(bytes.as_slice())
}
