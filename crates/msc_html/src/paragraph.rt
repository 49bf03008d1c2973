//! The paragraphs of a text.

ghost use Rattle.std.specs.Prelude.{◌≡◌, IfOk, OnOk};
ghost use Rattle.msc_html.specs.Paragraphs.{cut_by, cut_on, paragraphs, uncut, with_byte};
ghost use Rattle.msc_html.specs.Paragraphs.{with_paragraph};

use listed::Listed;
use msc_parser::Label;
use std::alloc::{AllocError, Global};
use std::marker::Model;

/// A text that was read so far: its paragraphs, the bytes behind the last of them, and whether a
/// line ends behind these.
#[derive(Drop)]
struct Cutter {
    found: Vec<Label>,
    current: Vec<u8>,
    ended: bool,
}

impl Model for Cutter {
    ghost use Rattle.msc_html.specs.Paragraphs.{Cut};

    ghost Value = { Cut };

    ghost view = { λ c. record { found = c.found.items; current = c.current.items; ended = c.ended } };
}

impl Cutter {
    /// Nothing was read.
    fn new(alloc: Global) -> Self
        ensures { result ≡ uncut }
    {
        Cutter {
            found: Vec::new(alloc),
            current: Vec::new(alloc),
            ended: false,
        }
    }

    /// Ends the paragraph.
    fn end(&mut self, alloc: Global) -> Result<(), AllocError>
        ensures { OnOk result (self.new ≡ with_paragraph self.old) }
    {
        let paragraph = Vec::from_slice(alloc, self.current.as_slice())?;
        self.found.push(Listed::from_vec(paragraph))?;
        self.current.clear();
        self.ended = false;
        Ok(())
    }

    /// Appends a byte that ends no line.
    fn push(&mut self, b: u8) -> Result<(), AllocError>
        ensures { OnOk result (self.new ≡ with_byte self.old b) }
    {
        if self.ended {
            self.current.push(b'\n')?;
        }
        self.current.push(b)?;
        self.ended = false;
        Ok(())
    }

    /// Reads a byte.
    fn take(&mut self, alloc: Global, b: u8) -> Result<(), AllocError>
        ensures { OnOk result (self.new ≡ cut_by self.old b) }
    {
        if b != b'\n' {
            return self.push(b);
        }
        if self.ended {
            return self.end(alloc);
        }
        self.ended = true;
        Ok(())
    }

    /// Reads a text.
    fn read(&mut self, alloc: Global, text: &[u8]) -> Result<(), AllocError>
        ensures { OnOk result (self.new ≡ cut_on self.old text.now) }
    {
        for b in text {
            self.take(alloc, *b)?;
        }
        Ok(())
    }
}

/// The paragraphs of a text: what stands before each empty line. What no empty line follows is none.
pub(crate) fn paragraphs(alloc: Global, text: &[u8]) -> Result<Vec<Label>, AllocError>
    ensures { IfOk result (λ found. found.items ≡ paragraphs text.now) }
{
    let mut cutter = Cutter::new(alloc);
    cutter.read(alloc, text)?;
    Ok(cutter.found)
}
