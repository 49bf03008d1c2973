//! A page of an answer, and the faults of writing one.

ghost use Rattle.std.specs.Prelude.{◌≡◌, ◌↔◌, ◌<◌, ◌≤◌, [], length, IfOk, IsOk, OnOk, Some};
ghost use Rattle.std.specs.Io.{WritesAtMost};
ghost use Rattle.std.specs.Io.KnownBytes.{Appends, Keeps, WriteAppends};
ghost use Rattle.msc_print.specs.Pages.{Puts};
ghost use Rattle.msc_print.specs.declared.page.WriteFault.TheVariants.{Device, Memory};

use std::alloc::{AllocError, Global};
use std::io;
use std::io::Write;
use thiserror::Error;

/// Why an answer was not written to its end.
#[derive(Clone, Copy, Debug, PartialEq, Eq, Error)]
pub enum WriteFault {
    /// A growth of memory was refused.
    #[error("memory fault")]
    Memory,
    /// A write failed.
    #[error("device fault")]
    Device,
}

impl From<AllocError> for WriteFault {
    ghost from_gives = { λ _ e. e ≡ Memory };

    fn from(_e: AllocError) -> WriteFault {
        WriteFault::Memory
    }
}

impl From<io::Error> for WriteFault {
    ghost from_gives = { λ _ e. e ≡ Device };

    fn from(_e: io::Error) -> WriteFault {
        WriteFault::Device
    }
}

/// The size of a full page: some lines of runs, which have up to 10,000 bytes.
pub const PAGE_SIZE: usize = 65_536;

/// A page. Writes append to it; want of memory is the only error.
#[derive(Drop)]
pub struct Page {
    pub bytes: Vec<u8>,
}

impl Page {
    /// An empty page.
    pub fn new(alloc: Global) -> Page
        ensures { result.bytes.items ≡ [] }
    {
        Page {
            bytes: Vec::new(alloc),
        }
    }

    /// Writes the page if it is full.
    pub fn turn<W: Write>(&mut self, writer: &mut W) -> Result<(), WriteFault>
        ensures put { Puts result (W.contents writer.old) (W.contents writer.new)
            self.old.bytes.items self.new.bytes.items [] }
        ensures full { OnOk result
            (PAGE_SIZE ≤ length self.old.bytes.items → self.new.bytes.items ≡ []) }
        ensures page { length self.old.bytes.items < PAGE_SIZE
            → self.new.bytes.items ≡ self.old.bytes.items }
        ensures writer { length self.old.bytes.items < PAGE_SIZE → writer.new ≡ writer.old }
    {
        if self.bytes.len() < PAGE_SIZE {
            return Ok(());
        }
        self.go_out(writer)
    }

    /// Writes the page, and empties it.
    // Separate from `turn`, which is called for each race: only this makes room for a write.
    #[inline(never)]
    fn go_out<W: Write>(&mut self, writer: &mut W) -> Result<(), WriteFault>
        ensures put { Puts result (W.contents writer.old) (W.contents writer.new)
            self.old.bytes.items self.new.bytes.items [] }
        ensures empty { OnOk result (self.new.bytes.items ≡ []) }
    {
        writer.write_all(self.bytes.as_slice())?;
        self.bytes.clear();
        Ok(())
    }

    /// The page, if the writes to it that returned `written` did not run out of memory.
    pub fn if_written(self, written: io::Result<()>) -> Result<Page, AllocError>
        ensures kept { IfOk result (λ page. page.bytes.items ≡ self.bytes.items) }
        ensures accepted { IsOk result ↔ IsOk written }
    {
        match written {
            Ok(()) => Ok(self),
            Err(_) => Err(AllocError),
        }
    }
}

impl Write for Page {
    ghost contents = { λ p. Some p.bytes.items };

    fn write(&mut self, buf: &[u8]) -> io::Result<usize>
        ensures bound { WritesAtMost result buf.now }
        ensures bytes { WriteAppends (Some self.old.bytes.items)
            (Some self.new.bytes.items) result buf.now }
    {
        self.bytes.extend_from_slice(buf)?;
        Ok(buf.len())
    }

    fn flush(&mut self) -> io::Result<()>
        ensures bytes { Keeps (Some self.old.bytes.items) (Some self.new.bytes.items) }
    {
        Ok(())
    }

    // A list takes all bytes at once; the loop of the trait costs more than the bytes.
    fn write_all(&mut self, buf: &[u8]) -> io::Result<()>
        ensures bytes { OnOk result (Appends (Some self.old.bytes.items)
            (Some self.new.bytes.items) buf.now) }
    {
        self.bytes.extend_from_slice(buf)?;
        Ok(())
    }
}
