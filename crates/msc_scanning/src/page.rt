//! A page that takes so many bytes at most.

ghost use Rattle.std.specs.Prelude.{◌≡◌, [], OnOk, Some};
ghost use Rattle.std.specs.Io.{WritesAtMost};
ghost use Rattle.std.specs.Io.KnownBytes.{Appends, Keeps, WriteAppends};

use msc_print::Page;
use std::alloc::Global;
use std::io;
use std::io::{ErrorKind, Write};

/// The most bytes of a block that a scan keeps before it writes them.
pub(crate) const BLOCK_LIMIT: usize = 4_194_304;

/// A page that refuses a write that would make it longer than its limit.
#[derive(Drop)]
pub(crate) struct BoundedPage {
    pub page: Page,
    limit: usize,
    /// Whether it has refused a write.
    pub is_full: bool,
}

impl BoundedPage {
    /// An empty page with this limit.
    pub fn new(alloc: Global, limit: usize) -> BoundedPage
        ensures { result.page.bytes.items ≡ [] }
    {
        BoundedPage {
            page: Page::new(alloc),
            limit,
            is_full: false,
        }
    }
}

impl Write for BoundedPage {
    ghost contents = { λ b. Some b.page.bytes.items };

    fn write(&mut self, buf: &[u8]) -> io::Result<usize>
        ensures bound { WritesAtMost result buf.now }
        ensures bytes { WriteAppends (Some self.old.page.bytes.items)
            (Some self.new.page.bytes.items) result buf.now }
    {
        if self.limit.saturating_sub(self.page.bytes.len()) < buf.len() {
            self.is_full = true;
            return Err(ErrorKind::StorageFull.into());
        }
        self.page.bytes.extend_from_slice(buf)?;
        Ok(buf.len())
    }

    fn flush(&mut self) -> io::Result<()>
        ensures bytes { Keeps (Some self.old.page.bytes.items)
            (Some self.new.page.bytes.items) }
    {
        Ok(())
    }
}
