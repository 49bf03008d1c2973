//! A writer for a terminal, for words of the command line: these may have any bytes.

use std::io;
use std::io::Write;

/// At most this many bytes are written in one call.
const PIECE: usize = 256;

/// A writer that shows each control byte but LF as `?`, so that no word moves the cursor or changes
/// colours.
#[derive(Drop)]
pub(crate) struct Shown<'w, W> {
    pub inner: &'w mut W,
}

/// A byte as it is shown.
fn plain_byte(byte: u8) -> u8 {
    if byte == b'\n' || 32 <= byte && byte != 127 {
        byte
    } else {
        b'?'
    }
}

impl<'w, W: Write> Write for Shown<'w, W> {
    fn write(&mut self, buf: &[u8]) -> io::Result<usize> {
        let mut piece = [b'?'; PIECE];
        let count = buf.len().min(PIECE);
        for i in 0..count {
            piece[i] = plain_byte(buf[i]);
        }
        self.inner.write(&piece[..count])
    }

    fn flush(&mut self) -> io::Result<()> {
        self.inner.flush()
    }
}
