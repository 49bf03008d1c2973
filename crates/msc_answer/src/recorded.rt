//! A writer that keeps why it failed, and whether it shows colours.

ghost use Rattle.std.specs.Prelude.{◌≡◌, None};
ghost use Rattle.std.specs.Io.{WritesAtMost};
ghost use Rattle.std.specs.Io.KnownBytes.{Keeps, WriteAppends};

use std::io;
use std::io::Write;

/// A writer that knows why its last failed call failed.
pub trait TellsFailure: Write {
    /// The error of that call, if one failed.
    fn failure(&self) -> Option<io::Error>;
}

/// A writer that knows whether it shows colours.
pub trait ShowsColours: Write {
    /// Whether findings that are written to it have colours, if no word says whether they do.
    fn shows_colours(&self) -> bool;
}

/// A writer with the error of its last failed call.
#[derive(Drop)]
pub struct Recorded<W> {
    pub writer: W,
    pub failure: Option<io::Error>,
    /// Whether it shows colours.
    pub colours: bool,
}

impl<W> Recorded<W> {
    /// A writer of which no call has failed, and whether it shows colours.
    pub fn new(writer: W, colours: bool) -> Recorded<W>
        ensures writer { result.writer ≡ writer }
        ensures failure { result.failure ≡ None }
        ensures colours { result.colours ≡ colours }
    {
        Recorded {
            writer,
            failure: None,
            colours,
        }
    }
}

impl<W: Write> Write for Recorded<W> {
    ghost contents = { λ r. W.contents r.writer };

    fn write(&mut self, buf: &[u8]) -> io::Result<usize> {
        let written = self.writer.write(buf);
        if let Err(error) = written {
            self.failure = Some(error);
        }
        written
    }

    fn flush(&mut self) -> io::Result<()> {
        let flushed = self.writer.flush();
        if let Err(error) = flushed {
            self.failure = Some(error);
        }
        flushed
    }
}

impl<W: Write> TellsFailure for Recorded<W> {
    fn failure(&self) -> Option<io::Error> {
        self.failure
    }
}

impl<W: Write> ShowsColours for Recorded<W> {
    fn shows_colours(&self) -> bool {
        self.colours
    }
}
