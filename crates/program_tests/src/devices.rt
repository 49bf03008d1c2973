//! Readers and writers that fail, for tests.

use std::alloc::Global;
use std::io;
use std::io::{ErrorKind, IsTerminal, Read, Write};

/// A reader that is interrupted `interruptions` times, then gives `bytes`, at most `step` at a
/// time, and fails at its call number `fails_at`, from 1.
#[derive(Drop)]
pub struct Unsteady<'a> {
    pub interruptions: u32,
    pub bytes: &'a [u8],
    pub step: usize,
    pub calls: u32,
    pub fails_at: u32,
}

impl<'a> Unsteady<'a> {
    /// A reader of these bytes that is never interrupted and never fails.
    pub fn new(bytes: &'a [u8]) -> Unsteady<'a> {
        Unsteady {
            interruptions: 0,
            bytes,
            step: usize::MAX,
            calls: 0,
            fails_at: 0,
        }
    }
}

impl Read for Unsteady<'_> {
    fn read(&mut self, buf: &mut [u8]) -> io::Result<usize> {
        self.calls = self.calls.wrapping_add(1);
        if self.calls == self.fails_at {
            return Err(io::Error::from(ErrorKind::BrokenPipe));
        }
        if self.interruptions > 0 {
            self.interruptions -= 1;
            return Err(io::Error::from(ErrorKind::Interrupted));
        }
        let count = self.bytes.len().min(buf.len()).min(self.step);
        buf[..count].copy_from_slice(&self.bytes[..count]);
        self.bytes = &self.bytes[count..];
        Ok(count)
    }
}

/// A writer that takes at most `step` bytes at a time, and fails at its call number `fails_at`,
/// from 1.
#[derive(Drop)]
pub struct Narrow {
    pub written: Vec<u8>,
    pub step: usize,
    pub calls: u32,
    pub fails_at: u32,
}

/// A writer that takes a byte at a time and fails at this call, from 1; at none if it is 0.
pub fn byte_writer(alloc: Global, fails_at: u32) -> Narrow {
    Narrow {
        written: Vec::new(alloc),
        step: 1,
        calls: 0,
        fails_at,
    }
}

impl Write for Narrow {
    fn write(&mut self, buf: &[u8]) -> io::Result<usize> {
        self.calls = self.calls.wrapping_add(1);
        if self.calls == self.fails_at {
            return Err(io::Error::from(ErrorKind::BrokenPipe));
        }
        let count = buf.len().min(self.step);
        self.written.extend_from_slice(&buf[..count])?;
        Ok(count)
    }

    fn flush(&mut self) -> io::Result<()> {
        Ok(())
    }
}

/// A writer that holds back what it takes until it is flushed, and then fails.
#[derive(Drop)]
pub struct Unflushed {
    pub flushes: u32,
}

impl Write for Unflushed {
    fn write(&mut self, buf: &[u8]) -> io::Result<usize> {
        Ok(buf.len())
    }

    fn flush(&mut self) -> io::Result<()> {
        self.flushes = self.flushes.wrapping_add(1);
        Err(io::Error::from(ErrorKind::BrokenPipe))
    }
}

/// Standard error, which is a terminal or not.
#[derive(Drop)]
pub struct Screen {
    shown: Vec<u8>,
    terminal: bool,
}

impl Screen {
    /// An empty one.
    pub fn new(alloc: Global, terminal: bool) -> Screen {
        Screen {
            shown: Vec::new(alloc),
            terminal,
        }
    }

    /// The bytes that were written to it.
    pub fn into_shown(self) -> Vec<u8> {
        self.shown
    }
}

impl Write for Screen {
    fn write(&mut self, buf: &[u8]) -> io::Result<usize> {
        self.shown.write(buf)
    }

    fn flush(&mut self) -> io::Result<()> {
        Ok(())
    }
}

impl IsTerminal for Screen {
    fn is_terminal(&self) -> bool {
        self.terminal
    }
}
