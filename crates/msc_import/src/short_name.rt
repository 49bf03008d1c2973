//! A name that is held in place, for faults.

ghost use Rattle.std.specs.Prelude.{◌≡◌, take};
ghost use Rattle.msc_import.specs.Importing.{short_bytes};

use msc_lexer::NAME_LIMIT;

/// A name in place, of at most as many bytes as a name of charts: a fault that has it takes no
/// memory. The first `length` bytes are the name's.
#[derive(Clone, Copy)]
pub struct ShortName {
    pub bytes: [u8; NAME_LIMIT],
    pub length: usize,
}

impl ShortName {
    /// The bytes of a name, or its first ones if there are more than that. It takes no memory.
    pub fn of(name: &[u8]) -> ShortName
        ensures { short_bytes result ≡ take NAME_LIMIT name.now }
    {
        let length = name.len().min(NAME_LIMIT);
        let mut bytes = [0; NAME_LIMIT];
        bytes[..length].copy_from_slice(&name[..length]);
        ShortName { bytes, length }
    }

    /// Its bytes. It takes no memory.
    pub fn as_slice(&self) -> &[u8]
        ensures { result.now ≡ short_bytes self.now }
    {
        &self.bytes[..self.length.min(NAME_LIMIT)]
    }
}
