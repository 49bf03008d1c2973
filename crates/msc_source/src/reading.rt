//! Reading an input to its end.

ghost use Rattle.std.specs.Prelude.{◌≡◌, ◌<◌, false, length, take, IsTrue, IfOk};
ghost use Rattle.std.specs.Prelude.{IfSome, OnOk, vec_len};
ghost use Rattle.msc_source.specs.Calls.{IsDone, ReadsMore};
ghost use Rattle.msc_source.specs.Inputs.{IsReadFrom};

use crate::fault::ReadFault;
use msc_lexer::TEXT_LIMIT;
use std::alloc::{AllocError, Global};
use std::io::{ErrorKind, Read};

/// The greatest number of bytes that are read: one more than a text may have, so that a longer one
/// is refused.
pub const BYTE_LIMIT: usize = TEXT_LIMIT + 1;

/// The greatest number of calls of `read` on one input.
pub const CALL_LIMIT: u32 = 2_097_152;

/// The greatest number of bytes of one call of `read`.
const CHUNK: usize = 16_384;

/// Room for the bytes of one call of `read`.
fn chunk_of(alloc: Global, len: usize) -> Result<Vec<u8>, AllocError>
    ensures { IfOk result (λ v. vec_len v ≡ len) }
{
    vec![in alloc; 0; len]
}

/// Calls `read` once, for at most the bytes that the limit leaves, and appends them to `bytes`.
/// Returns whether the input has ended or the limit is reached.
fn read_once<R: Read>(
    reader: &mut R,
    chunk: &mut [u8],
    bytes: &mut Vec<u8>,
) -> Result<bool, ReadFault>
    requires room { 0 < length chunk.old }
    requires unfilled { vec_len bytes.old < BYTE_LIMIT }
    ensures more { OnOk result (ReadsMore (R.remaining reader.old) (R.remaining reader.new)
        bytes.old.items bytes.new.items) }
    ensures done { IfOk result
        (λ done. IsTrue done → IsDone (R.remaining reader.new) bytes.new.items) }
    ensures goes_on { IfOk result (λ done. done ≡ false → vec_len bytes.new < BYTE_LIMIT) }
{
    let most = chunk.len().min(BYTE_LIMIT - bytes.len());
    let room = &mut chunk[..most];
    match reader.read(room) {
        Ok(0) => Ok(true),
        Ok(count) => {
            bytes.extend_from_slice(&room[..count])?;
            Ok(bytes.len() == BYTE_LIMIT)
        }
        Err(e) if e.kind() == ErrorKind::Interrupted => Ok(false),
        Err(e) => Err(ReadFault::Device(e)),
    }
}

/// All bytes of a reader, or the first [`BYTE_LIMIT`] of them.
///
/// `Device` is returned if a read fails, with its error, or if the input has not ended after
/// [`CALL_LIMIT`] calls of `read`, as one that took too long; a read that was interrupted is tried
/// again. `Memory` is returned if a growth of memory was refused. After a fault some bytes may have
/// been taken from the reader.
pub fn read_all<R: Read>(alloc: Global, reader: &mut R) -> Result<Vec<u8>, ReadFault>
    ensures bytes { IfOk result
        (λ v. IfSome (R.remaining reader.old) (λ xs. v.items ≡ take BYTE_LIMIT xs)) }
    ensures rest { IfOk result
        (λ v. IsReadFrom (R.remaining reader.old) (R.remaining reader.new) v.items) }
{
    let mut chunk = chunk_of(alloc, CHUNK)?;
    let mut bytes = Vec::new(alloc);
    'calls: for _ in 0..CALL_LIMIT {
        if read_once(reader, &mut chunk, &mut bytes)? {
            return Ok(bytes);
        }
    }
    Err(ReadFault::Device(ErrorKind::TimedOut.into()))
}
