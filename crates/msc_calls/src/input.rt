//! Reading an input to its end.

ghost use Rattle.std.specs.Prelude.{◌≡◌, ◌⊎◌, take, IfErr, IfOk, IfSome};
ghost use Rattle.msc_source.specs.Inputs.{IsReadFrom};

use msc_report::Fault;
use msc_source::BYTE_LIMIT;
use std::alloc::Global;
use std::io::Read;

/// All bytes of a reader, or the first 1,048,577 of them.
///
/// `Device` means that a read failed, or that the input has not ended after 2,097,152 calls of
/// `read`; a read that was interrupted is tried again. `Memory` means that a growth of memory was
/// refused. After a fault some bytes may have been taken from the reader.
pub fn read_all<R: Read>(alloc: Global, reader: &mut R) -> Result<Vec<u8>, Fault>
    ensures bytes { IfOk result
        (λ v. IfSome (R.remaining reader.old) (λ xs. v.items ≡ take BYTE_LIMIT xs)) }
    ensures rest { IfOk result
        (λ v. IsReadFrom (R.remaining reader.old) (R.remaining reader.new) v.items) }
    ensures fault { IfErr result (λ e. (e ≡ Fault.Memory) ⊎ (e ≡ Fault.Device)) }
{
    Ok(msc_source::read_all(alloc, reader)?)
}
