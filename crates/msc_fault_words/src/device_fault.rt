//! Faults of memory and of devices, in words.

ghost use Rattle.std.specs.Prelude.{◌≡◌, IfOk};
ghost use Rattle.std.specs.String.{string_bytes};
ghost use Rattle.msc_fault_words.specs.Devices.{reading, reading_text, writing, writing_text};
ghost use Rattle.msc_fault_words.specs.Devices.{IsCause};
ghost use Rattle.msc_fault_words.specs.Words.{memory};

use crate::words::FaultWords;
use std::alloc::{AllocError, Global};

/// A growth of memory was refused. The only error is that there is not even memory to say so.
pub fn memory_words(alloc: Global) -> Result<FaultWords, AllocError>
    ensures { IfOk result (λ words. words ≡ memory) }
{
    FaultWords::fixed(alloc, "memory", "out of memory")
}

/// The cause of a fault of a device, as it is printed: without the number that the system gives it.
pub fn cause_of(cause: &str) -> &str
    ensures { IsCause cause.now result.now }
{
    match cause.split_once(" (os error ") {
        Some((words, _)) => words,
        None => cause,
    }
}

/// That a file cannot be read.
#[tactic(auto, unfolding(crate::specs::Devices::reading_text))]
fn reading_text(alloc: Global, file: &str, cause: &str) -> Result<String, AllocError>
    ensures { IfOk result (λ text. string_bytes text ≡ reading_text file.now cause.now) }
{
    format!(in alloc; "cannot read {file}: {cause}")
}

/// A file that cannot be read, and why ([`cause_of`]). Both are printed as they are. The only error is
/// want of memory.
pub fn reading_words(alloc: Global, file: &str, cause: &str) -> Result<FaultWords, AllocError>
    ensures { IfOk result (λ words. words ≡ reading file.now cause.now) }
{
    let sentence = reading_text(alloc, file, cause)?;
    Ok(FaultWords::new(alloc, "device", sentence))
}

/// That the answer cannot be written.
#[tactic(auto, unfolding(crate::specs::Devices::writing_text))]
fn writing_text(alloc: Global, cause: &str) -> Result<String, AllocError>
    ensures { IfOk result (λ text. string_bytes text ≡ writing_text cause.now) }
{
    format!(in alloc; "cannot write: {cause}")
}

/// An answer that cannot be written, and why, which is printed as it is. The only error is want of
/// memory.
pub fn writing_words(alloc: Global, cause: &str) -> Result<FaultWords, AllocError>
    ensures { IfOk result (λ words. words ≡ writing cause.now) }
{
    let sentence = writing_text(alloc, cause)?;
    Ok(FaultWords::new(alloc, "device", sentence))
}
