//! Why logs are not gathered.

ghost use Rattle.std.specs.Prelude.{◌≡◌};
ghost use Rattle.msc_gather.specs.declared.fault.GatherFault.TheVariants.{Memory};

use std::alloc::{AllocError, AllocFailed};
use thiserror::Error;

/// Why logs are not gathered.
#[derive(Clone, Copy, Debug, PartialEq, Eq, Error)]
pub enum GatherFault {
    /// No run of the chart has these logs as its lines.
    #[error("no run has these logs")]
    NoMerge,
    /// A growth of memory was refused.
    #[error("memory fault")]
    Memory,
}

impl From<AllocError> for GatherFault {
    ghost from_gives = { λ _ e. e ≡ Memory };

    fn from(_e: AllocError) -> GatherFault {
        GatherFault::Memory
    }
}

impl<T: Drop> From<AllocFailed<T>> for GatherFault {
    ghost from_gives = { λ _ e. e ≡ Memory };

    fn from(_e: AllocFailed<T>) -> GatherFault {
        GatherFault::Memory
    }
}
