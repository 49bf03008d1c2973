//! Why a chart was not run.

ghost use Rattle.std.specs.Prelude.{◌≡◌};
ghost use Rattle.msc_ending.specs.declared.fault.RunFault.TheVariants.{Memory};

use std::alloc::AllocError;
use thiserror::Error;

/// Why a chart was not run.
#[derive(Clone, Copy, Debug, PartialEq, Eq, Error)]
pub enum RunFault {
    /// The thread of this instance could not be started.
    #[error("instance {0} could not be started")]
    NotStarted(u32),
    /// A growth of memory was refused.
    #[error("memory fault")]
    Memory,
}

impl From<AllocError> for RunFault {
    ghost from_gives = { λ _ e. e ≡ Memory };

    fn from(_e: AllocError) -> RunFault {
        RunFault::Memory
    }
}
