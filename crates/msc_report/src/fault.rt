//! Why a call gave no answer: the union of the faults of all phases.
//!
//! Reading an input fails with a `ReadFault`, making a text's chart with a `SourceFault` (both of
//! `msc_source`), running it with a `RunFault` (of `msc_ending`), and writing with a `WriteFault`
//! (of `msc_print`). Each becomes a [`Fault`], which has a line.

ghost use Rattle.std.specs.Prelude.{◌≡◌};
ghost use Rattle.msc_report.specs.declared.fault.Fault.TheVariants.{Device, Memory};
ghost use Rattle.msc_report.specs.Refusals.{of_reading, of_run, of_source, of_writing};

use msc_chart::ChartFault;
use msc_ending::RunFault;
use msc_parser::ParseFault;
use msc_print::WriteFault;
use msc_source::{ReadFault, SourceFault};
use std::alloc::AllocError;
use std::io;
use thiserror::Error;

/// Why a call gave no answer. The first fault that stands is answered, in this order; want of
/// memory may come at any growth before the answer is known.
#[derive(Clone, Copy, Debug, PartialEq, Eq, Error)]
pub enum Fault {
    /// The text has no draft.
    #[error("{0}")]
    Parse(ParseFault),
    /// The text's draft is no chart.
    #[error("{0}")]
    Chart(ChartFault),
    /// The thread of this instance could not be started.
    #[error("instance {0} could not be started")]
    NotStarted(u32),
    /// A growth of memory was refused.
    #[error("memory fault")]
    Memory,
    /// A read or a write failed, or an input did not end in time.
    #[error("device fault")]
    Device,
}

impl From<AllocError> for Fault {
    ghost from_gives = { λ _ e. e ≡ Memory };

    fn from(_e: AllocError) -> Fault {
        Fault::Memory
    }
}

impl From<io::Error> for Fault {
    ghost from_gives = { λ _ e. e ≡ Device };

    fn from(_e: io::Error) -> Fault {
        Fault::Device
    }
}

impl From<ReadFault> for Fault {
    ghost from_gives = { λ f e. e ≡ of_reading f };

    fn from(fault: ReadFault) -> Fault {
        match fault {
            ReadFault::Memory => Fault::Memory,
            ReadFault::Device(_) => Fault::Device,
        }
    }
}

impl From<SourceFault> for Fault {
    ghost from_gives = { λ f e. e ≡ of_source f };

    fn from(fault: SourceFault) -> Fault {
        match fault {
            SourceFault::Parse(fault) => Fault::Parse(fault),
            SourceFault::Chart(fault) => Fault::Chart(fault),
            SourceFault::Memory => Fault::Memory,
        }
    }
}

impl From<RunFault> for Fault {
    ghost from_gives = { λ f e. e ≡ of_run f };

    fn from(fault: RunFault) -> Fault {
        match fault {
            RunFault::NotStarted(i) => Fault::NotStarted(i),
            RunFault::Memory => Fault::Memory,
        }
    }
}

impl From<WriteFault> for Fault {
    ghost from_gives = { λ f e. e ≡ of_writing f };

    fn from(fault: WriteFault) -> Fault {
        match fault {
            WriteFault::Memory => Fault::Memory,
            WriteFault::Device => Fault::Device,
        }
    }
}
