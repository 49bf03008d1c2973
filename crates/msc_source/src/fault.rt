//! Why an input was not read, and why a text has no chart.

ghost use Rattle.std.specs.Prelude.{◌≡◌};
ghost use Rattle.msc_source.specs.Faults.{chart_refusal_of, refusal_of};
ghost use Rattle.msc_source.specs.declared.fault.ReadFault.TheVariants.{Memory};

use msc_chart::ChartFault;
use msc_parser::ParseFault;
use std::alloc::AllocError;
use std::io;
use thiserror::Error;

/// Why an input was not read to its end.
#[derive(Clone, Copy, Debug, Error)]
pub enum ReadFault {
    /// A growth of memory was refused.
    #[error("memory fault")]
    Memory,
    /// A read failed with this error, or the input did not end in time.
    #[error("{0}")]
    Device(io::Error),
}

impl From<AllocError> for ReadFault {
    ghost from_gives = { λ _ e. e ≡ Memory };

    fn from(_e: AllocError) -> ReadFault {
        ReadFault::Memory
    }
}

/// Why a text has no chart. The first of these variants that applies is returned, except that
/// `Memory` may come at any growth.
#[derive(Clone, Copy, Debug, PartialEq, Eq, Error)]
pub enum SourceFault {
    /// The text has no draft.
    #[error("{0}")]
    Parse(ParseFault),
    /// The text's draft is no chart.
    #[error("{0}")]
    Chart(ChartFault),
    /// A growth of memory was refused.
    #[error("memory fault")]
    Memory,
}

impl From<ParseFault> for SourceFault {
    ghost from_gives = { λ f e. e ≡ refusal_of f };

    /// `Memory` is never nested.
    fn from(fault: ParseFault) -> SourceFault {
        match fault {
            ParseFault::Memory => SourceFault::Memory,
            _ => SourceFault::Parse(fault),
        }
    }
}

impl From<ChartFault> for SourceFault {
    ghost from_gives = { λ f e. e ≡ chart_refusal_of f };

    /// `Memory` is never nested.
    fn from(fault: ChartFault) -> SourceFault {
        match fault {
            ChartFault::Memory => SourceFault::Memory,
            _ => SourceFault::Chart(fault),
        }
    }
}
