//! Two rounds of a chart, if they are requested.

ghost use Rattle.std.specs.Prelude.{◌≡◌};
ghost use Rattle.msc_answer.specs.Rounds.{GivesRounds};

use msc_chart::{Chart, UnrollFault, Unrolled};
use std::alloc::Global;

/// Two rounds of a chart, if they are requested. An error is that they are too much for a chart, or
/// a growth of memory that was refused.
pub(crate) fn rounds_of(
    alloc: Global,
    again: bool,
    chart: &Chart,
) -> Result<Option<Unrolled<'_>>, UnrollFault>
    ensures { GivesRounds again chart.now result }
{
    if !again {
        return Ok(None);
    }
    Ok(Some(Unrolled::of(alloc, chart)?))
}
