//! Numbers for the names of a chart's events in marks.

ghost use Rattle.std.specs.Prelude.{◌≤◌, length, IfOk};
ghost use Rattle.msc_mark.specs.Named.{AreNumbered};

use crate::ident::{Ident, ident_of};
use indexmap::IndexSet;
use msc_chart::{Chart, EVENT_LIMIT};
use std::alloc::{AllocError, Global};

/// The names of a chart's events in marks, each once, and for each event the number of its name. An
/// error is a growth of memory that was refused.
pub(crate) fn numbered<'a>(
    alloc: Global,
    chart: &'a Chart,
) -> Result<(IndexSet<Ident<'a>>, Vec<u32>), AllocError>
    ensures numbered { IfOk result (λ r. AreNumbered chart.now r.0.keys r.1.items) }
    ensures few { IfOk result (λ r. length r.0.keys ≤ EVENT_LIMIT) }
{
    let mut idents = IndexSet::new(alloc);
    let mut numbers = Vec::new(alloc);
    for e in 0..chart.events() {
        let (number, _) = idents.insert_full(ident_of(chart, e))?;
        numbers.push(number as u32)?;
    }
    Ok((idents, numbers))
}
