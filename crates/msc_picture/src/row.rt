//! Rows: which events are drawn next to one another.

ghost use Rattle.std.specs.Prelude.{◌≡◌, ◌<◌, IfOk, length};
ghost use Rattle.std.specs.List.{All};
ghost use Rattle.msc_picture.specs.Rows.{AreKnownRows, answers_to, rows_of};

use crate::scene::Row;
use msc_chart::{Chart, Event};
use std::alloc::{AllocError, Global};

/// Whether event `r` is the input of output `s`.
fn answers_to(chart: &Chart, s: Event, r: Event) -> bool
    requires { s < length chart.now.events }
    ensures { result ≡ answers_to chart.now.events s r }
{
    chart.is_output(s) && chart.other_end(s) == r
}

/// The rows of events in this order. An error is a growth of memory that was refused.
pub fn rows_of(alloc: Global, chart: &Chart, order: &[Event]) -> Result<Vec<Row>, AllocError>
    requires { All (λ e. e < length chart.now.events) order.now }
    ensures rows { IfOk result (λ rows. rows.items ≡ rows_of chart.now.events order.now) }
    ensures known { IfOk result (λ rows. AreKnownRows (length chart.now.events) rows.items) }
{
    let mut rows = Vec::new(alloc);
    let mut left = None;
    for e in order {
        let Some(s) = left else {
            left = Some(*e);
            continue;
        };
        if answers_to(chart, s, *e) {
            rows.push(Row {
                first: s,
                second: Some(*e),
            })?;
            left = None;
        } else {
            rows.push(Row {
                first: s,
                second: None,
            })?;
            left = Some(*e);
        }
    }
    if let Some(s) = left {
        rows.push(Row {
            first: s,
            second: None,
        })?;
    }
    Ok(rows)
}
