//! The events that marks name, looked up by number.

ghost use Rattle.std.specs.Prelude.{◌≡◌, ◌≤◌, ◌<◌, ◌*◌, Some, length, slice_get, IfOk};
ghost use Rattle.msc_mark.specs.declared.ident.Ident as code;
ghost use Rattle.msc_mark.specs.declared.mark.Mark.{Mark as MarkRecord};
ghost use Rattle.msc_mark.specs.Accepting.{name_at, names_event, number_at};
ghost use Rattle.msc_mark.specs.Named.{AreApart, AreRows};

use crate::ident::Ident;
use crate::mark::Mark;
use crate::marks::Marks;
use crate::numbering::numbered;
use crate::row::row_of;
use bit_rows::row;
use indexmap::IndexSet;
use listed::Listed;
use msc_chart::{Chart, EVENT_LIMIT, Event};
use std::alloc::{AllocError, Global};
use std::marker::Model;

/// The events of a chart that each mark of a text is for. Contracts see the marks and the chart.
#[derive(Drop)]
pub(crate) struct NamedEvents<'a> {
    marks: &'a Marks,
    chart: &'a Chart,
    /// For each event the number of its name in marks; none without a mark.
    numbers: Vec<u32>,
    /// For each mark the row of the numbers of the names that it is for.
    rows: Vec<Listed<u64>>,
}

impl<'a> Model for NamedEvents<'a> {
    ghost use Rattle.msc_mark.specs.Named.{MarkedChart, marked_chart, AreKept};

    ghost Value = { MarkedChart };

    ghost view = { λ n. marked_chart n.marks.now n.chart.now };

    ghost invariant = { λ n. AreKept n.marks.now n.chart.now n.numbers.items n.rows.items };
}

/// The rows of marks.
fn rows_of<'a>(
    alloc: Global,
    idents: &IndexSet<Ident<'a>>,
    marks: &'a [Mark],
) -> Result<Vec<Listed<u64>>, AllocError>
    requires few { length idents.now.keys ≤ EVENT_LIMIT }
    requires apart { AreApart idents.now.keys }
    ensures { IfOk result (λ rows. AreRows idents.now.keys marks.now rows.items) }
{
    let mut rows = Vec::new(alloc);
    for mark in marks {
        rows.push(Listed::from_vec(row_of(alloc, idents, mark)?))?;
    }
    Ok(rows)
}

impl<'a> NamedEvents<'a> {
    /// The events of the chart that each of the marks is for. An error is a growth of memory that
    /// was refused.
    pub fn of(
        alloc: Global,
        marks: &'a Marks,
        chart: &'a Chart,
    ) -> Result<NamedEvents<'a>, AllocError>
        ensures marks { IfOk result (λ named. named.marks ≡ marks.now) }
        ensures chart { IfOk result (λ named. named.chart ≡ chart.now) }
    {
        if marks.as_slice().is_empty() {
            return Ok(NamedEvents {
                marks,
                chart,
                numbers: Vec::new(alloc),
                rows: Vec::new(alloc),
            });
        }
        let (idents, numbers) = numbered(alloc, chart)?;
        let rows = rows_of(alloc, &idents, marks.as_slice())?;
        Ok(NamedEvents {
            marks,
            chart,
            numbers,
            rows,
        })
    }

    /// Whether mark `i` is for races with event `f`. It is two look-ups, and takes no memory.
    pub fn has(&self, i: usize, f: Event) -> bool
        requires mark { i < length self.now.marks }
        requires event { f < length self.now.chart.events }
        ensures { (m : MarkRecord) → slice_get self.now.marks i ≡ Some m → result
            ≡ names_event (name_at self.now.chart f) (number_at self.now.chart f) m }
    {
        let row = self.rows[i].as_slice();
        row::has(row, self.numbers[f as usize])
    }
}
