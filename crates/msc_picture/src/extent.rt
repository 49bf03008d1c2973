//! The rows of a chart's segments, from the first to the last, in one pass over all rows.

ghost use Rattle.std.specs.Prelude.{◌≡◌, ◌<◌, ◌-◌, None, Some, IfOk, IsTrue, cond, get_or, length};
ghost use Rattle.std.specs.Prelude.{slice_set, ℕ};
ghost use Rattle.std.specs.List.{All};
ghost use Rattle.msc_picture.specs.Extents.{AreBegins, IsBeginOf, is_begun_by};
ghost use Rattle.msc_picture.specs.Rows.{AreKnownRows, IsKnownRow, begins_segment, grown, reach_of};
ghost use Rattle.msc_picture.specs.Rows.{row_passes, share_segment};

use crate::band::{begins_segment, grow};
use crate::scene::Row;
use msc_chart::{Chart, Event};
use std::alloc::{AllocError, Global};

/// The first event of the segment of event `e`, if `begun` is that of the event above.
fn begin_at(chart: &Chart, begun: Event, e: Event) -> Event
    requires known { e < length chart.now.events }
    requires begun { 0 < e → IsBeginOf chart.now.events begun (e - 1) }
    ensures { IsBeginOf chart.now.events result e }
{
    if begins_segment(chart, e) {
        return e;
    }
    begun
}

/// For each event, the first event of its segment.
fn begins_of(alloc: Global, chart: &Chart) -> Result<Vec<Event>, AllocError>
    ensures { IfOk result (λ begins. AreBegins chart.now.events begins.items) }
{
    let mut begins = Vec::new(alloc);
    let mut begun = 0;
    for e in 0..chart.events() {
        begun = begin_at(chart, begun, e);
        begins.push(begun)?;
    }
    Ok(begins)
}

/// Extends the segment that event `b` begins to row `k`.
fn widen(reaches: &mut Vec<Option<(usize, usize)>>, b: Event, k: usize)
    requires { b < length reaches.old.items }
    ensures { reaches.new.items
        ≡ slice_set reaches.old.items b (Some (grown (get_or reaches.old.items b None) k)) }
{
    reaches[b as usize] = Some(grow(reaches[b as usize], k));
}

/// Extends the segments of the events of row `k` to that row.
fn widen_to(reaches: &mut Vec<Option<(usize, usize)>>, begins: &[Event], row: Row, k: usize)
    requires row { IsKnownRow (length begins.now) row }
    requires begins { All (λ b. b < length reaches.old.items) begins.now }
    ensures long { length reaches.new.items ≡ length reaches.old.items }
    ensures each { (e : ℕ) → e < length reaches.old.items → get_or reaches.new.items e None
        ≡ cond (row_passes (is_begun_by begins.now e) row)
        (Some (grown (get_or reaches.old.items e None) k)) (get_or reaches.old.items e None) }
{
    widen(reaches, begins[row.first as usize], k);
    if let Some(second) = row.second {
        widen(reaches, begins[second as usize], k);
    }
}

/// For the first event of each segment, the first and the last row with an event of the segment.
pub fn reaches_of(
    alloc: Global,
    chart: &Chart,
    rows: &[Row],
) -> Result<Vec<Option<(usize, usize)>>, AllocError>
    requires { AreKnownRows (length chart.now.events) rows.now }
    ensures long { IfOk result (λ reaches. length reaches.items ≡ length chart.now.events) }
    ensures each { IfOk result (λ reaches. (e : ℕ) → e < length chart.now.events
        → IsTrue (begins_segment chart.now.events e) → get_or reaches.items e None
        ≡ reach_of (row_passes (share_segment chart.now.events e)) rows.now) }
{
    chart.facts();
    let begins = begins_of(alloc, chart)?;
    let mut reaches = vec![in alloc; None; chart.events() as usize]?;
    for k in 0..rows.len() {
        widen_to(&mut reaches, begins.as_slice(), rows[k], k);
    }
    Ok(reaches)
}
