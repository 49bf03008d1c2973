//! Bands: the rows of coregions, from the first to the last.

ghost use Rattle.std.specs.Prelude.{◌≡◌, ◌<◌, ◌++◌, [], IfOk, OnOk, cond, length};
ghost use Rattle.msc_chart.specs.Charts.{line};
ghost use Rattle.msc_picture.specs.Rows.{AreKnownRows, band_over, bands_of, begins_band};
ghost use Rattle.msc_picture.specs.Rows.{begins_segment, grown, share_segment};

use crate::extent::reaches_of;
use crate::scene::{Band, Row};
use msc_chart::{Chart, Event};
use std::alloc::{AllocError, Global};

/// Whether events `e` and `f` are in one segment of one line.
pub fn share_segment(chart: &Chart, e: Event, f: Event) -> bool
    requires e_known { e < length chart.now.events }
    requires f_known { f < length chart.now.events }
    ensures { result ≡ share_segment chart.now.events e f }
{
    chart.instance_of(e) == chart.instance_of(f) && chart.segment(e) == chart.segment(f)
}

/// Whether event `e` is the first of its segment.
pub fn begins_segment(chart: &Chart, e: Event) -> bool
    requires { e < length chart.now.events }
    ensures { result ≡ begins_segment chart.now.events e }
{
    !(e > 0 && share_segment(chart, e - 1, e))
}

/// Whether event `e` is the first of several events of a segment.
fn begins_band(chart: &Chart, e: Event) -> bool
    requires { e < length chart.now.events }
    ensures { result ≡ begins_band chart.now.events e }
{
    chart.facts();
    begins_segment(chart, e) && e + 1 < chart.events() && share_segment(chart, e, e + 1)
}

/// A range of places, extended to one more place.
pub fn grow(reach: Option<(usize, usize)>, k: usize) -> (usize, usize)
    ensures { result ≡ grown reach k }
{
    match reach {
        Some((first, _)) => (first, k),
        None => (k, k),
    }
}

/// Appends the band of the segment that event `e` begins to the bands, if it has one: from the
/// first to the last row of the segment.
fn put_band(
    bands: &mut Vec<Band>,
    chart: &Chart,
    e: Event,
    reach: Option<(usize, usize)>,
) -> Result<(), AllocError>
    requires { e < length chart.now.events }
    ensures { OnOk result (bands.new.items ≡ bands.old.items
        ++ cond (begins_band chart.now.events e) (band_over (line chart.now.events e) reach) []) }
{
    if !begins_band(chart, e) {
        return Ok(());
    }
    let Some((first, last)) = reach else {
        return Ok(());
    };
    bands.push(Band {
        instance: chart.instance_of(e),
        first,
        last,
    })?;
    Ok(())
}

/// The bands of a chart in these rows. An error is a growth of memory that was refused.
pub fn bands_of(alloc: Global, chart: &Chart, rows: &[Row]) -> Result<Vec<Band>, AllocError>
    requires { AreKnownRows (length chart.now.events) rows.now }
    ensures { IfOk result (λ bands. bands.items ≡ bands_of chart.now.events rows.now) }
{
    let reaches = reaches_of(alloc, chart, rows)?;
    let mut bands = Vec::new(alloc);
    for e in 0..chart.events() {
        let reach = reaches[e as usize];
        put_band(&mut bands, chart, e, reach)?;
    }
    Ok(bands)
}
