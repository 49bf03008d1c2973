//! The segments of a chart's lines, by the numbers of their events.

ghost use Rattle.std.specs.Prelude.{◌<◌, length};
ghost use Rattle.msc_order.specs.Closing.{IsNextSegment};

use msc_chart::{Chart, Event};

/// The events of the next segment after that of `e` on its line: from the first number up to the
/// second. The first is the number past the segment of `e`, even if no other segment follows.
pub fn next_segment_events(chart: &Chart, e: Event) -> (Event, Event)
    requires { e < length chart.now.events }
    ensures { IsNextSegment chart.now.events e result.0 result.1 }
{
    let start = chart.segment_end(e);
    if start >= chart.events() || !chart.before(e, start) {
        return (start, start);
    }
    (start, chart.segment_end(start))
}
