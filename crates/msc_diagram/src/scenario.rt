//! Scenarios of a diagram.

use listed::Listed;
use msc_chart::Chart;
use msc_import::TextSpans;
use msc_place::EventPositions;

/// A scenario of a diagram: its choices, its chart, where the arrows of its events begin, and what
/// stands where in the text.
#[derive(Drop)]
pub struct Scenario<'f> {
    pub choices: Listed<usize>,
    pub chart: Chart,
    pub event_positions: EventPositions<'f>,
    pub spans: TextSpans,
}
