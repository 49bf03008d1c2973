//! Places on a line.

ghost use Rattle.std.specs.Prelude.{◌≡◌, ◌<◌, ◌≤◌, false, ℕ, length, IsTrue};
ghost use Rattle.msc_chart.specs.Lists.{occurs};
ghost use Rattle.msc_chart.specs.Charts.{is_controlled};

use crate::journal::Journal;
use msc_chart::{Chart, EVENT_LIMIT, Event};

/// The first output or local event from `from` on, or `end`.
pub(crate) fn next_controlled(chart: &Chart, from: Event, end: Event) -> Event
    requires from { from ≤ end }
    requires end { end ≤ length chart.now.events }
    ensures from { from ≤ result }
    ensures to { result ≤ end }
    ensures passed { (e : ℕ) → from ≤ e → e < result → is_controlled chart.now.events e ≡ false }
    ensures is { result < end → IsTrue (is_controlled chart.now.events result) }
{
    for e in from..end {
        if chart.is_controlled(e) {
            return e;
        }
    }
    end
}

/// The first event from `from` on that is not logged, or `end`.
pub(crate) fn first_missing(journal: &Journal, from: Event, end: Event) -> Event
    requires from { from ≤ end }
    requires end { end ≤ EVENT_LIMIT }
    ensures from { from ≤ result }
    ensures to { result ≤ end }
    ensures there { (e : ℕ) → from ≤ e → e < result → IsTrue (occurs journal.now.log.items e) }
    ensures missing { result < end → occurs journal.now.log.items result ≡ false }
{
    for e in from..end {
        if !journal.has(e) {
            return e;
        }
    }
    end
}
