//! The events and the text that findings are about.

use msc_chart::LinkKind;
use msc_diagnostic::Source;
use msc_wording::SpokenEvent;

/// An event, as sentences name it, and where it stands in the text.
#[derive(Clone, Copy)]
pub struct ShownEvent<'t> {
    pub spoken: SpokenEvent<'t>,
    /// The place of the first byte of its statement, from 0, and the place after the last.
    pub first: usize,
    pub past: usize,
    /// The place of its statement, as it is printed: `FILE:LINE:COLUMN`.
    pub place: &'t str,
    /// Of an event of a message, the kind of the link of the message, and the number of its queue.
    pub kind: LinkKind,
    pub queue: u32,
}

/// A text and its events, of which findings are printed.
#[derive(Clone, Copy)]
pub struct ShownText<'t, 'w> {
    pub source: &'t Source<'w>,
    /// What the instances are called, by their numbers.
    pub names: &'t [&'w str],
    /// The events, by their numbers.
    pub events: &'t [ShownEvent<'w>],
    /// Whether there are colours.
    pub colours: bool,
}
