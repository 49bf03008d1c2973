//! Events of a chart, numbered from 0 in the order of the text, over all sections.

ghost use Rattle.std.specs.Prelude.{◌≡◌};
ghost use Rattle.msc_chart.specs.Charts.{acts, controls, sends};

/// The number of an event, from 0.
pub type Event = u32;

/// Whether an event is an output or an input of a message, or a local event: an action (Z.120).
#[derive(Clone, Copy, Debug, PartialEq, Eq)]
pub enum EventKind {
    Output,
    Input,
    Local,
}

impl EventKind {
    /// Whether it is an output. It takes no memory.
    pub(crate) fn is_output(self) -> bool
        ensures { result ≡ sends self }
    {
        match self {
            EventKind::Output => true,
            EventKind::Input | EventKind::Local => false,
        }
    }

    /// Whether it is a local event. It takes no memory.
    pub(crate) fn is_local(self) -> bool
        ensures { result ≡ acts self }
    {
        match self {
            EventKind::Local => true,
            EventKind::Output | EventKind::Input => false,
        }
    }

    /// Whether its instance controls when it comes: it is an output or a local event. It takes no
    /// memory.
    pub(crate) fn is_controlled(self) -> bool
        ensures { result ≡ controls self }
    {
        match self {
            EventKind::Output | EventKind::Local => true,
            EventKind::Input => false,
        }
    }
}

/// The data of one event of a chart: its line, its segment on that line, both from 0, its kind, the
/// event at the other end of its message, and its subject: that message. A local event is its own
/// partner, and its subject is its action.
#[derive(Clone, Copy)]
pub(crate) struct ChartEvent {
    pub line: u32,
    pub segment: u32,
    pub kind: EventKind,
    pub partner: Event,
    pub subject: u32,
}
