//! The names of events: those of a chart are their numbers, those of two rounds of it their numbers
//! in the chart and their rounds.

ghost use Rattle.std.specs.Prelude.{◌≡◌, ◌<◌, ◌++◌, IsTrue, List, OnOk, length, ℕ};
ghost use Rattle.msc_chart.specs.Charts.{is_input};
ghost use Rattle.msc_chart.specs.Drawings.{Drawing};
ghost use Rattle.msc_reason.specs.Named.{AreEventsOf};
ghost use Rattle.msc_report.specs.declared.ready_format.ReadyFormat.{ReadyFormat};

use crate::ready_format::ReadyFormat;
use msc_chart::Event;
use msc_print::Page;
use std::alloc::AllocError;

/// The names of events in the lines of sticks.
pub trait EventNames: Drop {
    /// The chart whose events are named. For two rounds it is the chart of two rounds.
    ghost drawing: { Self → Drawing };

    /// The lines of a stick in a format, without what shows it.
    ghost stick_text: { Self → ReadyFormat → ℕ × ℕ → List ℕ };

    /// The line of the stick that is ahead of another, in a format.
    ghost behind_text: { Self → ReadyFormat → ℕ × ℕ → List ℕ };

    /// The lines of a run in a format.
    ghost run_lines: { Self → ReadyFormat → List ℕ → List ℕ };

    /// Appends a stick, two inputs of one line, in a format. In lines of text: their names, the
    /// name of the instance and what they do; the two outputs, the first of which would have to
    /// come before the other; and in words what the instance waits for. In lines for editors: the
    /// first of these lines at the first event, and a note at the second. The only error is want of
    /// memory.
    fn print_blocked_pair(
        &self,
        page: &mut Page,
        format: ReadyFormat<'_>,
        stick: (Event, Event),
    ) -> Result<(), AllocError>
        requires first { IsTrue (is_input (drawing self.now).events stick.0) }
        requires second { IsTrue (is_input (drawing self.now).events stick.1) }
        ensures { OnOk result (page.new.bytes.items
            ≡ page.old.bytes.items ++ stick_text self.now format.entry stick) };

    /// Appends the line of the stick that is ahead of another. Only lines of text have one.
    fn print_behind(
        &self,
        page: &mut Page,
        format: ReadyFormat<'_>,
        ahead: (Event, Event),
    ) -> Result<(), AllocError>
        requires first { ahead.0 < length (drawing self.now).events }
        requires second { ahead.1 < length (drawing self.now).events }
        ensures { OnOk result (page.new.bytes.items
            ≡ page.old.bytes.items ++ behind_text self.now format.entry ahead) };

    /// Appends a run: by the names of its events, or in words, a line for each. Only lines of text
    /// have one.
    fn print_run(
        &self,
        page: &mut Page,
        format: ReadyFormat<'_>,
        run: &[Event],
    ) -> Result<(), AllocError>
        requires { AreEventsOf (drawing self.now) run.now }
        ensures { OnOk result (page.new.bytes.items
            ≡ page.old.bytes.items ++ run_lines self.now format.entry run.now) };
}
