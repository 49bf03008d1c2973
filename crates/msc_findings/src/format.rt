//! The text of a chart as its findings show it.

ghost use Rattle.std.specs.Prelude.{◌≡◌, ◌++◌, [], OnOk};
ghost use Rattle.msc_findings.specs.Formats.{mark_of, mark_text, marks_text};

use msc_chart::Event;
use msc_full::{ShownText, StaleMark, stale_text};
use msc_print::Page;
use std::alloc::{AllocError, Global};

/// A mark of the text, and the event that it belongs to.
#[derive(Clone, Copy)]
pub struct ShownMark<'f> {
    pub event: usize,
    pub stale: StaleMark<'f>,
}

/// What follows the closing line of a text.
#[derive(Clone, Copy)]
pub enum Following {
    /// The help on marks, if races are listed and no mark was met.
    Help,
    /// An empty line.
    Blank,
}

/// A text whose findings are shown.
#[derive(Clone, Copy)]
pub struct FullFormat<'f, 'w> {
    pub text: ShownText<'f, 'w>,
    /// The marks of the text, if marks are used.
    pub marks: &'f [ShownMark<'w>],
    /// The name of the file, as people read it.
    pub file: &'w str,
    /// The architecture, as it is written.
    pub queues: &'w str,
    /// What follows the closing line of a check.
    pub following: Following,
}

/// The mark of an event.
fn mark_of<'f>(marks: &[ShownMark<'f>], event: Event) -> Option<StaleMark<'f>>
    ensures { result ≡ mark_of marks.now event }
{
    for mark in marks {
        if mark.event == event as usize {
            return Some(mark.stale);
        }
    }
    None
}

impl FullFormat<'_, '_> {
    /// Appends the diagnostic of the mark of an event, which accepts no race.
    fn print_mark(&self, alloc: Global, page: &mut Page, event: Event) -> Result<(), AllocError>
        ensures { OnOk result (page.new.bytes.items ≡ page.old.bytes.items
            ++ mark_text self.now event) }
    {
        let Some(stale) = mark_of(self.marks, event) else {
            return Ok(());
        };
        let text = stale_text(alloc, self.text, stale)?;
        page.bytes.extend_from_slice(text.as_slice())
    }

    /// Appends the diagnostics of the marks of these events, which accept no race.
    pub(crate) fn print_marks(
        &self,
        alloc: Global,
        page: &mut Page,
        events: &[Event],
    ) -> Result<(), AllocError>
        ensures { OnOk result (page.new.bytes.items ≡ page.old.bytes.items
            ++ marks_text self.now events.now) }
    {
        for event in events {
            self.print_mark(alloc, page, *event)?;
        }
        Ok(())
    }
}
