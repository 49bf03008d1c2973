//! The words of a chart, lent to its findings.

ghost use Rattle.std.specs.Prelude.{◌≡◌, IfOk, length, map};
ghost use Rattle.std.specs.String.{string_bytes};
ghost use Rattle.msc_shown_chart.specs.Charts.{HasLent, Lends};
ghost use Rattle.msc_shown_chart.specs.Marks.{plain_mark, plain_shown};
ghost use Rattle.msc_shown_chart.specs.Words.{plain_words};

use crate::marks::MarkWords;
use crate::words::ChartWords;
use msc_chart::{Chart, Queues};
use msc_diagnostic::{LineEnds, Source};
use msc_findings::{Following, FullFormat, ShownMark};
use msc_full::{ShownEvent, ShownText, StaleMark};
use std::alloc::{AllocError, Global};

/// The words of a chart, and its text, lent to findings.
#[derive(Drop)]
pub struct LentWords<'w> {
    pub source: Source<'w>,
    pub names: Vec<&'w str>,
    pub events: Vec<ShownEvent<'w>>,
    pub marks: Vec<ShownMark<'w>>,
    pub file: &'w str,
    pub queues: &'w str,
}

/// These names, lent. The only error is want of memory.
pub fn lent_names(alloc: Global, names: &[String]) -> Result<Vec<&str>, AllocError>
    ensures { IfOk result (λ lent.
        map (λ name. name.now) lent.items ≡ map string_bytes names.now) }
{
    let mut lent = Vec::new(alloc);
    for name in names {
        lent.push(name.as_str())?;
    }
    Ok(lent)
}

/// A mark, lent.
fn lent_mark(words: &MarkWords) -> ShownMark<'_>
    ensures { plain_shown result ≡ plain_mark words.now }
{
    ShownMark {
        event: words.event,
        stale: StaleMark {
            first: words.first,
            past: words.past,
            place: words.place.as_str(),
            has_arrow: true,
        },
    }
}

/// These marks, lent.
fn lent_marks(alloc: Global, marks: &[MarkWords]) -> Result<Vec<ShownMark<'_>>, AllocError>
    ensures { IfOk result (λ lent.
        map plain_shown lent.items ≡ map plain_mark marks.now) }
{
    let mut lent = Vec::new(alloc);
    for mark in marks {
        lent.push(lent_mark(mark))?;
    }
    Ok(lent)
}

impl<'w> LentWords<'w> {
    /// The words of a chart under an architecture, and its text, lent. The only error is want of
    /// memory.
    pub fn of(
        alloc: Global,
        words: &'w ChartWords,
        chart: &Chart,
        queues: Queues,
        text: &'w [u8],
    ) -> Result<LentWords<'w>, AllocError>
        requires { length (map plain_words words.now.events.items) ≡ length chart.now.events }
        ensures { IfOk result (Lends chart.now queues text.entry.now words.entry.now) }
    {
        let source = Source::new(alloc, text, LineEnds::LineFeed)?;
        let names = lent_names(alloc, words.names.as_slice())?;
        let events = words.shown(alloc, chart, queues)?;
        let marks = lent_marks(alloc, words.marks.as_slice())?;
        Ok(LentWords {
            source,
            names,
            events,
            marks,
            file: words.file.as_str(),
            queues: words.queues.as_str(),
        })
    }

    /// The format of findings with these words, with or without colours, and what follows the closing
    /// line.
    pub fn format<'l>(&'l self, colours: bool, following: Following) -> FullFormat<'l, 'w>
        ensures { HasLent self.entry.now colours following result }
    {
        FullFormat {
            text: ShownText {
                source: &self.source,
                names: self.names.as_slice(),
                events: self.events.as_slice(),
                colours,
            },
            marks: self.marks.as_slice(),
            file: self.file,
            queues: self.queues,
            following,
        }
    }
}
