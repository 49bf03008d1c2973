//! A text that was read, in two steps: its draft, and then its chart.

ghost use Rattle.std.specs.Prelude.{◌≡◌, IfOk, OnOk};
ghost use Rattle.msc_chart.specs.Drawings.{chart_of};
ghost use Rattle.msc_chart.specs.Faults.{IsFaultless};
ghost use Rattle.msc_source.specs.Reading.{IsRead, IsReading};
ghost use Rattle.msc_source.specs.Texts.{IsDrafted, IsSource};

use crate::fault::SourceFault;
use crate::language::Language;
use msc_chart::Chart;
use msc_parser::{Draft, parse};
use std::alloc::Global;
use std::marker::Model;

/// A text and its draft, for callers that print the draft: drafts take most of the memory.
#[derive(Drop)]
pub struct Reading<'t> {
    language: Language,
    text: &'t [u8],
    draft: Draft,
}

impl<'t> Model for Reading<'t> {
    ghost use Rattle.msc_source.specs.Texts.{ReadText, read_text, IsDrafted};

    ghost Value = { ReadText };

    ghost view = { λ r. read_text r.language r.text.now r.draft };

    ghost invariant = { λ r. IsDrafted (read_text r.language r.text.now r.draft) };
}

impl<'t> Reading<'t> {
    /// The draft of a text, or why it has none: its first fault, or `Memory`. It returns no fault
    /// of a chart.
    pub fn of(alloc: Global, language: Language, text: &'t [u8]) -> Result<Reading<'t>, SourceFault>
        ensures { IsRead language text.now result }
    {
        let draft = match language {
            Language::MscPr => parse(alloc, text)?,
        };
        Ok(Reading {
            language,
            text,
            draft,
        })
    }

    /// The draft. It takes no memory.
    pub fn draft(&self) -> &Draft
        ensures { result.now ≡ self.now.draft }
    {
        &self.draft
    }

    /// The text. It takes no memory.
    pub fn text(&self) -> &'t [u8]
        ensures { result.now ≡ self.entry.now.text }
    {
        self.text
    }

    /// The facts that hold for every text that was read. It does nothing when it runs; a caller
    /// that needs these facts calls it.
    pub fn drafted(&self)
        ensures { IsDrafted self.now }
    {
        let _draft = &self.draft;
    }
}

/// A text and its chart.
#[derive(Drop)]
pub struct Source<'t> {
    language: Language,
    text: &'t [u8],
    chart: Chart,
}

impl<'t> Model for Source<'t> {
    ghost use Rattle.msc_source.specs.Texts.{SourceText, source_text, IsSource};

    ghost Value = { SourceText };

    ghost view = { λ s. source_text s.language s.text.now s.chart };

    ghost invariant = { λ s. IsSource (source_text s.language s.text.now s.chart) };
}

impl<'t> Source<'t> {
    /// The chart of a text that was read, or why it has none: the first fault of its draft, or
    /// `Memory`. The caller keeps the draft.
    pub fn of_reading(alloc: Global, read: &Reading<'t>) -> Result<Source<'t>, SourceFault>
        ensures told { IsReading read.now.language read.now.text result }

        // The chart is that of the caller's draft, so both may be used at once.
        ensures drawn { IfOk result (λ source. source.chart ≡ chart_of read.now.draft) }
        ensures faultless { OnOk result (IsFaultless read.now.draft) }
    {
        read.drafted();
        let chart = Chart::build(alloc, &read.draft)?;
        Ok(Source {
            language: read.language,
            text: read.text,
            chart,
        })
    }

    /// A text in its language with its chart, or why it has none: its first fault, the first fault
    /// of its draft, or `Memory`. The draft is dropped once the chart is made.
    pub fn of(alloc: Global, language: Language, text: &'t [u8]) -> Result<Source<'t>, SourceFault>
        ensures { IsReading language text.now result }
    {
        let read = Reading::of(alloc, language, text)?;
        Source::of_reading(alloc, &read)
    }

    /// The chart only. It takes no memory.
    pub fn into_chart(self) -> Chart
        ensures { result ≡ self.entry.chart }
    {
        self.chart
    }

    /// The chart. It takes no memory.
    pub fn chart(&self) -> &Chart
        ensures { result.now ≡ self.now.chart }
    {
        &self.chart
    }

    /// The text. It takes no memory.
    pub fn text(&self) -> &'t [u8]
        ensures { result.now ≡ self.entry.now.text }
    {
        self.text
    }

    /// The facts that hold for every source. It does nothing when it runs; a caller that needs
    /// these facts calls it.
    pub fn source(&self)
        ensures { IsSource self.now }
    {
        let _chart = &self.chart;
    }
}
