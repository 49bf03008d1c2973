//! A text with its chart: the text draws it, or is a diagram of which the chart is a scenario.

ghost use Rattle.std.specs.Prelude.{◌≡◌, IfOk, None, Some, is_some, option_map};
ghost use Rattle.msc_chart.specs.Faults.{IsFaultless};
ghost use Rattle.msc_answer.specs.Charted.{of_diagram, of_text, IsCharted};
ghost use Rattle.msc_answer.specs.Sited.{HasEventPositions};
ghost use Rattle.msc_source.specs.declared.language.Language.TheVariants.{MscPr};

use crate::importing::{ImportedDiagram, chart_of};
use msc_chart::Chart;
use msc_import::Imported;
use msc_place::EventPositions;
use msc_source::Source;
use std::alloc::{AllocError, Global};
use std::marker::Model;

/// A text and its chart, and if the text is a diagram, the import whose chart it is.
#[derive(Drop)]
pub struct TextChart<'t, 'i> {
    text: &'t [u8],
    chart: Chart,
    drawing: Option<&'i ImportedDiagram>,
}

impl<'t, 'i> Model for TextChart<'t, 'i> {
    ghost use Rattle.std.specs.Prelude.{option_map};
    ghost use Rattle.msc_answer.specs.Charted.{charted, ChartedText, IsCharted};

    ghost Value = { ChartedText };

    ghost view = { λ t. charted t.text.now t.chart (option_map (λ i. i.now) t.drawing) };

    ghost invariant = { λ t.
        IsCharted (charted t.text.now t.chart (option_map (λ i. i.now) t.drawing)) };
}

impl<'t, 'i> TextChart<'t, 'i> {
    /// A text that draws its chart.
    pub fn of_source(source: Source<'t>) -> TextChart<'t, 'i>
        requires { source.language ≡ MscPr }
        ensures { result ≡ of_text source.entry.text source.entry.chart }
    {
        source.source();
        TextChart {
            text: source.text(),
            chart: source.into_chart(),
            drawing: None,
        }
    }

    /// A text that is a diagram, with the chart of this import. An error is a growth of memory that
    /// was refused.
    pub(crate) fn of_import(
        alloc: Global,
        text: &'t [u8],
        drawing: &'i ImportedDiagram,
    ) -> Result<TextChart<'t, 'i>, AllocError>
        requires { IsFaultless drawing.now.imported.draft }
        ensures { IfOk result (λ t. t ≡ of_diagram text.now drawing.now) }
    {
        match chart_of(alloc, &drawing.imported.draft) {
            Ok(chart) => Ok(TextChart {
                text,
                chart,
                drawing: Some(drawing),
            }),
            Err(_) => Err(AllocError),
        }
    }

    /// The chart. It takes no memory.
    pub fn chart(&self) -> &Chart
        ensures { result.now ≡ self.now.chart }
    {
        &self.chart
    }

    /// The text. It takes no memory.
    pub fn text(&self) -> &'t [u8]
        ensures { result.now ≡ self.entry.now.text }
    {
        self.text
    }

    /// The import, if the text is a diagram. It takes no memory.
    pub(crate) fn imported(&self) -> Option<&'i Imported>
        ensures { option_map (λ i. i.now) result ≡ self.entry.now.imported }
    {
        match self.drawing {
            Some(drawing) => Some(&drawing.imported),
            None => None,
        }
    }

    /// The diagram and its import, if the text is a diagram. It takes no memory.
    pub(crate) fn drawing(&self) -> Option<&'i ImportedDiagram>
        ensures { option_map (λ i. i.now) result ≡ self.entry.now.drawing }
    {
        self.drawing
    }

    /// The facts that hold for every text with its chart. It does nothing when it runs.
    pub fn facts(&self)
        ensures { IsCharted self.now }
    {
        let _chart = &self.chart;
    }
}
