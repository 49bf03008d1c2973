//! The words of a diagram, lent to the findings of a scenario.

ghost use Rattle.std.specs.Prelude.{◌≡◌, IfOk};
ghost use Rattle.msc_shown_diagram.specs.Diagrams.{AreScenarioEvents, IsScenarioText, IsTextAlone};
ghost use Rattle.msc_shown_diagram.specs.Diagrams.{Lends};

use crate::words::DiagramWords;
use listed::Listed;
use msc_chart::{Chart, Queues};
use msc_diagnostic::{LineEnds, Source};
use msc_findings::LoopRound;
use msc_full::{ShownEvent, ShownText};
use msc_shown_chart::lent_names;
use std::alloc::{AllocError, Global};

/// The words of a diagram, and its text, lent.
#[derive(Drop)]
pub struct LentDiagram<'w> {
    pub source: Source<'w>,
    pub names: Vec<&'w str>,
    pub words: &'w DiagramWords,
}

/// The events of a scenario, and the rounds of each of them.
#[derive(Drop)]
pub struct ScenarioEvents<'w> {
    pub events: Vec<ShownEvent<'w>>,
    pub rounds: Vec<Listed<LoopRound>>,
}

impl<'w> LentDiagram<'w> {
    /// The words of a diagram, and its text, lent. The only error is want of memory.
    pub fn of(
        alloc: Global,
        words: &'w DiagramWords,
        text: &'w [u8],
    ) -> Result<LentDiagram<'w>, AllocError>
        ensures { IfOk result (Lends text.entry.now words.entry.now) }
    {
        let source = Source::new(alloc, text, LineEnds::Any)?;
        let names = lent_names(alloc, words.names.as_slice())?;
        Ok(LentDiagram {
            source,
            names,
            words,
        })
    }

    /// The events of a scenario: by its chart under an architecture, and for each event the number
    /// of the statement that draws it and the rounds of the loops around this, outermost first. The
    /// only error is want of memory.
    pub fn scenario(
        &self,
        alloc: Global,
        chart: &Chart,
        queues: Queues,
        arrows: &[usize],
        rounds: &[Listed<usize>],
    ) -> Result<ScenarioEvents<'w>, AllocError>
        ensures { IfOk result (AreScenarioEvents chart.now queues self.now.words.now
            arrows.now rounds.now) }
    {
        let events = self.words.events(alloc, chart, queues, arrows)?;
        let rounds = self.words.rounds(alloc, chart, arrows, rounds)?;
        Ok(ScenarioEvents { events, rounds })
    }

    /// The text of the findings of a scenario with these events, with or without colours.
    pub fn text<'l>(&'l self, scenario: &'l ScenarioEvents<'w>, colours: bool) -> ShownText<'l, 'w>
        ensures { IsScenarioText self.entry.now scenario.entry.now colours result }
    {
        ShownText {
            source: &self.source,
            names: self.names.as_slice(),
            events: scenario.events.as_slice(),
            colours,
        }
    }

    /// The text without events, with or without colours.
    pub fn text_alone(&self, colours: bool) -> ShownText<'_, 'w>
        ensures { IsTextAlone self.entry.now colours result }
    {
        ShownText {
            source: &self.source,
            names: &[],
            events: &[],
            colours,
        }
    }
}
