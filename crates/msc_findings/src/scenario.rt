//! The renderer of the races of a scenario of a diagram.

ghost use Rattle.std.specs.Prelude.{◌≡◌, ◌++◌, [], IfOk};
ghost use Rattle.std.specs.List.{list_any};
ghost use Rattle.std.specs.Option.{option_copied, option_map};
ghost use Rattle.std.specs.String.{string_bytes};
ghost use Rattle.msc_findings.specs.Findings.{run_rows_text};
ghost use Rattle.msc_findings.specs.Scenarios.{count_at, in_other_round, in_two_rounds, is_other};
ghost use Rattle.msc_findings.specs.Scenarios.{is_next, rounds_at, scenario_finding, where_note};

use crate::race::{FindingNotes, finding_text};
use crate::run::run_text;
use listed::Listed;
use msc_chart::{Chart, Event};
use msc_full::ShownText;
use msc_judge::{Finding, Heading, Renderer, Totals};
use msc_print::Page;
use msc_wording::scenarios_text;
use std::alloc::{AllocError, Global};

/// A round of a loop: the number of the statement that begins the loop, from 0, and the number of
/// the round, from 1.
#[derive(Clone, Copy, Debug, PartialEq, Eq)]
pub struct LoopRound {
    pub begin: usize,
    pub round: usize,
}

/// A scenario of a diagram, as its findings show it.
#[derive(Clone, Copy)]
pub struct ShownScenario<'s> {
    /// The number of the scenario, from 1, and the number of all scenarios.
    pub number: usize,
    pub scenarios: usize,
    /// Its choices in words.
    pub choices: &'s str,
    /// For each of its findings the number of scenarios in which its place counts. `first` is the
    /// number of the first of them.
    pub counts: &'s [usize],
    pub first: u32,
    /// For each event the rounds of the loops around its arrow.
    pub rounds: &'s [Listed<LoopRound>],
}

/// Whether these are two rounds of one loop.
fn is_other(one: LoopRound, other: LoopRound) -> bool
    ensures { result ≡ is_other one other }
{
    one.begin == other.begin && one.round != other.round
}

/// Whether one of these rounds is another round of the same loop.
fn in_other_round(one: LoopRound, rounds: &[LoopRound]) -> bool
    ensures { result ≡ in_other_round rounds.now one }
{
    rounds.iter().any(|other| is_other(one, *other))
}

/// Whether some loop is around two events, in two rounds of it.
fn in_two_rounds(first: &[LoopRound], second: &[LoopRound]) -> bool
    ensures { result ≡ in_two_rounds first.now second.now }
{
    first.iter().any(|one| in_other_round(*one, second))
}

/// The rounds of an event; none, if there are fewer events.
fn rounds_at(rounds: &[Listed<LoopRound>], event: Event) -> &[LoopRound]
    ensures { result.now ≡ rounds_at rounds.now event }
{
    match rounds.get(event as usize) {
        Some(rounds) => rounds.as_slice(),
        None => &[],
    }
}

/// The count of a finding of this number, if the first has the number `first`; 0, if there is none.
fn count_at(counts: &[usize], first: u32, number: u32) -> usize
    ensures { result ≡ count_at counts.now first number }
{
    let index = number.saturating_sub(first) as usize;
    counts.get(index).copied().unwrap_or(0)
}

/// A note, lent.
fn lent_note(note: &Option<String>) -> Option<&str>
    ensures { option_copied result ≡ option_map string_bytes note.entry.now }
{
    match note {
        Some(note) => Some(note.as_str()),
        None => None,
    }
}

impl ShownScenario<'_> {
    /// Whether the second event of a finding is of another round of a loop around both.
    fn is_next(&self, finding: Finding) -> bool
        ensures { result ≡ is_next self.now finding }
    {
        in_two_rounds(
            rounds_at(self.rounds, finding.first),
            rounds_at(self.rounds, finding.second),
        )
    }

    /// In which scenarios a finding counts, if there are several.
    fn where_note(&self, alloc: Global, finding: Finding) -> Result<Option<String>, AllocError>
        ensures { IfOk result (λ note.
            option_map string_bytes note ≡ where_note self.now finding) }
    {
        if self.scenarios == 1 {
            return Ok(None);
        }
        let count = count_at(self.counts, self.first, finding.number);
        let text = scenarios_text(alloc, count, self.scenarios, self.number, self.choices)?;
        Ok(Some(text))
    }
}

/// The races of a scenario of a diagram as people read them. It prints no heading and no end: those
/// of a diagram are about all its scenarios.
#[derive(Clone, Copy)]
pub struct FullScenario<'f, 'w, 's> {
    pub alloc: Global,
    pub text: ShownText<'f, 'w>,
    pub scenario: ShownScenario<'s>,
}

impl Renderer for FullScenario<'_, '_, '_> {
    ghost fits = { λ s d. Unit {0} };

    ghost heading_text = { λ s d h. [] };

    ghost run_text = { λ s d run. run_rows_text s.text run };

    ghost finding_text = { λ s d f line. scenario_finding s.text s.scenario f line };

    ghost end_text = { λ s d stale totals. [] };

    fn print_heading(
        &self,
        _page: &mut Page,
        _chart: &Chart,
        _heading: Heading,
    ) -> Result<(), AllocError> {
        Ok(())
    }

    fn run_line(
        &self,
        alloc: Global,
        _chart: &Chart,
        run: &[Event],
    ) -> Result<Vec<u8>, AllocError> {
        run_text(alloc, self.text, run)
    }

    fn print_finding(
        &self,
        page: &mut Page,
        _chart: &Chart,
        finding: Finding,
        line: Option<&[u8]>,
    ) -> Result<(), AllocError> {
        let note = self.scenario.where_note(self.alloc, finding)?;
        let notes = FindingNotes {
            is_next: self.scenario.is_next(finding),
            scenarios: lent_note(&note),
            line,
        };
        let text = finding_text(self.alloc, self.text, finding, notes)?;
        page.bytes.extend_from_slice(text.as_slice())
    }

    fn print_end(
        &self,
        _page: &mut Page,
        _chart: &Chart,
        _stale: &[Event],
        _totals: Option<Totals>,
    ) -> Result<(), AllocError> {
        Ok(())
    }
}
