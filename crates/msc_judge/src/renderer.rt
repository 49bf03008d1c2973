//! Renderers: they know texts, and not how an answer was found.

ghost use Rattle.std.specs.Prelude.{◌≡◌, ℕ, ◌<◌, ◌++◌, List, Option, IfOk, OnOk, length};
ghost use Rattle.std.specs.Prelude.{option_map};
ghost use Rattle.std.specs.List.{All};
ghost use Rattle.msc_chart.specs.Drawings.{Drawing};
ghost use Rattle.msc_judge.specs.Findings.{passes_in};
ghost use Rattle.msc_judge.specs.Renderings.{NamesEvents};
ghost use Rattle.msc_judge.specs.declared.renderer.Finding.{Finding};
ghost use Rattle.msc_judge.specs.declared.renderer.Heading.{Heading};
ghost use Rattle.msc_judge.specs.declared.renderer.Totals.{Totals};

use msc_chart::{Chart, Event, Queues};
use msc_print::Page;
use msc_reason::Cause;
use std::alloc::{AllocError, Global};

/// The numbers that precede the first finding.
#[derive(Clone, Copy)]
pub struct Heading {
    /// The architecture.
    pub queues: Queues,
    /// The number of races of the chart.
    pub races: u32,
    /// How many of them are of a kind that is left out, if kinds are left out.
    pub left_out: Option<u32>,
    /// How many of the others are accepted, if marks are used.
    pub accepted: Option<u32>,
    /// How many of them count.
    pub counting: u32,
    /// How many of those are closest, if only these are listed.
    pub closest: Option<u32>,
}

/// What a whole answer found, for the text that closes it.
#[derive(Clone, Copy)]
pub struct Totals {
    /// The numbers that precede the first finding.
    pub heading: Heading,
    /// At most this many findings are printed, the first ones.
    pub most: u32,
    /// The number of marks that accept no race.
    pub stale: usize,
    /// The number of races between two rounds, if these are included.
    pub between: Option<u32>,
}

impl Totals {
    /// Whether nothing counts: no race of one round, none between two, and each mark accepts a race.
    pub fn passes(self) -> bool
        ensures { result ≡ passes_in self }
    {
        let none_between = match self.between {
            Some(between) => between == 0,
            None => true,
        };
        none_between && self.heading.counting == 0 && self.stale == 0
    }
}

/// A race that is printed.
#[derive(Clone, Copy)]
pub struct Finding {
    /// The number of findings before it.
    pub number: u32,
    pub first: Event,
    pub second: Event,
    /// Its kind and what it lacks, if this is requested.
    pub cause: Option<Cause>,
}

/// What writes a heading, each finding in order, and an end. The only error is want of memory.
pub trait Renderer {
    /// It can write of this chart.
    ghost fits: { Self → Drawing → Type 0 };

    /// The text of a heading.
    ghost heading_text: { Self → Drawing → Heading → List ℕ };

    /// The text of a run, made once for all findings that the run shows.
    ghost run_text: { Self → Drawing → List ℕ → List ℕ };

    /// The text of a finding, with the text of the run that shows it, if one does.
    ghost finding_text: { Self → Drawing → Finding → Option (List ℕ) → List ℕ };

    /// The text after the last finding, with the events whose marks accept no race; and, if it
    /// closes the answer, with what the answer found.
    ghost end_text: { Self → Drawing → List ℕ → Option Totals → List ℕ };

    /// Appends a heading to a page.
    fn print_heading(
        &self,
        page: &mut Page,
        chart: &Chart,
        heading: Heading,
    ) -> Result<(), AllocError>
        requires { fits self.now chart.now }
        ensures { OnOk result (page.new.bytes.items
            ≡ page.old.bytes.items ++ heading_text self.now chart.now heading) };

    /// The text of a run.
    fn run_line(&self, alloc: Global, chart: &Chart, run: &[Event]) -> Result<Vec<u8>, AllocError>
        requires fits { fits self.now chart.now }
        requires events { All (λ e. e < length chart.now.events) run.now }
        ensures { IfOk result (λ line. line.items ≡ run_text self.now chart.now run.now) };

    /// Appends a finding to a page, with the text of a run if one is given.
    fn print_finding(
        &self,
        page: &mut Page,
        chart: &Chart,
        finding: Finding,
        line: Option<&[u8]>,
    ) -> Result<(), AllocError>
        requires fits { fits self.now chart.now }
        requires named { NamesEvents chart.now finding }
        ensures { OnOk result (page.new.bytes.items
            ≡ page.old.bytes.items ++ finding_text self.now chart.now finding
            (option_map (λ l. l.now) line.entry)) };

    /// Appends the end to a page, with the events whose marks accept no race; and, if it closes the
    /// answer, with what the answer found.
    fn print_end(
        &self,
        page: &mut Page,
        chart: &Chart,
        stale: &[Event],
        totals: Option<Totals>,
    ) -> Result<(), AllocError>
        requires fits { fits self.now chart.now }
        requires events { All (λ e. e < length chart.now.events) stale.now }
        ensures { OnOk result (page.new.bytes.items
            ≡ page.old.bytes.items ++ end_text self.now chart.now stale.now totals) };
}
