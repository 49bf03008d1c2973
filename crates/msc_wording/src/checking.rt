//! What a check found, in words.

ghost use Rattle.std.specs.Prelude.{◌++◌, ◌≡◌, IfOk, None, OnOk, Some};
ghost use Rattle.std.specs.String.{string_bytes};
ghost use Rattle.msc_wording.specs.Checking.{accepted_part, check_verdict, distinct_text};
ghost use Rattle.msc_wording.specs.Checking.{found_text, free_part, further_parts, in_rounds};
ghost use Rattle.msc_wording.specs.Checking.{left_out_part, rounds_text, shown_part, stale_part};
ghost use Rattle.msc_wording.specs.Checking.{unlisted_parts, wider_part};
ghost use Rattle.msc_wording.specs.Numbers.{number_or_none, plural};

use crate::number::{counted, number_or_none, plural, print_part};
use std::alloc::{AllocError, Global};

/// The races that a check found.
#[derive(Clone, Copy)]
pub enum RacesFound {
    /// So many closest races that count.
    InOneScenario(usize),
    /// So many in a round, and so many between two rounds.
    InRounds {
        within: usize,
        between: usize,
    },
    /// So many places of such races in several scenarios, of which so many have no race that
    /// counts.
    InScenarios {
        races: usize,
        scenarios: usize,
        free: usize,
    },
}

/// What a check found.
#[derive(Clone, Copy)]
pub struct SpokenCheck {
    pub found: RacesFound,
    /// Races across the closest ones.
    pub wider: usize,
    /// Races of kinds that are allowed.
    pub left_out: usize,
    /// Races that are accepted.
    pub accepted: usize,
    /// Marks that accept no race.
    pub stale: usize,
    /// How many findings are shown, if that is not all of them.
    pub shown: Option<usize>,
    /// Whether the chart has a run.
    pub can_happen: bool,
}

/// The distinct races of several scenarios.
#[tactic(auto, unfolding(crate::specs::Checking::distinct_text))]
fn distinct(alloc: Global, races: usize, scenarios: usize) -> Result<String, AllocError>
    ensures { IfOk result (λ text. string_bytes text ≡ distinct_text races scenarios) }
{
    if races == 0 {
        format!(in alloc; "no races in {scenarios} scenarios")
    } else {
        counted(alloc, races, "distinct race", "distinct races")
    }
}

/// The findings in a round, and between two rounds.
#[tactic(auto, unfolding(crate::specs::Checking::in_rounds))]
pub(crate) fn in_rounds(alloc: Global, within: &str, between: &str) -> Result<String, AllocError>
    ensures { IfOk result (λ text. string_bytes text ≡ in_rounds within.now between.now) }
{
    format!(in alloc; "{within} in a round, {between} between rounds")
}

/// The races in a round, and between two rounds.
fn rounds(alloc: Global, within: usize, between: usize) -> Result<String, AllocError>
    ensures { IfOk result (λ text. string_bytes text ≡ rounds_text within between) }
{
    let within = counted(alloc, within, "race", "races")?;
    let between = number_or_none(alloc, between)?;
    in_rounds(alloc, within.as_str(), between.as_str())
}

impl RacesFound {
    /// The number of races.
    #[tactic(auto, unfolding(crate::specs::Checking::found_text))]
    fn text(self, alloc: Global) -> Result<String, AllocError>
        ensures { IfOk result (λ text. string_bytes text ≡ found_text self) }
    {
        match self {
            RacesFound::InOneScenario(races) => counted(alloc, races, "race", "races"),
            RacesFound::InRounds { within, between } => rounds(alloc, within, between),
            RacesFound::InScenarios {
                races,
                scenarios,
                ..
            } => distinct(alloc, races, scenarios),
        }
    }

    /// Appends how many scenarios are free of races, if others are not.
    #[tactic(auto, unfolding(crate::specs::Checking::free_part))]
    fn print_free(self, text: &mut String) -> Result<(), AllocError>
        ensures { OnOk result (string_bytes text.new ≡ string_bytes text.old ++ free_part self) }
    {
        match self {
            RacesFound::InScenarios {
                races,
                scenarios,
                free,
            } if races > 0 => {
                let are = plural(free, "is", "are");
                write!(
                    text,
                    "; {free} of {scenarios} scenarios {are} free of races"
                )
            }
            _ => Ok(()),
        }
    }
}

/// Appends how many findings are shown, if that is not all.
#[tactic(auto, unfolding(crate::specs::Checking::shown_part))]
fn print_shown(text: &mut String, shown: Option<usize>) -> Result<(), AllocError>
    ensures { OnOk result (string_bytes text.new ≡ string_bytes text.old ++ shown_part shown) }
{
    match shown {
        Some(shown) => write!(text, ", {shown} shown"),
        None => Ok(()),
    }
}

impl SpokenCheck {
    /// Appends the number of races across the closest ones.
    #[tactic(auto, unfolding(crate::specs::Checking::wider_part))]
    fn print_wider(&self, text: &mut String) -> Result<(), AllocError>
        ensures { OnOk result
            (string_bytes text.new ≡ string_bytes text.old ++ wider_part self.now.wider) }
    {
        let ones = plural(
            self.wider,
            "wider one, across these, not shown",
            "wider ones, across these, not shown",
        );
        print_part(text, self.wider, ones)
    }

    /// Appends the number of races of kinds that are allowed.
    #[tactic(auto, unfolding(crate::specs::Checking::left_out_part))]
    fn print_left_out(&self, text: &mut String) -> Result<(), AllocError>
        ensures { OnOk result
            (string_bytes text.new ≡ string_bytes text.old ++ left_out_part self.now.left_out) }
    {
        print_part(text, self.left_out, "left out by --allow")
    }

    /// Appends the number of races that are accepted.
    #[tactic(auto, unfolding(crate::specs::Checking::accepted_part))]
    fn print_accepted(&self, text: &mut String) -> Result<(), AllocError>
        ensures { OnOk result
            (string_bytes text.new ≡ string_bytes text.old ++ accepted_part self.now.accepted) }
    {
        print_part(text, self.accepted, "accepted")
    }

    /// Appends the number of stale marks.
    #[tactic(auto, unfolding(crate::specs::Checking::stale_part))]
    fn print_stale(&self, text: &mut String) -> Result<(), AllocError>
        ensures { OnOk result
            (string_bytes text.new ≡ string_bytes text.old ++ stale_part self.now.stale) }
    {
        let marks = plural(self.stale, "stale mark", "stale marks");
        print_part(text, self.stale, marks)
    }

    /// Appends the numbers of races that are not listed.
    #[tactic(auto, unfolding(crate::specs::Checking::unlisted_parts))]
    fn print_unlisted(&self, text: &mut String) -> Result<(), AllocError>
        ensures { OnOk result
            (string_bytes text.new ≡ string_bytes text.old ++ unlisted_parts self.now) }
    {
        self.print_wider(text)?;
        self.print_left_out(text)?;
        self.print_accepted(text)
    }

    /// Appends what else a check found.
    #[tactic(auto, unfolding(crate::specs::Checking::further_parts))]
    fn print_further(&self, text: &mut String) -> Result<(), AllocError>
        ensures { OnOk result
            (string_bytes text.new ≡ string_bytes text.old ++ further_parts self.now) }
    {
        self.print_unlisted(text)?;
        self.print_stale(text)?;
        print_shown(text, self.shown)
    }

    /// What a check found, without the queues. The only error is want of memory.
    pub fn verdict(&self, alloc: Global) -> Result<String, AllocError>
        ensures { IfOk result (λ text. string_bytes text ≡ check_verdict self.now) }
    {
        let mut text = self.found.text(alloc)?;
        self.print_further(&mut text)?;
        self.found.print_free(&mut text)?;
        if !self.can_happen {
            text.push_str("; it can never happen as it is drawn")?;
        }
        Ok(text)
    }
}
