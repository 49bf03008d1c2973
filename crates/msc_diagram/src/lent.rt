//! A scenario that a source lends, or makes anew.

ghost use Rattle.std.specs.Prelude.{◌≡◌};

use crate::scenario::Scenario;
use std::marker::Model;

/// Who owns a scenario.
#[derive(Drop)]
enum Held<'s> {
    /// Its source.
    Kept(&'s Scenario<'s>),
    /// Its user.
    Made(Scenario<'s>),
}

/// A scenario that its source keeps, or that was made when it was taken. Contracts see the scenario.
#[derive(Drop)]
pub struct Lent<'s> {
    held: Held<'s>,
}

impl<'s> Model for Lent<'s> {
    ghost use Rattle.msc_diagram.specs.Lent.{scenario_in};
    ghost use Rattle.msc_diagram.specs.declared.scenario.Scenario.{Scenario};

    ghost Value = { Scenario };

    ghost view = { λ x. scenario_in x.held };
}

impl<'s> Lent<'s> {
    /// A scenario that its source keeps. It takes no memory.
    pub fn kept(scenario: &'s Scenario<'s>) -> Lent<'s>
        ensures { result ≡ scenario.entry.now }
    {
        Lent {
            held: Held::Kept(scenario),
        }
    }

    /// A scenario that was made. It takes no memory.
    pub fn made(scenario: Scenario<'s>) -> Lent<'s>
        ensures { result ≡ scenario.entry }
    {
        Lent {
            held: Held::Made(scenario),
        }
    }

    /// The scenario. It takes no memory.
    pub fn get(&self) -> &Scenario<'s>
        ensures { result.now ≡ self.now }
    {
        match &self.held {
            Held::Kept(scenario) => scenario,
            Held::Made(scenario) => scenario,
        }
    }
}
