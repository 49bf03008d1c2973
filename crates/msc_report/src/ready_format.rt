//! The format of an answer on ready instances.

ghost use Rattle.std.specs.Prelude.{◌≡◌};
ghost use Rattle.msc_report.specs.ReadyFormats.{left_comes_last, runs_shown};

use crate::style::Style;
use msc_place::EventPositions;

/// The format of an answer on ready instances.
#[derive(Clone, Copy)]
pub enum ReadyFormat<'f> {
    /// A head, and the lines of each stick and of each race that is left, in a style.
    Lines(Style<'f>),
    /// One line for the file of this name, with the number of sticks, and of those that are first.
    Count(&'f [u8]),
    /// Lines for editors: each stick and each race that is left, with the places of the events in
    /// the text.
    Editor(&'f EventPositions<'f>),
}

impl ReadyFormat<'_> {
    /// The number of first sticks with a run, if `show` are requested: only lines of text have
    /// runs.
    pub fn runs_shown(self, show: u32) -> u32
        ensures { result ≡ runs_shown self.entry show }
    {
        match self {
            ReadyFormat::Lines(_) => show,
            ReadyFormat::Count(_) => 0,
            ReadyFormat::Editor(_) => 0,
        }
    }

    /// Whether the races that are left follow the sticks between two rounds, and do not precede
    /// them.
    pub fn left_comes_last(self) -> bool
        ensures { result ≡ left_comes_last self.entry }
    {
        match self {
            ReadyFormat::Lines(_) => false,
            ReadyFormat::Count(_) => false,
            ReadyFormat::Editor(_) => true,
        }
    }
}
