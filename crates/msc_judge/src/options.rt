//! The options of a check that select races and what is printed of them.

ghost use Rattle.std.specs.Prelude.{◌≡◌};
ghost use Rattle.msc_judge.specs.Options.{counted, for_editors, for_people};

use msc_reason::KindSet;

/// The options of a check that select races and what is printed of them.
#[derive(Clone, Copy, Debug, PartialEq, Eq)]
pub struct CheckOptions {
    /// Whether only the closest of the races that count are listed.
    pub closest: bool,
    /// Whether each race is printed with its kind and what it lacks.
    pub why: bool,
    /// The kinds of races that do not count, and are not listed.
    pub allowed: KindSet,
    /// At most this many races are printed, the first ones.
    pub most: u32,
    /// This many of the printed races are shown by a run, the first ones.
    pub show: u32,
    /// Whether a race is shown by the short witness of both events, instead of the witness of the
    /// first.
    pub short: bool,
}

impl CheckOptions {
    /// The options of a count if these kinds are left out: the closest races are counted too, and
    /// no race is printed.
    pub fn counted(allowed: KindSet) -> CheckOptions
        ensures { result ≡ counted allowed }
    {
        CheckOptions {
            closest: true,
            why: false,
            allowed,
            most: 0,
            show: 0,
            short: false,
        }
    }

    /// The options of lines for editors: each race has its kind, and no run.
    pub fn for_editors(self) -> CheckOptions
        ensures { result ≡ for_editors self }
    {
        CheckOptions {
            closest: self.closest,
            why: true,
            allowed: self.allowed,
            most: self.most,
            show: 0,
            short: false,
        }
    }

    /// The options of findings as people read them: only the closest races are printed, each with
    /// its kind and what it lacks, and the runs that show them are short.
    pub fn for_people(self) -> CheckOptions
        ensures { result ≡ for_people self }
    {
        CheckOptions {
            closest: true,
            why: true,
            allowed: self.allowed,
            most: self.most,
            show: self.show,
            short: true,
        }
    }
}
