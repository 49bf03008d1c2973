//! A check of the races of a diagram's scenarios.

ghost use Rattle.std.specs.Prelude.{◌≡◌};
ghost use Rattle.msc_diagram.specs.Checks.{with_options};
ghost use Rattle.msc_diagram.specs.Counts.{chooses, names};

use msc_arrow_marks::AcceptedArrows;
use msc_chart::Queues;
use msc_judge::CheckOptions;

/// The marks of a diagram that are used in a check of its scenarios.
#[derive(Clone, Copy)]
pub struct UsedMarks<'m> {
    pub accepted: &'m AcceptedArrows<'m>,
    /// The name of the file.
    pub file: &'m str,
    /// Whether the check is of only one scenario. A mark of an arrow that this scenario does not meet
    /// is not stale then: it may accept races of other scenarios.
    pub chosen: bool,
}

/// A check of the races of scenarios: the architecture, the options, and the marks, if races that
/// they accept do not count.
#[derive(Clone, Copy)]
pub struct ScenarioCheck<'m> {
    pub queues: Queues,
    pub options: CheckOptions,
    pub marks: Option<UsedMarks<'m>>,
}

impl<'m> ScenarioCheck<'m> {
    /// The same check with other options.
    pub(crate) fn with_options(self, options: CheckOptions) -> ScenarioCheck<'m>
        ensures { result ≡ with_options self.entry options }
    {
        ScenarioCheck {
            queues: self.queues,
            options,
            marks: self.marks,
        }
    }

    /// Whether some races may not count.
    pub(crate) fn names(self) -> bool
        ensures { result ≡ names self.entry }
    {
        !self.options.allowed.is_empty() || self.marks.is_some()
    }

    /// Whether options or marks choose among the races.
    pub(crate) fn chooses(self) -> bool
        ensures { result ≡ chooses self.entry }
    {
        self.options.closest || self.names()
    }
}
