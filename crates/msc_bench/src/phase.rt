//! The phases that are measured.

use msc_chart::Queues;

/// A step that starts from a chart.
#[derive(Clone, Copy)]
pub enum Step {
    /// The visual order of the chart.
    Visual,
    /// The enforced order under an architecture.
    Enforced(Queues),
    /// From the enforced order to the list of races.
    Races(Queues),
}

/// A phase of the path from a text to the races of its chart.
#[derive(Clone, Copy)]
pub enum Phase {
    /// From the text to its draft.
    Parse,
    /// From the draft to its chart.
    Build,
    /// From the chart on.
    FromChart(Step),
}

/// The phase of this name.
pub fn phase_of(word: &str) -> Option<Phase> {
    match word {
        "parse" => Some(Phase::Parse),
        "build" => Some(Phase::Build),
        "visual" => Some(Phase::FromChart(Step::Visual)),
        "enforced-pair" => Some(Phase::FromChart(Step::Enforced(Queues::PAIR))),
        "enforced-mailbox" => Some(Phase::FromChart(Step::Enforced(Queues::MAILBOX))),
        "races-pair" => Some(Phase::FromChart(Step::Races(Queues::PAIR))),
        "races-mailbox" => Some(Phase::FromChart(Step::Races(Queues::MAILBOX))),
        _ => None,
    }
}
