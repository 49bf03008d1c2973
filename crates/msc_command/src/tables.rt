//! The words of each command, in the order of the help: the options, group by group, and then the
//! arguments.

ghost use Rattle.std.specs.Prelude.{◌≡◌};
ghost use Rattle.msc_command.specs.Words.{args_of};

use crate::words::{ArgName, CommandName};

/// The words of `read` and `list`.
const READ: [ArgName; 10] = [
    ArgName::Places,
    ArgName::Plain,
    ArgName::ScenarioFrom,
    ArgName::Choose,
    ArgName::Fence,
    ArgName::Name,
    ArgName::Own,
    ArgName::Cross,
    ArgName::Par,
    ArgName::File,
];

/// The words of `check`.
const CHECK: [ArgName; 28] = [
    ArgName::ChartFormat,
    ArgName::Color,
    ArgName::Quiet,
    ArgName::Words,
    ArgName::Short,
    ArgName::Places,
    ArgName::Plain,
    ArgName::Queues,
    ArgName::Pair,
    ArgName::Mailbox,
    ArgName::Single,
    ArgName::Closest,
    ArgName::Why,
    ArgName::Most,
    ArgName::Show,
    ArgName::Allow,
    ArgName::Accept,
    ArgName::Again,
    ArgName::ScenariosFrom,
    ArgName::Choose,
    ArgName::Rounds,
    ArgName::Limit,
    ArgName::Fence,
    ArgName::Name,
    ArgName::Own,
    ArgName::Cross,
    ArgName::Par,
    ArgName::File,
];

/// The words of `scan`.
const SCAN: [ArgName; 28] = [
    ArgName::ScanFormat,
    ArgName::Color,
    ArgName::ScanQuiet,
    ArgName::Words,
    ArgName::Short,
    ArgName::Places,
    ArgName::Plain,
    ArgName::Skip,
    ArgName::OnlyRaces,
    ArgName::Jobs,
    ArgName::ScanQueues,
    ArgName::Pair,
    ArgName::Mailbox,
    ArgName::Single,
    ArgName::Closest,
    ArgName::Why,
    ArgName::Most,
    ArgName::Show,
    ArgName::Allow,
    ArgName::ScanAccept,
    ArgName::NoAccept,
    ArgName::Again,
    ArgName::Rounds,
    ArgName::Limit,
    ArgName::Own,
    ArgName::Cross,
    ArgName::Par,
    ArgName::Paths,
];

/// The words of `explain`.
const EXPLAIN: [ArgName; 18] = [
    ArgName::Words,
    ArgName::Short,
    ArgName::Places,
    ArgName::Plain,
    ArgName::Queues,
    ArgName::Pair,
    ArgName::Mailbox,
    ArgName::Single,
    ArgName::ScenarioFrom,
    ArgName::Choose,
    ArgName::Fence,
    ArgName::Name,
    ArgName::Own,
    ArgName::Cross,
    ArgName::Par,
    ArgName::File,
    ArgName::FirstEvent,
    ArgName::SecondEvent,
];

/// The words of `follow`.
const FOLLOW: [ArgName; 15] = [
    ArgName::Words,
    ArgName::Places,
    ArgName::Plain,
    ArgName::Queues,
    ArgName::Pair,
    ArgName::Mailbox,
    ArgName::Single,
    ArgName::ScenarioFrom,
    ArgName::Choose,
    ArgName::Fence,
    ArgName::Name,
    ArgName::Own,
    ArgName::Cross,
    ArgName::Par,
    ArgName::File,
];

/// The words of `run`.
const RUN: [ArgName; 15] = [
    ArgName::Places,
    ArgName::Plain,
    ArgName::Queues,
    ArgName::Pair,
    ArgName::Mailbox,
    ArgName::Single,
    ArgName::Patience,
    ArgName::ScenarioFrom,
    ArgName::Choose,
    ArgName::Fence,
    ArgName::Name,
    ArgName::Own,
    ArgName::Cross,
    ArgName::Par,
    ArgName::File,
];

/// The words of `draw`.
const DRAW: [ArgName; 15] = [
    ArgName::Svg,
    ArgName::Places,
    ArgName::Plain,
    ArgName::QueuesIfAny,
    ArgName::Pair,
    ArgName::Mailbox,
    ArgName::Single,
    ArgName::ScenarioFrom,
    ArgName::Choose,
    ArgName::Fence,
    ArgName::Name,
    ArgName::Own,
    ArgName::Cross,
    ArgName::Par,
    ArgName::File,
];

/// The words of `reverse`.
const REVERSE: [ArgName; 17] = [
    ArgName::Svg,
    ArgName::Places,
    ArgName::Plain,
    ArgName::Queues,
    ArgName::Pair,
    ArgName::Mailbox,
    ArgName::Single,
    ArgName::ScenarioFrom,
    ArgName::Choose,
    ArgName::Fence,
    ArgName::Name,
    ArgName::Own,
    ArgName::Cross,
    ArgName::Par,
    ArgName::File,
    ArgName::FirstEvent,
    ArgName::SecondEvent,
];

/// The words of `report`.
const REPORT: [ArgName; 14] = [
    ArgName::Places,
    ArgName::Plain,
    ArgName::Queues,
    ArgName::Pair,
    ArgName::Mailbox,
    ArgName::Single,
    ArgName::ScenarioFrom,
    ArgName::Choose,
    ArgName::Fence,
    ArgName::Name,
    ArgName::Own,
    ArgName::Cross,
    ArgName::Par,
    ArgName::File,
];

/// The words of `ready`.
const READY: [ArgName; 20] = [
    ArgName::FormatSticks,
    ArgName::Color,
    ArgName::Words,
    ArgName::Places,
    ArgName::Plain,
    ArgName::Queues,
    ArgName::Pair,
    ArgName::Mailbox,
    ArgName::Single,
    ArgName::Only,
    ArgName::ShowSticks,
    ArgName::AgainSticks,
    ArgName::ScenarioFrom,
    ArgName::Choose,
    ArgName::Fence,
    ArgName::Name,
    ArgName::Own,
    ArgName::Cross,
    ArgName::Par,
    ArgName::File,
];

/// The words of `import`.
const IMPORT: [ArgName; 11] = [
    ArgName::Listed,
    ArgName::Places,
    ArgName::Plain,
    ArgName::From,
    ArgName::Choose,
    ArgName::Fence,
    ArgName::Name,
    ArgName::Own,
    ArgName::Cross,
    ArgName::Par,
    ArgName::File,
];

/// The words of `completions`.
const COMPLETIONS: [ArgName; 1] = [ArgName::Shell];

impl CommandName {
    /// Its words, in the order of the help.
    pub fn words(self) -> &'static [ArgName]
        ensures { result.now ≡ args_of self }
    {
        match self {
            CommandName::Read | CommandName::List => &READ,
            CommandName::Check => &CHECK,
            CommandName::Scan => &SCAN,
            CommandName::Explain => &EXPLAIN,
            CommandName::Follow => &FOLLOW,
            CommandName::Run => &RUN,
            CommandName::Draw => &DRAW,
            CommandName::Reverse => &REVERSE,
            CommandName::Report => &REPORT,
            CommandName::Ready => &READY,
            CommandName::Import => &IMPORT,
            CommandName::Completions => &COMPLETIONS,
        }
    }
}
