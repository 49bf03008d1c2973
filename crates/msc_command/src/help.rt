//! The texts of the help: the group and the sentence of each word, and the sentence and the notes of
//! each command. No clause is about them; transcripts compare them.

use crate::words::{ArgName, CommandName};

const FROM_HELP: &str = "Read a sequence diagram in this language; any recognizes the language";

const FORMAT_HELP: &str =
    "Print text for scripts (default), count on one line, lines for editors, full for people";

const QUEUES_HELP: &str =
    "A queue for each sender and receiver, each receiver, or each message; or as the text says";

const SCAN_FORMAT_HELP: &str =
    "Print full for people (default), text for scripts, count on one line each, lines for editors";

const SCAN_QUEUES_HELP: &str =
    "Check under the queues of each text (own, the default) or under these; may be repeated";

const SKIP_HELP: &str =
    "Pass over files and folders that are called NAME, alone or as a whole path; may be repeated";

const PAIR_HELP: &str =
    "Give each link of LINK, NAME or 'NAME>NAME', a queue of its own; may be repeated";

const MAILBOX_HELP: &str =
    "Put the messages of LINK into the mailbox of the receiver; may be repeated";

const WHY_HELP: &str =
    "Print the kind of each race, and the pair of events that would have to be enforced";

const ACCEPT_HELP: &str =
    "Leave out the races that marks of the text accept, and print the marks that accept none";

const ALLOW_HELP: &str =
    "Leave out the races of this kind, in the list and in the exit status; may be repeated";

const SHOW_STICKS_HELP: &str =
    "Print a run for N sticks only: the first of those that no other stick precedes";

const PATIENCE_HELP: &str =
    "End an instance that looked for a message N times in a row in vain; without it, 1000000000";

const CHOOSE_HELP: &str =
    "The scenario to take: main, or its choices, block by block, numbers with commas between";

const PAR_HELP: &str =
    "Draw parallel branches that are no coregion one below the other; without it, refuse them";

impl ArgName {
    /// The heading of its group. An argument has none, and neither has an option that `clap` lists
    /// together with `--help`.
    pub fn heading(self) -> Option<&'static str> {
        match self {
            ArgName::File | ArgName::FirstEvent | ArgName::SecondEvent | ArgName::Shell => None,
            ArgName::Paths | ArgName::ScanFormat | ArgName::ScanQuiet => None,
            ArgName::ChartFormat | ArgName::FormatSticks | ArgName::Color | ArgName::Quiet => None,
            ArgName::Words | ArgName::Short | ArgName::Places | ArgName::Plain => None,
            ArgName::Svg | ArgName::Listed => None,
            ArgName::Skip | ArgName::OnlyRaces | ArgName::Jobs => Some("Files"),
            ArgName::Queues | ArgName::QueuesIfAny | ArgName::ScanQueues => Some("Queues"),
            ArgName::Pair | ArgName::Mailbox | ArgName::Single => Some("Queues"),
            ArgName::Closest | ArgName::Why | ArgName::Most | ArgName::Show => Some("Races"),
            ArgName::Allow | ArgName::Accept | ArgName::Again => Some("Races"),
            ArgName::ScanAccept | ArgName::NoAccept => Some("Races"),
            ArgName::Only | ArgName::ShowSticks | ArgName::AgainSticks => Some("Sticks"),
            ArgName::Patience => Some("Runs"),
            ArgName::From | ArgName::ScenarioFrom | ArgName::ScenariosFrom => Some("Diagrams"),
            ArgName::Choose | ArgName::Rounds | ArgName::Limit => Some("Diagrams"),
            ArgName::Fence | ArgName::Name => Some("Diagrams"),
            ArgName::Own | ArgName::Cross | ArgName::Par => Some("Diagrams"),
        }
    }

    /// The help's sentence on it.
    pub fn help(self) -> &'static str {
        match self {
            ArgName::File => "The text to read; - is standard input",
            ArgName::Paths => "The files and folders to check; - is standard input",
            ArgName::FirstEvent =>
                "The first event: its number, or :LINE for the first one on that line",
            ArgName::SecondEvent => "The second event",
            ArgName::Shell => "The shell",
            ArgName::ChartFormat | ArgName::FormatSticks => FORMAT_HELP,
            ArgName::ScanFormat => SCAN_FORMAT_HELP,
            ArgName::Color => {
                "Whether --format full prints colours; with auto, the default, it does on a terminal"
            }
            ArgName::Quiet => "Print nothing; the exit status is the answer",
            ArgName::ScanQuiet => {
                "Print only the last line in the formats full and text, and nothing in the others"
            }
            ArgName::Words => "Print a run in words, a line for each of its events",
            ArgName::Short => "Print a short run, which ends with the second event",
            ArgName::Places => "Print the places of events, and notes after a fault",
            ArgName::Plain => "Print no notes after a fault, also on a terminal",
            ArgName::Svg => "Print SVG instead of text",
            ArgName::Listed => {
                "Print the events of the chart with their numbers, and the places of their arrows"
            }
            ArgName::Queues => QUEUES_HELP,
            ArgName::ScanQueues => SCAN_QUEUES_HELP,
            ArgName::QueuesIfAny => {
                "Mark the closest races under these queues; `msc check --help` describes them"
            }
            ArgName::Pair => PAIR_HELP,
            ArgName::Mailbox => MAILBOX_HELP,
            ArgName::Single => "Give each message of LINK a queue of its own; may be repeated",
            ArgName::Closest => "List only the closest races, and print how many there are",
            ArgName::Why => WHY_HELP,
            ArgName::Most => "List only the first N races",
            ArgName::Show => "Print a run for the first N races only",
            ArgName::Allow => ALLOW_HELP,
            ArgName::Accept => ACCEPT_HELP,
            ArgName::ScanAccept => "Leave out the races that marks of the text accept, the default",
            ArgName::NoAccept => "Count also the races that marks accept",
            ArgName::Again => "Let the chart repeat, and print also the races between two rounds",
            ArgName::Only => "Let only the instances that are named be ready; may be repeated",
            ArgName::ShowSticks => SHOW_STICKS_HELP,
            ArgName::AgainSticks =>
                "Let the chart repeat, and print also the sticks between two rounds",
            ArgName::Patience => PATIENCE_HELP,
            ArgName::From => "The language of the diagram; any, the default, recognizes it",
            ArgName::ScenarioFrom => FROM_HELP,
            ArgName::ScenariosFrom => {
                "Check all scenarios of a sequence diagram in this language; any recognizes the language"
            }
            ArgName::Choose => CHOOSE_HELP,
            ArgName::Rounds => {
                "How many rounds a loop goes, numbers from 0 to 1024; without it, 0,2"
            }
            ArgName::Limit => {
                "Refuse a diagram with more than N scenarios, 1 to 4096; without it, 64"
            }
            ArgName::Fence => {
                "Take the N-th marked block of a Markdown file; flow charts count, too"
            }
            ArgName::Skip => SKIP_HELP,
            ArgName::OnlyRaces => "Leave out what passes; full does so without it, too",
            ArgName::Jobs => {
                "Check N files at a time, 1 to 64; without it, as many as there are processors"
            }
            ArgName::Name => "The name of the chart; without it, that of the file",
            ArgName::Own => "What an arrow to oneself is; without it, an action",
            ArgName::Cross => "What an arrow with a cross is; without it, each one is a choice",
            ArgName::Par => PAR_HELP,
        }
    }
}

impl CommandName {
    /// The help's sentence on it.
    pub fn about(self) -> &'static str {
        match self {
            CommandName::Read => "Print the chart's canonical text",
            CommandName::Check =>
                "Print whether the chart has races, and for each a run that shows it",
            CommandName::Scan => "Print the races of all charts and diagrams in files and folders",
            CommandName::Explain => {
                "Print why an event comes before another, or a run in which it does not"
            }
            CommandName::Follow => "Print a run that keeps the drawing, or why no run does",
            CommandName::Run => {
                "Run the chart on threads, and print how each instance ended and the trace"
            }
            CommandName::List => "Print the chart's events with their numbers",
            CommandName::Draw => "Print the chart as a picture, in text or in SVG",
            CommandName::Reverse => "Print a picture of a run that reverses a race",
            CommandName::Report =>
                "Print a page in HTML: the chart, its closest races, and runs that show them",
            CommandName::Ready => {
                "Print whether instances that wait for one message can stick, and how"
            }
            CommandName::Import => "Print the chart of a sequence diagram of Mermaid",
            CommandName::Completions => "Print the completions of a shell",
        }
    }

    /// The text below its help.
    pub fn notes(self) -> &'static str {
        match self {
            CommandName::Read => READ_NOTES,
            CommandName::Check => CHECK_NOTES,
            CommandName::Scan => SCAN_NOTES,
            CommandName::Explain => EXPLAIN_NOTES,
            CommandName::Follow => FOLLOW_NOTES,
            CommandName::Run => RUN_NOTES,
            CommandName::List => LIST_NOTES,
            CommandName::Draw => DRAW_NOTES,
            CommandName::Reverse => REVERSE_NOTES,
            CommandName::Report => REPORT_NOTES,
            CommandName::Ready => READY_NOTES,
            CommandName::Import => IMPORT_NOTES,
            CommandName::Completions => COMPLETIONS_NOTES,
        }
    }
}

/// The text below the help of all commands.
pub(crate) const NOTES: &str = "\
Exit status:
  0  the answer was written; `check` and `scan` found no races that count, `explain` that E is
     enforced before F, `follow` a run that keeps the drawing, `run` that all instances finish,
     `ready` that the system does
  1  `check` or `scan` found races that count, `explain` that E is not enforced before F,
     `follow` that no run keeps the drawing, or `ready` a system that may stick, or races that
     are left
  2  the text, the pair, a name or the command line was refused
  3  some instance of `run` has not finished
  4  memory ran out, a thread could not be started, or a file or the output failed

Examples:
  msc scan docs
  msc check --queues pair --places relay.msc
  msc explain --queues mailbox relay.msc 2 3
  msc run --queues mailbox relay.msc";

/// The text below the help of `msc read`.
const READ_NOTES: &str = "\
Exit status:
  0  the canonical text was written
  2  the text or the command line was refused
  4  memory ran out, or a file or the output failed

Example:
  msc read relay.msc";

/// The text below the help of `msc check`.
const CHECK_NOTES: &str = "\
A race is closest if no other race that counts lies within it; every race that counts spans a closest
one. Without --allow, nothing is drawn between the two events of a closest race.

Kinds of races:
  early      the input can come before the output or action that is drawn above it
  queues     two inputs by two queues
  unordered  two inputs by one queue, and nothing orders their outputs
  overtaken  two inputs by one queue, whose outputs come in the other order

Without --show, each race has a run. With --from, it has one only if --words or --short is given, and
with --format full, none has one.

A mark is a comment of an event that says which of its races are meant, and why:
  comment 'race ok: REASON'
  comment 'race ok in pair, single with ID; ID: REASON'
Without `in`, it is for all architectures; without `with`, for all other events. In a diagram, it is
a comment line above an arrow; an ID is the label of the other arrow in quotes, or its number:
  %% race ok: REASON
  %% race ok in pair, single with \"LABEL\"; 5: REASON

With --again, the chart is a round of a protocol that repeats: each instance begins its next round
when its own line is done, and waits for no other instance. The races between a round and the next
are printed last, each by the number of its event in the one and of its event in the next.

With --from, the text is a sequence diagram of Mermaid, and `check` checks all of its scenarios: each
way through its alternatives, with loops that go 0 and 2 rounds. It prints each race once, with the
places of its arrows. With --choose, it checks only one scenario.

Exit status:
  0  the chart has no races that count, with --accept no mark that accepts none, and with --again
     none between rounds
  1  the chart has races that count, or such a mark, or such races between rounds
  2  the text or the command line was refused
  4  memory ran out, or a file or the output failed

Examples:
  msc check --queues pair --show 1 relay.msc
  msc check --queues mailbox --closest --why --allow early relay.msc
  msc check --queues pair --from mermaid checkout.mmd";

/// The text below the help of `msc scan`.
const SCAN_NOTES: &str = "\
A folder stands for the files below it whose names end in .msc (charts), .mmd or .mermaid
(diagrams), .md or .markdown (each sequence diagram of the page). Names that begin with a dot, and
folders called node_modules or target, are passed over. A file with another ending is read by its
content.

A comment names the queues of a text: of a diagram one at its top, of a chart one behind its name.
Links may have other queues, as in `msc check --pair`:
  %% queues mailbox
  %% queues pair; mailbox Worker; single DB>Worker
  msc relay comment 'queues mailbox';
Without such a comment, a text is checked as `pair`, a connection for each sender and receiver. With
--queues all, it is checked as `pair`, `mailbox` and `single`.

Marks accept races, as in `msc check --accept`. Options like --most are for each diagram by itself.
Diagrams ignore --again.

Exit status:
  0  no text has races that count, or a mark that accepts none
  1  some text has races that count, or such a mark, and none was refused
  2  some text was refused and nothing failed, or the command line was refused
  4  a path could not be read or has nothing to check, memory ran out, or the output failed

Examples:
  msc scan .
  msc scan --queues all --format count docs README.md
  msc scan --skip vendor --only-races --format lines src";

/// The text below the help of `msc explain`.
const EXPLAIN_NOTES: &str = "\
Events are numbered from 0, over all lines. The lines of a chain:
  drawn X Y  Y is an output or an action that is drawn below X
  sent X Y   Y is the input of X
  queue X Y  two inputs of one queue; the indented lines below it order their outputs

Exit status:
  0  E is enforced before F, and why was written
  1  E is not enforced before F, and a run that has F before E was written
  2  the text, the pair or the command line was refused
  4  memory ran out, or a file or the output failed

Example:
  msc explain --queues mailbox relay.msc 2 3";

/// The text below the help of `msc follow`.
const FOLLOW_NOTES: &str = "\
`check` prints what else can happen; `follow` prints whether the drawing itself can:

  follows  some run keeps the drawing, and one is printed
  never    no run does: each of these steps forces an event before the next, in a ring

Events are numbered from 0, over all lines. The lines of a ring:
  sent X Y   Y is the input of X
  drawn X Y  Y is drawn below X
  ahead X Y  two outputs of one queue: the input of X is drawn above that of Y

Exit status:
  0  some run keeps the drawing
  1  no run keeps the drawing
  2  the text or the command line was refused
  4  memory ran out, or a file or the output failed

Example:
  msc follow --queues pair --places relay.msc";

/// The text below the help of `msc run`.
const RUN_NOTES: &str = "\
Exit status:
  0  all instances have finished
  2  the text or the command line was refused
  3  some instance has not finished; how each ended was written, and the trace
  4  memory ran out, a thread could not be started, or a file or the output failed

Example:
  msc run --queues mailbox relay.msc";

/// The text below the help of `msc list`.
const LIST_NOTES: &str = "\
Exit status:
  0  the events were written
  2  the text or the command line was refused
  4  memory ran out, or a file or the output failed

Example:
  msc list --places relay.msc";

/// The text below the help of `msc draw`.
const DRAW_NOTES: &str = "\
Exit status:
  0  the picture was written
  2  the text or the command line was refused
  4  memory ran out, or a file or the output failed

Examples:
  msc draw relay.msc
  msc draw --queues mailbox --svg relay.msc";

/// The text below the help of `msc reverse`.
const REVERSE_NOTES: &str = "\
Exit status:
  0  the picture was written
  2  the text, the pair or the command line was refused
  4  memory ran out, or a file or the output failed

Example:
  msc reverse --queues pair relay.msc 2 3";

/// The text below the help of `msc report`.
const REPORT_NOTES: &str = "\
With --from, the page is on all scenarios of the diagram, or with --choose on one of them.

Exit status:
  0  the page was written
  2  the text or the command line was refused
  4  memory ran out, or a file or the output failed

Examples:
  msc report --queues mailbox relay.msc >relay.html
  msc report --from any --queues pair order.mmd >order.html";

/// The text below the help of `msc ready`.
const READY_NOTES: &str = "\
An instance is ready if it takes an input only when all that is drawn before it has happened, and
leaves other messages in their queues. Without --only, all instances are ready.

  finishes        such a system never sticks
  may stick N     some run sticks, and some run is whole; N is the number of sticks
  never finishes  no run is whole

A stick is a pair of inputs of one queue: one that an instance waits for, and one that can be first
in the queue. With --again, the chart repeats, and the sticks between a round and the next are
printed, too.

Without --show, each stick that no other one precedes has a run. With --format full, none has one.

Exit status:
  0  the system finishes, with --only no race is left, and with --again repeated rounds finish, too
  1  it may stick or never finishes, with --only races are left, or with --again rounds may stick
  2  the text, a name or the command line was refused
  4  memory ran out, or a file or the output failed

Examples:
  msc ready --queues mailbox relay.msc
  msc ready --queues mailbox --only worker --words relay.msc";

/// The text below the help of `msc import`.
const IMPORT_NOTES: &str = "\
A diagram without blocks that leave a choice has one scenario. For any other, say which one:
  --choose main   each alt takes its first branch, each opt is there, each loop goes one round
  --choose 1,0,2  the choices in the order in which blocks are met, the others as in main

Exit status:
  0  the chart, or the list of its events, was written
  2  the text or the command line was refused
  4  memory ran out, or a file or the output failed

Examples:
  msc import checkout.mmd
  msc import --choose 1 --list checkout.mmd
  msc import --choose main checkout.mmd | msc check --queues pair -";

/// The text below the help of `msc completions`.
const COMPLETIONS_NOTES: &str = "\
`tools/install` of the repository puts them where the shells look for them. The examples load them
into a shell that runs.

Exit status:
  0  the completions were written
  2  the command line was refused
  4  memory ran out, or the output failed

Examples:
  source <(msc completions bash)
  source <(msc completions zsh)
  msc completions fish | source";
