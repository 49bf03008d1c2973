//! Tasks: what the words of a command line request of a text.

ghost use Rattle.std.specs.Prelude.{◌≡◌};
ghost use Rattle.msc_answer.specs.Refused.{form_in, form_of};
ghost use Rattle.msc_answer.specs.Tasks.{format_of_word, format_word, is_full};

use msc_chart::Queues;
use msc_findings::Following;
use msc_import::{Language, Manner};
use msc_judge::CheckOptions;
use msc_mermaid::Cross;
use msc_reason::KindSet;
use msc_report::EventName;

/// The format of an answer.
#[derive(Clone, Copy)]
pub enum Format {
    /// Text: the verdict, and lines for each race.
    Text,
    /// One line for each file.
    Count,
    /// Lines that editors read.
    Lines,
    /// Findings as people read them.
    Full,
}

impl Format {
    /// All forms.
    pub const ALL: [Format; 4] = [Format::Text, Format::Count, Format::Lines, Format::Full];

    /// Its word.
    pub fn word(self) -> &'static str
        ensures { result.now ≡ format_word self }
    {
        match self {
            Format::Text => "text",
            Format::Count => "count",
            Format::Lines => "lines",
            Format::Full => "full",
        }
    }

    /// The form with this word.
    pub fn of(word: &str) -> Option<Format>
        ensures { result ≡ format_of_word word.now }
    {
        for format in Format::ALL {
            if word == format.word() {
                return Some(format);
            }
        }
        None
    }
}

/// How an answer shows events, besides their numbers.
#[derive(Clone, Copy)]
pub struct EventStyle {
    /// Whether it prints their places.
    pub places: bool,
    /// Whether it prints runs in words.
    pub words: bool,
}

/// A check of races under an architecture, and the format of its answer.
#[derive(Clone, Copy)]
pub struct CheckArgs {
    pub queues: Queues,
    pub options: CheckOptions,
    /// Whether races that marks accept do not count.
    pub accept: bool,
    /// Whether races between a round of the chart and the next are included.
    pub again: bool,
    pub format: Format,
    /// Whether findings as people read them have colours.
    pub colours: bool,
    pub event_style: EventStyle,
    /// What follows the closing line of findings as people read them.
    pub following: Following,
}

/// A check of races under an architecture that only returns a status.
#[derive(Clone, Copy)]
pub struct QuietArgs {
    pub queues: Queues,
    /// The kinds whose races do not count.
    pub allowed: KindSet,
    /// Whether races that marks accept do not count.
    pub accept: bool,
    /// Whether races between a round of the chart and the next count too.
    pub again: bool,
}

/// An explanation of two events under an architecture, and how it is printed.
#[derive(Clone, Copy)]
pub struct ExplainArgs {
    pub queues: Queues,
    pub first: EventName,
    pub second: EventName,
    /// Whether a short witness is shown.
    pub short: bool,
    pub event_style: EventStyle,
}

/// Whether some run keeps the drawing under an architecture, and how it is printed.
#[derive(Clone, Copy)]
pub struct FollowArgs {
    pub queues: Queues,
    pub event_style: EventStyle,
}

/// A query on ready instances under an architecture, and how it is answered.
#[derive(Clone, Copy)]
pub struct ReadyArgs<'w> {
    pub queues: Queues,
    /// The names of the ready instances; without one, all are ready.
    pub only: &'w [&'w str],
    /// The number of first sticks with a run.
    pub show: u32,
    /// Whether sticks between a round of the chart and the next are included.
    pub again: bool,
    pub format: Format,
    /// Whether findings as people read them have colours.
    pub colours: bool,
    pub event_style: EventStyle,
}

/// What a command line says of queues besides the architecture: the links of each kind for which
/// it has rules.
#[derive(Clone, Copy)]
pub struct LinkWords<'w> {
    /// Whether the queues that the text itself names apply.
    pub own: bool,
    pub pairs: &'w [&'w str],
    pub mailboxes: &'w [&'w str],
    pub singles: &'w [&'w str],
}

/// A command on a chart. Its architecture is the kind of all links that no rule names, until the
/// names in the rules are known.
#[derive(Clone, Copy)]
pub enum ChartCommand<'w> {
    /// Its races.
    Check(CheckArgs),
    /// Whether no race counts, without a text.
    Quiet(QuietArgs),
    /// Why one event comes before another, or a run in which it does not.
    Explain(ExplainArgs),
    /// A run that keeps the drawing, or why no run does.
    Follow(FollowArgs),
    /// An execution under an architecture, with the patience of its instances.
    Run(Queues, u32),
    /// Its events, and whether their places are printed.
    List(bool),
    /// Whether a system of ready instances can stick.
    Ready(ReadyArgs<'w>),
}

/// A race under an architecture, and the format of the picture of a run that reverses it.
#[derive(Clone, Copy)]
pub struct ReverseArgs {
    pub queues: Queues,
    pub first: EventName,
    pub second: EventName,
    pub format: msc_draw::PictureFormat,
}

/// A picture of a chart, or a report.
#[derive(Clone, Copy)]
pub enum Drawn {
    /// The chart, with the marks of its closest races if an architecture is given.
    Chart(Option<Queues>, msc_draw::PictureFormat),
    /// A run that reverses a race.
    Run(ReverseArgs),
    /// The report of its races under an architecture.
    Report(Queues),
}

/// A diagram of a text, and the meaning of its arrows, in words of the command line.
#[derive(Clone, Copy)]
pub struct DiagramArgs<'w> {
    pub language: Language,
    /// The number of the diagram, from 1, if the text is Markdown.
    pub fence: Option<u32>,
    pub cross: Option<Cross>,
    pub manner: Manner,
    /// The bytes from which its name is made.
    pub name: &'w [u8],
}

/// A scenario of a diagram, in words of the command line.
#[derive(Clone, Copy)]
pub struct ChosenArgs<'w> {
    pub diagram: DiagramArgs<'w>,
    /// The word of `--choose`.
    pub choose: Option<&'w str>,
}

/// An import of a text, and the format of its answer, in words of the command line.
#[derive(Clone, Copy)]
pub struct ImportArgs<'w> {
    pub chosen: ChosenArgs<'w>,
    /// Whether the events are listed, with the places of their arrows.
    pub list: bool,
}

/// What a command line says of the text besides the command.
#[derive(Clone, Copy)]
pub struct TextArgs<'w> {
    /// The scenario of its diagram, if the text is one.
    pub diagram: Option<ChosenArgs<'w>>,
    /// The rules for links.
    pub links: LinkWords<'w>,
}

/// A check of all scenarios of a diagram, in words of the command line.
#[derive(Clone, Copy)]
pub struct ScenarioArgs<'w> {
    pub diagram: DiagramArgs<'w>,
    /// The word of `--rounds`.
    pub rounds: Option<&'w str>,
    /// The greatest number of scenarios.
    pub limit: u32,
    /// The word of `--choose`: then one scenario alone is checked.
    pub choose: Option<&'w str>,
    /// The check of each scenario. Its architecture is the kind of all links that no rule names,
    /// until the names in the rules are known.
    pub check_args: CheckArgs,
    /// The rules for links.
    pub links: LinkWords<'w>,
    /// Whether only the status is returned.
    pub quiet: bool,
}

/// A report of all scenarios of a diagram, in words of the command line.
#[derive(Clone, Copy)]
pub struct ReportArgs<'w> {
    /// The kind of all links that no rule names.
    pub queues: Queues,
    pub diagram: DiagramArgs<'w>,
    /// The rules for links.
    pub links: LinkWords<'w>,
}

/// A command on a text.
#[derive(Clone, Copy)]
pub enum Task<'w> {
    /// The canonical text of its chart, or of a scenario of its diagram.
    Read(Option<ChosenArgs<'w>>),
    /// A command on its chart, or on a scenario of its diagram.
    Chart(ChartCommand<'w>, TextArgs<'w>),
    /// A picture of such a chart, or a report.
    Draw(Drawn, TextArgs<'w>),
    /// The chart of a scenario of its diagram.
    Import(ImportArgs<'w>),
    /// The races of all scenarios of its diagram.
    Scenarios(ScenarioArgs<'w>),
    /// The report of these races.
    Report(ReportArgs<'w>),
}

/// What the output gets of a refusal of a task.
#[derive(Clone, Copy)]
pub enum RefusalForm {
    /// Nothing.
    Nothing,
    /// Lines for editors.
    Lines,
    /// The refusal as people read it, with or without colours.
    Words(bool),
}

/// What the output gets of a refusal in a format, with or without colours.
fn form_in(format: Format, colours: bool) -> RefusalForm
    ensures { result ≡ form_in format colours }
{
    match format {
        Format::Text | Format::Count => RefusalForm::Nothing,
        Format::Lines => RefusalForm::Lines,
        Format::Full => RefusalForm::Words(colours),
    }
}

/// What the output gets of a refusal of a task.
pub fn form_of(task: Task<'_>) -> RefusalForm
    ensures { result ≡ form_of task.entry }
{
    match task {
        Task::Chart(ChartCommand::Check(check_args), _) => {
            form_in(check_args.format, check_args.colours)
        }
        Task::Chart(ChartCommand::Ready(ready_args), _) => {
            form_in(ready_args.format, ready_args.colours)
        }
        Task::Scenarios(words) if !words.quiet => {
            form_in(words.check_args.format, words.check_args.colours)
        }
        Task::Read(_) | Task::Chart(..) | Task::Draw(..) => RefusalForm::Nothing,
        Task::Import(_) | Task::Scenarios(_) | Task::Report(_) => RefusalForm::Nothing,
    }
}

/// A task on the text of the file of this name.
#[derive(Clone, Copy)]
pub struct Request<'w> {
    pub task: Task<'w>,
    pub file: &'w str,
    /// Whether notes follow the line of a refusal.
    pub notes: bool,
}

/// The greatest value of `--limit`.
pub const GREATEST_LIMIT: u32 = 4096;

/// Whether a format is that of findings as people read them.
pub fn is_full(format: Format) -> bool
    ensures { result ≡ is_full format }
{
    match format {
        Format::Full => true,
        Format::Text | Format::Count | Format::Lines => false,
    }
}
