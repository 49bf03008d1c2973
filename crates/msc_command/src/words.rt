//! The commands of the program, their arguments and options: how each is called, and what it takes.
//! Each is defined here once, for the grammar of command lines, for what reads them, for the help
//! and for completions. `tables` has the words of each command, `help` the texts.

ghost use Rattle.std.specs.Prelude.{◌≡◌};
ghost use Rattle.msc_command.specs.Words.{arg_word, command_of_word, command_word, has_value};
ghost use Rattle.msc_command.specs.Words.{is_argument, may_be_repeated};
ghost use Rattle.msc_command.specs.Words.{shell_of_word, shell_word, value_kind_of};

/// A command.
#[derive(Clone, Copy)]
pub(crate) enum CommandName {
    Read,
    Check,
    Scan,
    Explain,
    Follow,
    Run,
    List,
    Draw,
    Reverse,
    Report,
    Ready,
    Import,
    Completions,
}

/// A word of a command: an argument, or an option with its value.
#[derive(Clone, Copy)]
pub(crate) enum ArgName {
    File,
    Paths,
    Queues,
    QueuesIfAny,
    ScanQueues,
    Pair,
    Mailbox,
    Single,
    Closest,
    Why,
    Most,
    Show,
    ShowSticks,
    Only,
    Allow,
    ChartFormat,
    FormatSticks,
    ScanFormat,
    Color,
    Quiet,
    ScanQuiet,
    Words,
    Short,
    Accept,
    ScanAccept,
    NoAccept,
    Again,
    AgainSticks,
    Patience,
    Places,
    Plain,
    Svg,
    From,
    ScenarioFrom,
    Choose,
    Listed,
    Name,
    Own,
    Cross,
    Par,
    ScenariosFrom,
    Rounds,
    Limit,
    Fence,
    Skip,
    OnlyRaces,
    Jobs,
    FirstEvent,
    SecondEvent,
    Shell,
}

/// The kind of a word of a command, and of its value.
#[derive(Clone, Copy)]
pub(crate) enum ValueKind {
    /// An argument: the name of a file.
    File,
    /// The arguments: names of files and folders, one or more.
    Paths,
    /// An argument: the name of an event, its number or `:LINE`.
    Event,
    /// An argument: the name of a shell.
    Shell,
    /// An option without a value.
    Nothing,
    /// An option without a value, which has the letter `q` too.
    NothingOrQ,
    /// An option with a number.
    Number,
    /// A required option with an architecture.
    Architecture,
    /// An option with an architecture.
    ArchitectureIfAny,
    /// An option with an architecture of a scan, which may be repeated.
    Architectures,
    /// An option with a kind of races, which may be repeated.
    Kinds,
    /// An option with the format of an answer.
    Format,
    /// An option with the format of an answer on ready instances.
    FormatSticks,
    /// An option with the format of a scan.
    ScanFormat,
    /// An option that says whether there are colours.
    Color,
    /// An option with a name, which may be repeated.
    Names,
    /// An option with a link, which may be repeated.
    Links,
    /// An option with the language of a text.
    Language,
    /// An option with the choices of a scenario.
    Choices,
    /// An option with the numbers of rounds of loops.
    Rounds,
    /// An option with a name.
    Name,
    /// An option with the meaning of arrows to oneself.
    Own,
    /// An option with the meaning of arrows with a cross.
    Cross,
    /// An option with the meaning of parallel branches that are no coregion.
    Par,
}

/// A shell for which the program prints completions.
#[derive(Clone, Copy)]
pub(crate) enum Shell {
    Bash,
    Zsh,
    Fish,
}

impl ArgName {
    /// Its name: that of an argument, or what follows `--`.
    pub fn name(self) -> &'static str
        ensures { result.now ≡ arg_word self }
    {
        match self {
            ArgName::File => "FILE",
            ArgName::Paths => "PATH",
            ArgName::Queues | ArgName::QueuesIfAny | ArgName::ScanQueues => "queues",
            ArgName::Pair => "pair",
            ArgName::Mailbox => "mailbox",
            ArgName::Single => "single",
            ArgName::Closest => "closest",
            ArgName::Why => "why",
            ArgName::Most => "most",
            ArgName::Show | ArgName::ShowSticks => "show",
            ArgName::Only => "only",
            ArgName::Allow => "allow",
            ArgName::ChartFormat | ArgName::FormatSticks | ArgName::ScanFormat => "format",
            ArgName::Color => "color",
            ArgName::Quiet | ArgName::ScanQuiet => "quiet",
            ArgName::Words => "words",
            ArgName::Short => "short",
            ArgName::Accept | ArgName::ScanAccept => "accept",
            ArgName::NoAccept => "no-accept",
            ArgName::Again | ArgName::AgainSticks => "again",
            ArgName::Patience => "patience",
            ArgName::Places => "places",
            ArgName::Plain => "plain",
            ArgName::Svg => "svg",
            ArgName::From | ArgName::ScenarioFrom | ArgName::ScenariosFrom => "from",
            ArgName::Choose => "choose",
            ArgName::Listed => "list",
            ArgName::Name => "name",
            ArgName::Own => "self",
            ArgName::Cross => "cross",
            ArgName::Par => "par",
            ArgName::Rounds => "rounds",
            ArgName::Limit => "limit",
            ArgName::Fence => "fence",
            ArgName::Skip => "skip",
            ArgName::OnlyRaces => "only-races",
            ArgName::Jobs => "jobs",
            ArgName::FirstEvent => "E",
            ArgName::SecondEvent => "F",
            ArgName::Shell => "SHELL",
        }
    }

    /// Its kind.
    pub fn value_kind(self) -> ValueKind
        ensures { result ≡ value_kind_of self }
    {
        match self {
            ArgName::File => ValueKind::File,
            ArgName::Paths => ValueKind::Paths,
            ArgName::FirstEvent | ArgName::SecondEvent => ValueKind::Event,
            ArgName::Shell => ValueKind::Shell,
            ArgName::Closest | ArgName::Why | ArgName::Words | ArgName::Short => ValueKind::Nothing,
            ArgName::Accept | ArgName::Places | ArgName::Plain | ArgName::Svg => ValueKind::Nothing,
            ArgName::Again | ArgName::AgainSticks | ArgName::Listed => ValueKind::Nothing,
            ArgName::ScanAccept | ArgName::NoAccept | ArgName::OnlyRaces => ValueKind::Nothing,
            ArgName::Quiet | ArgName::ScanQuiet => ValueKind::NothingOrQ,
            ArgName::Most | ArgName::Show | ArgName::ShowSticks | ArgName::Patience =>
                ValueKind::Number,
            ArgName::Limit | ArgName::Fence | ArgName::Jobs => ValueKind::Number,
            ArgName::Only | ArgName::Skip => ValueKind::Names,
            ArgName::Pair | ArgName::Mailbox | ArgName::Single => ValueKind::Links,
            ArgName::Queues => ValueKind::Architecture,
            ArgName::QueuesIfAny => ValueKind::ArchitectureIfAny,
            ArgName::ScanQueues => ValueKind::Architectures,
            ArgName::Allow => ValueKind::Kinds,
            ArgName::ChartFormat => ValueKind::Format,
            ArgName::FormatSticks => ValueKind::FormatSticks,
            ArgName::ScanFormat => ValueKind::ScanFormat,
            ArgName::Color => ValueKind::Color,
            ArgName::From | ArgName::ScenarioFrom => ValueKind::Language,
            ArgName::ScenariosFrom => ValueKind::Language,
            ArgName::Choose => ValueKind::Choices,
            ArgName::Rounds => ValueKind::Rounds,
            ArgName::Name => ValueKind::Name,
            ArgName::Own => ValueKind::Own,
            ArgName::Cross => ValueKind::Cross,
            ArgName::Par => ValueKind::Par,
        }
    }
}

impl ValueKind {
    /// Whether a word of this kind is an argument, and not an option.
    pub fn is_argument(self) -> bool
        ensures { result ≡ is_argument self }
    {
        matches!(
            self,
            ValueKind::File | ValueKind::Paths | ValueKind::Event | ValueKind::Shell
        )
    }

    /// Whether an option of this kind has a value.
    pub fn has_value(self) -> bool
        ensures { result ≡ has_value self }
    {
        !matches!(self, ValueKind::Nothing | ValueKind::NothingOrQ)
    }

    /// Whether a word of this kind may be repeated.
    pub fn may_be_repeated(self) -> bool
        ensures { result ≡ may_be_repeated self }
    {
        matches!(
            self,
            ValueKind::Paths
                | ValueKind::Architectures
                | ValueKind::Kinds
                | ValueKind::Names
                | ValueKind::Links
        )
    }

    /// The letter that an option of this kind has too.
    pub fn letter(self) -> Option<char> {
        match self {
            ValueKind::NothingOrQ => Some('q'),
            _ => None,
        }
    }
}

impl CommandName {
    /// All commands, in the order of the help.
    pub const ALL: [CommandName; 13] = [
        CommandName::Read,
        CommandName::Check,
        CommandName::Scan,
        CommandName::Explain,
        CommandName::Follow,
        CommandName::Run,
        CommandName::List,
        CommandName::Draw,
        CommandName::Reverse,
        CommandName::Report,
        CommandName::Ready,
        CommandName::Import,
        CommandName::Completions,
    ];

    /// Its name.
    pub fn name(self) -> &'static str
        ensures { result.now ≡ command_word self }
    {
        match self {
            CommandName::Read => "read",
            CommandName::Check => "check",
            CommandName::Scan => "scan",
            CommandName::Explain => "explain",
            CommandName::Follow => "follow",
            CommandName::Run => "run",
            CommandName::List => "list",
            CommandName::Draw => "draw",
            CommandName::Reverse => "reverse",
            CommandName::Report => "report",
            CommandName::Ready => "ready",
            CommandName::Import => "import",
            CommandName::Completions => "completions",
        }
    }

    /// The command with a name.
    pub fn of(name: &str) -> Option<CommandName>
        ensures { result ≡ command_of_word name.now }
    {
        for command_name in CommandName::ALL {
            if name == command_name.name() {
                return Some(command_name);
            }
        }
        None
    }
}

impl Shell {
    /// All shells, in the order of the help.
    pub const ALL: [Shell; 3] = [Shell::Bash, Shell::Zsh, Shell::Fish];

    /// Its name.
    pub fn name(self) -> &'static str
        ensures { result.now ≡ shell_word self }
    {
        match self {
            Shell::Bash => "bash",
            Shell::Zsh => "zsh",
            Shell::Fish => "fish",
        }
    }

    /// The shell with a name.
    pub fn of(name: &str) -> Option<Shell>
        ensures { result ≡ shell_of_word name.now }
    {
        for shell in Shell::ALL {
            if name == shell.name() {
                return Some(shell);
            }
        }
        None
    }
}
