//! The task of a command line, by the words that `clap` took.

ghost use Rattle.std.specs.Prelude.{◌≡◌, ◌≢◌, ◌||◌, IfErr, IfOk, MatchOption, None, OnOk, Some};
ghost use Rattle.std.specs.Prelude.{false, map, option_map, true};
ghost use Rattle.clap.specs.Matches.{first_value, found_of};
ghost use Rattle.msc_command.specs.Asking.{architecture, file_of, format, names_kind, AreAllowed};
ghost use Rattle.msc_command.specs.Asking.{AsksFor, IsDrawnFormat, IsEventWord, IsFlag};
ghost use Rattle.msc_command.specs.Asking.{colours_by, format_named, format_of_sticks};
ghost use Rattle.msc_command.specs.Asking.{runs_in, IsEventStyle};
ghost use Rattle.msc_command.specs.Asking.{chart_named, cross_named, lacks_choices, language_named};
ghost use Rattle.msc_command.specs.Asking.{own_named, par_named, AreCheckArgs, IsDiagram};
ghost use Rattle.msc_command.specs.Asking.{AreExplainArgs, AreLinkWords, AreQuietArgs};
ghost use Rattle.msc_command.specs.Asking.{AreReadyArgs, AreReverseArgs, AreTextArgs, IsOrigin};
ghost use Rattle.msc_command.specs.Asking.{default_limit, is_limit, is_of_scenarios, lacks_from};
ghost use Rattle.msc_command.specs.Asking.{shown_by};
ghost use Rattle.msc_command.specs.Asking.{lacks_rounds, stands, IsNumberGiven, IsOfChart};
ghost use Rattle.msc_command.specs.Asking.{tells_notes, AreRunsShown, IsTwofold};
ghost use Rattle.msc_command.specs.Asking.{IsNameText, IsNoName, IsNoNumber, IsNumberText};
ghost use Rattle.msc_command.specs.Asking.{asks_own, has_rule, is_own_word, lacks_queues, usual_by};
ghost use Rattle.msc_command.specs.Asking.{args_of, IsOptionNumber, AreCheckOptions, WantsNotes};
ghost use Rattle.msc_command.specs.Misuses.{IsCheckMisuse, IsDiagramMisuse, IsEventMisuse};
ghost use Rattle.msc_command.specs.Misuses.{IsDrawMisuse, IsImportMisuse, IsLimitMisuse};
ghost use Rattle.msc_command.specs.Misuses.{IsOriginMisuse, IsPairMisuse, IsPairedMisuse};
ghost use Rattle.msc_command.specs.Misuses.{IsQueuesMisuse, IsRoundsMisuse, IsWordMisuse};
ghost use Rattle.msc_command.specs.Words.{arg_word};

use crate::misuse::Misuse;
use crate::words::{ArgName, CommandName};
use clap::ArgMatches;
use msc_answer::{
    ChartCommand, CheckArgs, ChosenArgs, DiagramArgs, Drawn, EventStyle, ExplainArgs, FollowArgs,
    Format, GREATEST_LIMIT, ImportArgs, LinkWords, QuietArgs, ReadyArgs, ReportArgs, ReverseArgs,
    ScenarioArgs, Task, TextArgs, gives_choices, gives_rounds, is_full, title_of,
};
use msc_chart::{LinkKind, Queues};
use msc_findings::Following;
use msc_import::{Language, Manner, Own, Par};
use msc_judge::CheckOptions;
use msc_mermaid::Cross;
use msc_reason::{KindSet, RaceKind};
use msc_report::EventName;

/// The greatest number of scenarios of a diagram without `--limit`.
const DEFAULT_LIMIT: u32 = 64;

/// The patience of instances without `--patience`.
const DEFAULT_PATIENCE: u32 = 1_000_000_000;

/// The number that a text is.
fn number_in(text: &str) -> Option<u32>
    ensures { MatchOption result (IsNoNumber text.now) (IsNumberText text.now) }
{
    text.parse().ok()
}

/// The event name that a text is, if it is one: a number, or `:` and a number from 1 on.
fn name_in(text: &str) -> Option<EventName>
    ensures { MatchOption result (IsNoName text.now) (IsNameText text.now) }
{
    match text.strip_prefix(':') {
        Some(line) => match number_in(line) {
            Some(line) if line > 0 => Some(EventName::Line(line)),
            _ => None,
        },
        None => match number_in(text) {
            Some(number) => Some(EventName::Number(number)),
            None => None,
        },
    }
}

/// The event name in the text of this word.
fn event_named<'w>(word: ArgName, text: &'w str) -> Result<EventName, Misuse<'w>>
    ensures named { IfOk result (IsNameText text.now) }
    ensures misuse { IfErr result (λ m. (m ≡ Misuse.NoEvent word text.entry) × IsNoName text.now) }
{
    match name_in(text) {
        Some(name) => Ok(name),
        None => Err(Misuse::NoEvent(word, text)),
    }
}

/// The event name in this word.
fn event_of<'w>(words: &'w ArgMatches, word: ArgName) -> Result<EventName, Misuse<'w>>
    ensures named { IfOk result (IsEventWord (found_of words.entry.now) (arg_word word)) }
    ensures misuse { IfErr result (IsEventMisuse (found_of words.entry.now) word) }
{
    match words.get_str(word.name()) {
        Some(text) => event_named(word, text),
        None => Err(Misuse::Lacks(word)),
    }
}

/// The number of an option, or `without` if it is not given.
fn number_of(words: &ArgMatches, word: ArgName, without: u32) -> u32
    ensures { IsOptionNumber (found_of words.now) (arg_word word) without result }
{
    words.get_one(word.name()).unwrap_or(without)
}

/// The number of an option, if it is given.
pub(crate) fn number_given(words: &ArgMatches, word: ArgName) -> Option<u32>
    ensures { IsNumberGiven (found_of words.now) (arg_word word) result }
{
    words.get_one(word.name())
}

/// Whether an option with a value is given.
fn stands(words: &ArgMatches, word: ArgName) -> bool
    ensures { result ≡ stands (found_of words.now) word }
{
    words.get_str(word.name()).is_some()
}

/// Whether a flag is given.
pub(crate) fn is_given(words: &ArgMatches, word: ArgName) -> bool
    ensures { IsFlag (found_of words.now) (arg_word word) result }
{
    words.get_flag(word.name())
}

/// Whether a kind is left out.
fn is_allowed(words: &[&str], kind: RaceKind) -> bool
    ensures { result ≡ names_kind (map (λ word. word.now) words.now) kind }
{
    words.contains(&kind.word())
}

/// The kinds that are left out.
fn allowed_of(words: &ArgMatches) -> KindSet
    ensures { AreAllowed (found_of words.now) result }
{
    let kinds = words.get_strs(ArgName::Allow.name()).unwrap_or(&[]);
    KindSet {
        early: is_allowed(kinds, RaceKind::Early),
        queues: is_allowed(kinds, RaceKind::Queues),
        unordered: is_allowed(kinds, RaceKind::Unordered),
        overtaken: is_allowed(kinds, RaceKind::Overtaken),
    }
}

/// The options that select races; without `--show`, `shown` races have runs.
pub(crate) fn check_options_of(words: &ArgMatches, shown: u32) -> CheckOptions
    ensures { AreCheckOptions (found_of words.now) shown result }
{
    CheckOptions {
        closest: is_given(words, ArgName::Closest),
        why: is_given(words, ArgName::Why),
        allowed: allowed_of(words),
        most: number_of(words, ArgName::Most, u32::MAX),
        show: number_of(words, ArgName::Show, shown),
        short: is_given(words, ArgName::Short),
    }
}

/// The form that a word names: text, if no word does.
fn format_named(word: Option<&str>) -> Format
    ensures { result ≡ format_named (option_map (λ w. w.now) word.entry) }
{
    match word {
        Some(word) => Format::of(word).unwrap_or(Format::Text),
        None => Format::Text,
    }
}

/// The form of the answer of `msc check`.
fn format_asked(words: &ArgMatches) -> Format
    ensures { result ≡ format (found_of words.now) }
{
    format_named(words.get_str(ArgName::ChartFormat.name()))
}

/// Whether findings have colours, by a word; `auto` says whether they do without one.
fn colours_by(word: Option<&str>, auto: bool) -> bool
    ensures { result ≡ colours_by (option_map (λ w. w.now) word.entry) auto }
{
    match word {
        Some(word) if word == "always" => true,
        Some(word) if word == "never" => false,
        _ => auto,
    }
}

/// Whether findings have colours; `auto` says whether they do without a word.
pub(crate) fn colours_of(words: &ArgMatches, auto: bool) -> bool
    ensures { result ≡ colours_by (first_value (found_of words.now) (arg_word ArgName.Color)) auto }
{
    colours_by(words.get_str(ArgName::Color.name()), auto)
}

/// The number of races of a chart, or of first sticks, with runs in this format, without `--show`: all,
/// but of findings as people read them none.
fn runs_in(format: Format) -> u32
    ensures { result ≡ runs_in format }
{
    match format {
        Format::Full => 0,
        Format::Text | Format::Count | Format::Lines => u32::MAX,
    }
}

/// The form of the answer of `msc ready`.
fn format_of_sticks(words: &ArgMatches) -> Format
    ensures { result ≡ format_of_sticks (found_of words.now) }
{
    format_named(words.get_str(ArgName::FormatSticks.name()))
}

/// Whether notes follow the line of a refusal: with `--places`, and on a terminal without
/// `--plain`.
fn tells_notes(places: bool, plain: bool, terminal: bool) -> bool
    ensures { result ≡ tells_notes places plain terminal }
{
    places || terminal && !plain
}

/// Whether notes follow the line of a refusal.
pub(crate) fn notes_of(words: &ArgMatches, terminal: bool) -> bool
    ensures { WantsNotes (found_of words.now) terminal result }
{
    let places = is_given(words, ArgName::Places);
    tells_notes(places, is_given(words, ArgName::Plain), terminal)
}

/// Whether words exclude each other.
pub(crate) fn is_twofold(words: &ArgMatches) -> bool
    ensures { IsTwofold (found_of words.now) result }
{
    let (places, plain) = (
        is_given(words, ArgName::Places),
        is_given(words, ArgName::Plain),
    );
    places && plain
}

/// How the answer shows events.
pub(crate) fn event_style_of(words: &ArgMatches) -> EventStyle
    ensures { IsEventStyle (found_of words.now) result }
{
    EventStyle {
        places: is_given(words, ArgName::Places),
        words: is_given(words, ArgName::Words),
    }
}

/// The file that the words name.
pub(crate) fn file_of<'w>(words: &'w ArgMatches) -> &'w str
    ensures { result.now ≡ file_of (found_of words.entry.now) }
{
    match words.get_str(ArgName::File.name()) {
        Some(file) => file,
        None => "-",
    }
}

/// Whether a word for an architecture asks the text for its own queues.
fn is_own_word(word: &str) -> bool
    ensures { result ≡ is_own_word word.now }
{
    word == "own"
}

/// The kind of the links that no rule names, by a word for an architecture. A text that is asked
/// for its own queues, and names none, has `pair`.
fn usual_by(word: &str) -> Option<LinkKind>
    ensures { result ≡ usual_by word.now }
{
    if is_own_word(word) {
        return Some(LinkKind::Pair);
    }
    LinkKind::of(word)
}

/// The architecture that the words name, if they name one.
fn named_queues(words: &ArgMatches) -> Option<Queues>
    ensures { result ≡ architecture (found_of words.now) }
{
    Some(Queues::Uniform(usual_by(words.get_str(ArgName::Queues.name())?)?))
}

/// Whether the words ask the text for its own queues.
fn asks_own(words: &ArgMatches) -> bool
    ensures { result ≡ asks_own (found_of words.now) }
{
    match words.get_str(ArgName::Queues.name()) {
        Some(word) => is_own_word(word),
        None => false,
    }
}

/// The architecture that the words name.
fn queues_of<'w>(words: &'w ArgMatches) -> Result<Queues, Misuse<'w>>
    ensures named { IfOk result (λ queues. architecture (found_of words.entry.now) ≡ Some queues) }
    ensures misuse { IfErr result (IsQueuesMisuse (found_of words.entry.now)) }
{
    match named_queues(words) {
        Some(queues) => Ok(queues),
        None => Err(Misuse::NoQueues),
    }
}

/// The words of an option that may be repeated.
pub(crate) fn texts_of<'w>(words: &'w ArgMatches, word: ArgName) -> &'w [&'w str]
    ensures { map (λ word. word.now) result.now ≡ args_of (found_of words.entry.now) (arg_word word) }
{
    words.get_strs(word.name()).unwrap_or(&[])
}

/// No rules for links.
const NO_LINKS: LinkWords<'static> = LinkWords {
    own: false,
    pairs: &[],
    mailboxes: &[],
    singles: &[],
};

/// What the words say of queues besides the architecture.
fn link_words_of<'w>(words: &'w ArgMatches) -> LinkWords<'w>
    ensures { AreLinkWords (found_of words.entry.now) result }
{
    LinkWords {
        own: asks_own(words),
        pairs: texts_of(words, ArgName::Pair),
        mailboxes: texts_of(words, ArgName::Mailbox),
        singles: texts_of(words, ArgName::Single),
    }
}

/// What the words of `msc check` say of the text of a chart.
fn chart_text_of<'w>(words: &'w ArgMatches) -> TextArgs<'w>
    ensures diagram { result.diagram ≡ None }
    ensures links { AreLinkWords (found_of words.entry.now) result.links }
{
    TextArgs {
        diagram: None,
        links: link_words_of(words),
    }
}

/// The check of races under an architecture by the words of `msc check`; without `--show`, `shown`
/// races have runs, and `auto` says whether there are colours without `--color`.
fn check_args_of(queues: Queues, words: &ArgMatches, shown: u32, auto: bool) -> CheckArgs
    ensures { architecture (found_of words.now) ≡ Some queues
        → AreCheckArgs (found_of words.now) shown result }
{
    CheckArgs {
        queues,
        options: check_options_of(words, shown),
        accept: is_given(words, ArgName::Accept),
        again: is_given(words, ArgName::Again),
        format: format_asked(words),
        colours: colours_of(words, auto),
        event_style: event_style_of(words),
        following: Following::Help,
    }
}

/// The check of races under an architecture of which only the status is returned.
fn quiet_args_of(queues: Queues, words: &ArgMatches) -> QuietArgs
    ensures { architecture (found_of words.now) ≡ Some queues
        → AreQuietArgs (found_of words.now) result }
{
    QuietArgs {
        queues,
        allowed: allowed_of(words),
        accept: is_given(words, ArgName::Accept),
        again: is_given(words, ArgName::Again),
    }
}

/// The task of `msc check` on a chart. With `--quiet` only the status is returned.
fn chart_check_of<'w>(queues: Queues, words: &'w ArgMatches, auto: bool) -> Task<'w>
    requires { IsOfChart (found_of words.now) }
    ensures { architecture (found_of words.entry.now) ≡ Some queues
        → AsksFor CommandName.Check (found_of words.entry.now) result }
{
    if is_given(words, ArgName::Quiet) {
        let quiet_args = quiet_args_of(queues, words);
        return Task::Chart(ChartCommand::Quiet(quiet_args), chart_text_of(words));
    }
    let shown = runs_in(format_asked(words));
    let check_args = check_args_of(queues, words, shown, auto);
    Task::Chart(ChartCommand::Check(check_args), chart_text_of(words))
}

/// Whether the words are for a diagram.
fn is_of_scenarios(words: &ArgMatches) -> bool
    ensures { result ≡ is_of_scenarios (found_of words.now) }
{
    stands(words, ArgName::ScenariosFrom)
}

/// Whether the words have options of diagrams, without `--from`.
fn lacks_from(words: &ArgMatches) -> bool
    ensures { result ≡ lacks_from (found_of words.now) }
{
    let limits = stands(words, ArgName::Rounds) || stands(words, ArgName::Limit);
    let which = stands(words, ArgName::Fence)
        || stands(words, ArgName::Name)
        || stands(words, ArgName::Choose);
    let arrows = stands(words, ArgName::Own)
        || stands(words, ArgName::Cross)
        || stands(words, ArgName::Par);
    !is_of_scenarios(words) && (limits || which || arrows)
}

/// Whether this is a value of `--limit`.
fn is_limit(limit: u32) -> bool
    ensures { result ≡ is_limit limit }
{
    1 <= limit && limit <= GREATEST_LIMIT
}

/// The number of races of a diagram with runs in this format, without `--show`: all if runs are in
/// words or short, otherwise none; of findings as people read them none.
fn shown_by(format: Format, in_words: bool, short: bool) -> u32
    ensures { result ≡ shown_by format (in_words || short) }
{
    if (in_words || short) && !is_full(format) {
        u32::MAX
    } else {
        0
    }
}

/// The number of races of a diagram with runs in this format by these words, without `--show`.
pub(crate) fn runs_shown(words: &ArgMatches, format: Format) -> u32
    ensures { AreRunsShown format (found_of words.now) result }
{
    let in_words = is_given(words, ArgName::Words);
    let short = is_given(words, ArgName::Short);
    shown_by(format, in_words, short)
}

/// The word of `--rounds`, if it is given.
pub(crate) fn rounds_word<'w>(words: &'w ArgMatches) -> Result<Option<&'w str>, Misuse<'w>>
    ensures given { IfOk result (λ word. option_map (λ r. r.now) word
        ≡ first_value (found_of words.entry.now) (arg_word ArgName.Rounds)) }
    ensures gives { OnOk result
        (lacks_rounds (first_value (found_of words.entry.now) (arg_word ArgName.Rounds)) ≡ false) }
    ensures misuse { IfErr result (IsRoundsMisuse (found_of words.entry.now)) }
{
    match words.get_str(ArgName::Rounds.name()) {
        Some(word) if !gives_rounds(word.as_bytes()) => Err(Misuse::NoRounds(word)),
        given => Ok(given),
    }
}

/// The greatest number of scenarios.
pub(crate) fn limit_in<'w>(words: &'w ArgMatches) -> Result<u32, Misuse<'w>>
    ensures given { IfOk result (IsOptionNumber (found_of words.entry.now) (arg_word ArgName.Limit)
        default_limit) }
    ensures within { IfOk result (λ limit. is_limit limit ≡ true) }
    ensures misuse { IfErr result (IsLimitMisuse (found_of words.entry.now)) }
{
    let limit = number_of(words, ArgName::Limit, DEFAULT_LIMIT);
    if is_limit(limit) {
        Ok(limit)
    } else {
        Err(Misuse::NoLimit(limit))
    }
}

/// The task of `msc check` on a diagram.
fn scenarios_of<'w>(
    queues: Queues,
    words: &'w ArgMatches,
    auto: bool,
) -> Result<Task<'w>, Misuse<'w>>
    requires { is_of_scenarios (found_of words.now) ≡ true }
    ensures task { architecture (found_of words.entry.now) ≡ Some queues
        → IfOk result (AsksFor CommandName.Check (found_of words.entry.now)) }
    ensures misuse { architecture (found_of words.entry.now) ≡ Some queues
        → IfErr result (IsDiagramMisuse (found_of words.entry.now)) }
{
    let shown = runs_shown(words, format_asked(words));
    let check_args = check_args_of(queues, words, shown, auto);
    if check_args.again {
        return Err(Misuse::NotOfDiagrams(ArgName::Again));
    }
    Ok(Task::Scenarios(ScenarioArgs {
        diagram: diagram_of(words),
        rounds: rounds_word(words)?,
        limit: limit_in(words)?,
        choose: choices_word(words)?,
        check_args,
        links: link_words_of(words),
        quiet: is_given(words, ArgName::Quiet),
    }))
}

/// The task of `msc check`.
fn check_of<'w>(queues: Queues, words: &'w ArgMatches, auto: bool) -> Result<Task<'w>, Misuse<'w>>
    ensures task { architecture (found_of words.entry.now) ≡ Some queues
        → IfOk result (AsksFor CommandName.Check (found_of words.entry.now)) }
    ensures misuse { architecture (found_of words.entry.now) ≡ Some queues
        → IfErr result (IsCheckMisuse (found_of words.entry.now)) }
{
    if lacks_from(words) {
        return Err(Misuse::NoDiagram);
    }
    if is_of_scenarios(words) {
        return scenarios_of(queues, words, auto);
    }
    Ok(chart_check_of(queues, words, auto))
}

/// The scenario of a diagram by the words, if they are for one.
fn chosen_of<'w>(words: &'w ArgMatches) -> Result<Option<ChosenArgs<'w>>, Misuse<'w>>
    ensures chosen { IfOk result (IsOrigin (found_of words.entry.now)) }
    ensures misuse { IfErr result (IsOriginMisuse (found_of words.entry.now)) }
{
    if lacks_from(words) {
        return Err(Misuse::NoDiagram);
    }
    if !is_of_scenarios(words) {
        return Ok(None);
    }
    Ok(Some(ChosenArgs {
        diagram: diagram_of(words),
        choose: choices_word(words)?,
    }))
}

/// What the words say of the text besides the command.
fn text_args_of<'w>(words: &'w ArgMatches) -> Result<TextArgs<'w>, Misuse<'w>>
    ensures text { IfOk result (AreTextArgs (found_of words.entry.now)) }
    ensures misuse { IfErr result (IsOriginMisuse (found_of words.entry.now)) }
{
    Ok(TextArgs {
        diagram: chosen_of(words)?,
        links: link_words_of(words),
    })
}

/// The task of `msc read`.
fn read_of<'w>(words: &'w ArgMatches) -> Result<Task<'w>, Misuse<'w>>
    ensures task { IfOk result (AsksFor CommandName.Read (found_of words.entry.now)) }
    ensures misuse { IfErr result (IsOriginMisuse (found_of words.entry.now)) }
{
    Ok(Task::Read(chosen_of(words)?))
}

/// The task of `msc run`.
fn run_of<'w>(queues: Queues, words: &'w ArgMatches) -> Result<Task<'w>, Misuse<'w>>
    ensures task { architecture (found_of words.entry.now) ≡ Some queues
        → IfOk result (AsksFor CommandName.Run (found_of words.entry.now)) }
    ensures misuse { IfErr result (IsOriginMisuse (found_of words.entry.now)) }
{
    let patience = number_of(words, ArgName::Patience, DEFAULT_PATIENCE);
    Ok(Task::Chart(ChartCommand::Run(queues, patience), text_args_of(words)?))
}

/// Two events under an architecture by the words of `msc explain`.
fn explain_args_of<'w>(queues: Queues, words: &'w ArgMatches) -> Result<ExplainArgs, Misuse<'w>>
    ensures args { architecture (found_of words.entry.now) ≡ Some queues
        → IfOk result (AreExplainArgs (found_of words.entry.now)) }
    ensures misuse { IfErr result (IsPairMisuse (found_of words.entry.now)) }
{
    Ok(ExplainArgs {
        queues,
        first: event_of(words, ArgName::FirstEvent)?,
        second: event_of(words, ArgName::SecondEvent)?,
        short: is_given(words, ArgName::Short),
        event_style: event_style_of(words),
    })
}

/// The task of `msc explain`.
fn explain_of<'w>(queues: Queues, words: &'w ArgMatches) -> Result<Task<'w>, Misuse<'w>>
    ensures task { architecture (found_of words.entry.now) ≡ Some queues
        → IfOk result (AsksFor CommandName.Explain (found_of words.entry.now)) }
    ensures misuse { IfErr result (IsPairedMisuse (found_of words.entry.now)) }
{
    let text_args = text_args_of(words)?;
    let explain_args = explain_args_of(queues, words)?;
    Ok(Task::Chart(ChartCommand::Explain(explain_args), text_args))
}

/// The task of `msc follow`.
fn follow_of<'w>(queues: Queues, words: &'w ArgMatches) -> Result<Task<'w>, Misuse<'w>>
    ensures task { architecture (found_of words.entry.now) ≡ Some queues
        → IfOk result (AsksFor CommandName.Follow (found_of words.entry.now)) }
    ensures misuse { IfErr result (IsOriginMisuse (found_of words.entry.now)) }
{
    let follow_args = FollowArgs {
        queues,
        event_style: event_style_of(words),
    };
    Ok(Task::Chart(ChartCommand::Follow(follow_args), text_args_of(words)?))
}

/// The task of `msc list`.
fn list_of<'w>(words: &'w ArgMatches) -> Result<Task<'w>, Misuse<'w>>
    ensures task { IfOk result (AsksFor CommandName.List (found_of words.entry.now)) }
    ensures misuse { IfErr result (IsOriginMisuse (found_of words.entry.now)) }
{
    let text_args = TextArgs {
        diagram: chosen_of(words)?,
        links: NO_LINKS,
    };
    Ok(Task::Chart(
        ChartCommand::List(is_given(words, ArgName::Places)),
        text_args,
    ))
}

/// The form of a picture.
fn drawn_format(words: &ArgMatches) -> msc_draw::PictureFormat
    ensures { IsDrawnFormat (found_of words.now) result }
{
    if is_given(words, ArgName::Svg) {
        msc_draw::PictureFormat::Svg
    } else {
        msc_draw::PictureFormat::Text
    }
}

/// Whether the words give a rule of a kind.
fn has_rule(words: &ArgMatches, word: ArgName) -> bool
    ensures { result ≡ has_rule (found_of words.now) word }
{
    !texts_of(words, word).is_empty()
}

/// Whether the words give rules for links, and no architecture.
fn lacks_queues(words: &ArgMatches) -> bool
    ensures { result ≡ lacks_queues (found_of words.now) }
{
    let pairs = has_rule(words, ArgName::Pair);
    let mailboxes = has_rule(words, ArgName::Mailbox);
    let singles = has_rule(words, ArgName::Single);
    named_queues(words).is_none() && (pairs || mailboxes || singles)
}

/// The task of `msc draw`.
fn draw_of<'w>(words: &'w ArgMatches) -> Result<Task<'w>, Misuse<'w>>
    ensures task { IfOk result (AsksFor CommandName.Draw (found_of words.entry.now)) }
    ensures misuse { IfErr result (IsDrawMisuse (found_of words.entry.now)) }
{
    if lacks_queues(words) {
        return Err(Misuse::NoQueues);
    }
    let drawn = Drawn::Chart(named_queues(words), drawn_format(words));
    Ok(Task::Draw(drawn, text_args_of(words)?))
}

/// A race under an architecture by the words of `msc reverse`.
fn reverse_args_of<'w>(queues: Queues, words: &'w ArgMatches) -> Result<ReverseArgs, Misuse<'w>>
    ensures args { architecture (found_of words.entry.now) ≡ Some queues
        → IfOk result (AreReverseArgs (found_of words.entry.now)) }
    ensures misuse { IfErr result (IsPairMisuse (found_of words.entry.now)) }
{
    Ok(ReverseArgs {
        queues,
        first: event_of(words, ArgName::FirstEvent)?,
        second: event_of(words, ArgName::SecondEvent)?,
        format: drawn_format(words),
    })
}

/// The task of `msc reverse`.
fn reverse_of<'w>(queues: Queues, words: &'w ArgMatches) -> Result<Task<'w>, Misuse<'w>>
    ensures task { architecture (found_of words.entry.now) ≡ Some queues
        → IfOk result (AsksFor CommandName.Reverse (found_of words.entry.now)) }
    ensures misuse { IfErr result (IsPairedMisuse (found_of words.entry.now)) }
{
    let text_args = text_args_of(words)?;
    let reverse_args = reverse_args_of(queues, words)?;
    Ok(Task::Draw(Drawn::Run(reverse_args), text_args))
}

/// The task of `msc report`: of a diagram without `--choose`, a page on all its scenarios.
fn report_of<'w>(queues: Queues, words: &'w ArgMatches) -> Result<Task<'w>, Misuse<'w>>
    ensures task { architecture (found_of words.entry.now) ≡ Some queues
        → IfOk result (AsksFor CommandName.Report (found_of words.entry.now)) }
    ensures misuse { IfErr result (IsOriginMisuse (found_of words.entry.now)) }
{
    let text = text_args_of(words)?;
    match text.diagram {
        Some(
            ChosenArgs {
                diagram,
                choose: None,
            },
        ) => Ok(Task::Report(ReportArgs {
            queues,
            diagram,
            links: text.links,
        })),
        _ => Ok(Task::Draw(Drawn::Report(queues), text)),
    }
}

/// Ready instances under an architecture by the words of `msc ready`; `auto` says whether there are
/// colours without `--color`.
fn ready_args_of<'w>(queues: Queues, words: &'w ArgMatches, auto: bool) -> ReadyArgs<'w>
    ensures { architecture (found_of words.entry.now) ≡ Some queues
        → AreReadyArgs (found_of words.entry.now) result }
{
    let format = format_of_sticks(words);
    ReadyArgs {
        queues,
        only: texts_of(words, ArgName::Only),
        show: number_of(words, ArgName::ShowSticks, runs_in(format)),
        again: is_given(words, ArgName::AgainSticks),
        format,
        colours: colours_of(words, auto),
        event_style: event_style_of(words),
    }
}

/// The task of `msc ready`; `auto` says whether there are colours without `--color`.
fn ready_of<'w>(queues: Queues, words: &'w ArgMatches, auto: bool) -> Result<Task<'w>, Misuse<'w>>
    ensures task { architecture (found_of words.entry.now) ≡ Some queues
        → IfOk result (AsksFor CommandName.Ready (found_of words.entry.now)) }
    ensures misuse { IfErr result (IsOriginMisuse (found_of words.entry.now)) }
{
    let ready_args = ready_args_of(queues, words, auto);
    Ok(Task::Chart(ChartCommand::Ready(ready_args), text_args_of(words)?))
}

/// The language that the words name.
fn language_of(words: &ArgMatches) -> Language
    ensures { result ≡ language_named (first_value (found_of words.now) (arg_word ArgName.From)) }
{
    match words.get_str(ArgName::From.name()) {
        Some(word) if word == "mermaid" => Language::Mermaid,
        _ => Language::Any,
    }
}

/// The meaning of arrows to oneself.
pub(crate) fn own_of(words: &ArgMatches) -> Own
    ensures { result ≡ own_named (first_value (found_of words.now) (arg_word ArgName.Own)) }
{
    match words.get_str(ArgName::Own.name()) {
        Some(word) if word == "message" => Own::Message,
        _ => Own::Action,
    }
}

/// The meaning of arrows with a cross, if it is given.
pub(crate) fn cross_of(words: &ArgMatches) -> Option<Cross>
    ensures { result ≡ cross_named (first_value (found_of words.now) (arg_word ArgName.Cross)) }
{
    match words.get_str(ArgName::Cross.name()) {
        Some(word) if word == "lost" => Some(Cross::Lost),
        Some(_) => Some(Cross::Arrives),
        None => None,
    }
}

/// The meaning of parallel branches that are no coregion.
pub(crate) fn par_of(words: &ArgMatches) -> Par
    ensures { result ≡ par_named (first_value (found_of words.now) (arg_word ArgName.Par)) }
{
    match words.get_str(ArgName::Par.name()) {
        Some(_) => Par::Drawn,
        None => Par::Refused,
    }
}

/// The bytes from which the name of the chart is made.
fn chart_name_of<'w>(words: &'w ArgMatches) -> &'w [u8]
    ensures { result.now ≡ chart_named (found_of words.entry.now) }
{
    match words.get_str(ArgName::Name.name()) {
        Some(name) => name.as_bytes(),
        None => title_of(file_of(words)),
    }
}

/// The word of `--choose`, if it is given.
fn choices_word<'w>(words: &'w ArgMatches) -> Result<Option<&'w str>, Misuse<'w>>
    ensures given { IfOk result (λ word. option_map (λ c. c.now) word
        ≡ first_value (found_of words.entry.now) (arg_word ArgName.Choose)) }
    ensures gives { OnOk result
        (lacks_choices (first_value (found_of words.entry.now) (arg_word ArgName.Choose)) ≡ false) }
    ensures misuse { IfErr result (IsImportMisuse (found_of words.entry.now)) }
{
    match words.get_str(ArgName::Choose.name()) {
        Some(word) if !gives_choices(word) => Err(Misuse::NoChoices(word)),
        given => Ok(given),
    }
}

/// The diagram, and the meaning of its arrows.
fn diagram_of<'w>(words: &'w ArgMatches) -> DiagramArgs<'w>
    ensures { IsDiagram (found_of words.entry.now) result }
{
    DiagramArgs {
        language: language_of(words),
        fence: number_given(words, ArgName::Fence),
        cross: cross_of(words),
        manner: Manner {
            own: own_of(words),
            par: par_of(words),
        },
        name: chart_name_of(words),
    }
}

/// The task of `msc import`.
fn import_of<'w>(words: &'w ArgMatches) -> Result<Task<'w>, Misuse<'w>>
    ensures task { IfOk result (AsksFor CommandName.Import (found_of words.entry.now)) }
    ensures misuse { IfErr result (IsImportMisuse (found_of words.entry.now)) }
{
    let chosen = ChosenArgs {
        diagram: diagram_of(words),
        choose: choices_word(words)?,
    };
    Ok(Task::Import(ImportArgs {
        chosen,
        list: is_given(words, ArgName::Listed),
    }))
}

/// The task of the words of a command on a file, unless words exclude each other; `auto` says whether
/// findings have colours without `--color`.
pub(crate) fn complete_task<'w>(
    command_name: CommandName,
    words: &'w ArgMatches,
    auto: bool,
) -> Result<Task<'w>, Misuse<'w>>
    requires task { command_name ≢ CommandName.Completions }
    requires file { command_name ≢ CommandName.Scan }
    ensures task { IfOk result (AsksFor command_name (found_of words.entry.now)) }
    ensures misuse { IfErr result (IsWordMisuse command_name (found_of words.entry.now)) }
{
    match command_name {
        CommandName::Read => read_of(words),
        CommandName::Check => check_of(queues_of(words)?, words, auto),
        CommandName::Explain => explain_of(queues_of(words)?, words),
        CommandName::Follow => follow_of(queues_of(words)?, words),
        CommandName::Run => run_of(queues_of(words)?, words),
        CommandName::List => list_of(words),
        CommandName::Draw => draw_of(words),
        CommandName::Reverse => reverse_of(queues_of(words)?, words),
        CommandName::Report => report_of(queues_of(words)?, words),
        CommandName::Ready => ready_of(queues_of(words)?, words, auto),
        CommandName::Import => import_of(words),
        CommandName::Scan | CommandName::Completions => unreachable!(),
    }
}
