//! The grammar of command lines, for `clap`.

ghost use Rattle.std.specs.Prelude.{◌≡◌, IfOk, map};
ghost use Rattle.std.specs.String.{string_bytes};
ghost use Rattle.msc_command.specs.Grammar.{bare_command, begun_by, choice_rule, choices_rule};
ghost use Rattle.msc_command.specs.Grammar.{command_of, commands_for, file_rule, flag_rule};
ghost use Rattle.msc_command.specs.Grammar.{letter_rule, names_rule, needed_rule, number_rule};
ghost use Rattle.msc_command.specs.Grammar.{one_rule, parsers_of, paths_rule, rule_of_arg};
ghost use Rattle.msc_command.specs.Grammar.{text_rule};
ghost use Rattle.msc_command.specs.Grammar.{with_commands, IsArgument, IsCommand};
ghost use Rattle.clap.specs.Words.{App, Rule, new_app, with_rule, with_subcommand};
ghost use Rattle.clap.specs.declared.builder.value_parser.ValueParser.TheVariants.{Names};

use crate::alternatives::{Alternatives, Choices};
use crate::help::NOTES;
use crate::words::{ArgName, CommandName, ValueKind};
use clap::{Arg, ArgAction, Command, value_parser};
use msc_answer::VERSION;
use std::alloc::{AllocError, Global};

/// An argument that names a file or an event.
fn named_by<'a>(alloc: Global, name: &'static str, help: &'static str) -> Arg<'a>
    ensures { IsArgument (file_rule name.now) result }
{
    Arg::new(alloc, name).help(help).required(true)
}

/// The arguments that name files and folders, one or more.
fn paths<'a>(alloc: Global, name: &'static str, help: &'static str) -> Arg<'a>
    ensures { IsArgument (paths_rule name.now) result }
{
    Arg::new(alloc, name)
        .help(help)
        .required(true)
        .action(ArgAction::Append)
}

/// An argument that is one of these words.
fn one_named<'a>(
    alloc: Global,
    name: &'static str,
    help: &'static str,
    words: Alternatives<'a>,
) -> Arg<'a>
    ensures { IsArgument (one_rule name.now (Names words.entry.words)) result }
{
    Arg::new(alloc, name)
        .help(help)
        .value_parser(words.words)
        .required(true)
}

/// An option without a value.
fn flag<'a>(alloc: Global, name: &'static str, help: &'static str) -> Arg<'a>
    ensures { IsArgument (flag_rule name.now) result }
{
    Arg::new(alloc, name)
        .long(name)
        .help(help)
        .action(ArgAction::SetTrue)
}

/// An option without a value, which has the letter `q` too.
fn letter<'a>(alloc: Global, name: &'static str, help: &'static str) -> Arg<'a>
    ensures { IsArgument (letter_rule name.now) result }
{
    Arg::new(alloc, name)
        .long(name)
        .help(help)
        .action(ArgAction::SetTrue)
        .short('q')
}

/// An option with a number of 32 bits.
fn number<'a>(alloc: Global, name: &'static str, help: &'static str) -> Arg<'a>
    ensures { IsArgument (number_rule name.now) result }
{
    Arg::new(alloc, name)
        .long(name)
        .value_name("N")
        .help(help)
        .value_parser(value_parser!(u32))
}

/// An option with any text, for which the help shows this one.
fn text<'a>(alloc: Global, name: &'static str, help: &'static str, shown: &'static str) -> Arg<'a>
    ensures { IsArgument (text_rule name.now) result }
{
    Arg::new(alloc, name)
        .long(name)
        .value_name(shown)
        .help(help)
}

/// An option with one of these words.
fn one_of<'a>(
    alloc: Global,
    name: &'static str,
    help: &'static str,
    words: Alternatives<'a>,
) -> Arg<'a>
    ensures { IsArgument (choice_rule name.now (Names words.entry.words)) result }
{
    Arg::new(alloc, name)
        .long(name)
        .value_name(words.shown)
        .help(help)
        .value_parser(words.words)
}

/// A required option with one of these words.
fn one_needed<'a>(
    alloc: Global,
    name: &'static str,
    help: &'static str,
    words: Alternatives<'a>,
) -> Arg<'a>
    ensures { IsArgument (needed_rule name.now (Names words.entry.words)) result }
{
    Arg::new(alloc, name)
        .long(name)
        .value_name(words.shown)
        .help(help)
        .value_parser(words.words)
        .required(true)
}

/// An option with one of these words, which may be repeated.
fn any_of<'a>(
    alloc: Global,
    name: &'static str,
    help: &'static str,
    words: Alternatives<'a>,
) -> Arg<'a>
    ensures { IsArgument (choices_rule name.now (Names words.entry.words)) result }
{
    Arg::new(alloc, name)
        .long(name)
        .value_name(words.shown)
        .help(help)
        .value_parser(words.words)
        .action(ArgAction::Append)
}

/// An option with any text, which may be repeated, for which the help shows this one.
fn names<'a>(alloc: Global, name: &'static str, help: &'static str, shown: &'static str) -> Arg<'a>
    ensures { IsArgument (names_rule name.now) result }
{
    Arg::new(alloc, name)
        .long(name)
        .value_name(shown)
        .help(help)
        .action(ArgAction::Append)
}

/// A word of a command by its kind: an argument or an option.
fn by_kind<'a>(alloc: Global, word: ArgName, lent: Choices<'a>) -> Arg<'a>
    ensures { IsArgument (rule_of_arg (parsers_of lent.entry) word) result }
{
    let (name, help) = (word.name(), word.help());
    match word.value_kind() {
        ValueKind::File | ValueKind::Event => named_by(alloc, name, help),
        ValueKind::Paths => paths(alloc, name, help),
        ValueKind::Shell => one_named(alloc, name, help, lent.shells),
        ValueKind::Nothing => flag(alloc, name, help),
        ValueKind::NothingOrQ => letter(alloc, name, help),
        ValueKind::Number => number(alloc, name, help),
        ValueKind::Architecture => one_needed(alloc, name, help, lent.architectures),
        ValueKind::ArchitectureIfAny => one_of(alloc, name, help, lent.architectures),
        ValueKind::Architectures => any_of(alloc, name, help, lent.scan_queues),
        ValueKind::Kinds => any_of(alloc, name, help, lent.kinds),
        ValueKind::Format => one_of(alloc, name, help, lent.formats),
        ValueKind::FormatSticks => one_of(alloc, name, help, lent.stick_formats),
        ValueKind::ScanFormat => one_of(alloc, name, help, lent.scan_formats),
        ValueKind::Color => one_of(alloc, name, help, lent.colors),
        ValueKind::Names => names(alloc, name, help, "NAME"),
        ValueKind::Links => names(alloc, name, help, "LINK"),
        ValueKind::Language => one_of(alloc, name, help, lent.languages),
        ValueKind::Choices => text(alloc, name, help, "C"),
        ValueKind::Rounds => text(alloc, name, help, "R,R.."),
        ValueKind::Name => text(alloc, name, help, "NAME"),
        ValueKind::Own => one_of(alloc, name, help, lent.owns),
        ValueKind::Cross => one_of(alloc, name, help, lent.crosses),
        ValueKind::Par => one_of(alloc, name, help, lent.pars),
    }
}

/// An option as the help has it: below a heading, with its sentence on the next line. Its words are
/// what the help shows for its value, so they are not listed again.
fn below<'a>(option: Arg<'a>, heading: Option<&'static str>) -> Arg<'a>
    ensures { (rule : Rule) → IsArgument rule option.entry → IsArgument rule result }
{
    let option = option.next_line_help(true).hide_possible_values(true);
    match heading {
        Some(heading) => option.help_heading(heading),
        None => option,
    }
}

/// A word of a command: an argument or an option.
fn argument<'a>(alloc: Global, word: ArgName, lent: Choices<'a>) -> Arg<'a>
    ensures { IsArgument (rule_of_arg (parsers_of lent.entry) word) result }
{
    let argument = by_kind(alloc, word, lent);
    if word.value_kind().is_argument() {
        return argument;
    }
    below(argument, word.heading())
}

/// A command without its words, with the help's sentence on it.
fn named<'a>(
    alloc: Global,
    name: &'static str,
    about: &'static str,
    notes: &'static str,
) -> Result<Command<'a>, AllocError>
    ensures { IfOk result (IsCommand (new_app name.now)) }
{
    Ok(Command::new(alloc, name).about(about).after_help(notes))
}

/// A command with one more argument. An error is a growth of memory that was refused.
fn and<'a>(command: Command<'a>, argument: Arg<'a>) -> Result<Command<'a>, AllocError>
    ensures { (app : App) (rule : Rule) → IsCommand app command.entry
        → IsArgument rule argument.entry → IfOk result (IsCommand (with_rule app rule)) }
{
    command.arg(argument)
}

/// A command with its words. An error is a growth of memory that was refused.
fn command_of<'a>(
    alloc: Global,
    command_name: CommandName,
    lent: Choices<'a>,
) -> Result<Command<'a>, AllocError>
    ensures { IfOk result (IsCommand (command_of (parsers_of lent.entry) command_name)) }
{
    let mut command = named(
        alloc,
        command_name.name(),
        command_name.about(),
        command_name.notes(),
    )?;
    for word in command_name.words() {
        command = and(command, argument(alloc, *word, lent))?;
    }
    Ok(command)
}

/// The program, without its commands. An error is a growth of memory that was refused.
fn bare<'a>(alloc: Global) -> Result<Command<'a>, AllocError>
    ensures { IfOk result (IsCommand bare_command) }
{
    let command = Command::new(alloc, "msc").bin_name("msc")?;
    let about = "Check message sequence charts for races, and run them";
    let command = command.version(VERSION).about(about).after_help(NOTES);
    Ok(command.subcommand_required(true))
}

/// A program with one more command. An error is a growth of memory that was refused.
fn with<'a>(program: Command<'a>, command: Command<'a>) -> Result<Command<'a>, AllocError>
    ensures { (app below : App) → IsCommand app program.entry → IsCommand below command.entry
        → IfOk result (IsCommand (with_subcommand app below.top)) }
{
    program.subcommand(command)
}

/// The program with these commands. An error is a growth of memory that was refused.
fn with_each<'a>(
    alloc: Global,
    command_names: &[CommandName],
    lent: Choices<'a>,
) -> Result<Command<'a>, AllocError>
    ensures { IfOk result (IsCommand
        (with_commands (parsers_of lent.entry) bare_command command_names.now)) }
{
    let mut command = bare(alloc)?;
    for command_name in command_names {
        command = with(command, command_of(alloc, *command_name, lent)?)?;
    }
    Ok(command)
}

/// The command that the first word after the program's name names.
fn begun_by(words: &[String]) -> Option<CommandName>
    ensures { result ≡ begun_by (map string_bytes words.now) }
{
    let name = words.get(1)?;
    CommandName::of(name)
}

/// The grammar of the program, as far as these words need it: with the command that they name,
/// otherwise with all. An error is a growth of memory that was refused.
// The grammar of all commands takes longer to make than a small chart to check.
pub(crate) fn grammar<'a>(
    alloc: Global,
    words: &[String],
    lent: Choices<'a>,
) -> Result<Command<'a>, AllocError>
    ensures { IfOk result (IsCommand (with_commands (parsers_of lent.entry) bare_command
        (commands_for (map string_bytes words.now)))) }
{
    match begun_by(words) {
        Some(command_name) => with_each(alloc, &[command_name], lent),
        None => with_each(alloc, &CommandName::ALL, lent),
    }
}
