//! What the words of a command line ask for: a task on a file, a scan, or the completions of a shell.

ghost use Rattle.std.specs.Prelude.{◌≡◌, false, IfErr, IfOk, OnOk, Some};
ghost use Rattle.clap.specs.Matches.{found_of};
ghost use Rattle.msc_command.specs.Asking.{IsTwofold};
ghost use Rattle.msc_command.specs.Invocations.{shell_in, Invokes};
ghost use Rattle.msc_command.specs.Misuses.{IsMisuse, IsShellMisuse, IsWordMisuse};

use crate::asking::{complete_task, is_twofold};
use crate::misuse::Misuse;
use crate::scanning::scan_args_of;
use crate::words::{ArgName, CommandName, Shell};
use clap::ArgMatches;
use msc_answer::Task;
use msc_scanning::ScanArgs;
use std::thread::Threads;

/// What the words of a command ask for.
#[derive(Clone, Copy)]
pub(crate) enum Invocation<'w> {
    /// A task on the file that the words name.
    Task(Task<'w>),
    /// A scan of files and folders.
    Scan(ScanArgs<'w>),
    /// The completions of a shell.
    Completions(Shell),
}

/// The shell that the words name, if they name one.
fn named_shell(words: &ArgMatches) -> Option<Shell>
    ensures { result ≡ shell_in (found_of words.now) }
{
    Shell::of(words.get_str(ArgName::Shell.name())?)
}

/// The shell that the words name.
fn shell_of<'w>(words: &'w ArgMatches) -> Result<Shell, Misuse<'w>>
    ensures named { IfOk result (λ shell. shell_in (found_of words.entry.now) ≡ Some shell) }
    ensures misuse { IfErr result (IsShellMisuse (found_of words.entry.now)) }
{
    match named_shell(words) {
        Some(shell) => Ok(shell),
        None => Err(Misuse::Lacks(ArgName::Shell)),
    }
}

/// What the words of a command ask for, unless words exclude each other.
fn complete<'w, R: Threads>(
    rt: &R,
    command_name: CommandName,
    words: &'w ArgMatches,
    auto: bool,
) -> Result<Invocation<'w>, Misuse<'w>>
    ensures invoked { IfOk result (Invokes command_name (found_of words.entry.now)) }
    ensures misuse { IfErr result (IsWordMisuse command_name (found_of words.entry.now)) }
{
    match command_name {
        CommandName::Scan => Ok(Invocation::Scan(scan_args_of(rt, words, auto)?)),
        CommandName::Completions => Ok(Invocation::Completions(shell_of(words)?)),
        _ => Ok(Invocation::Task(complete_task(command_name, words, auto)?)),
    }
}

/// What the words of a command ask for, or the first reason why they are no command; `auto` says
/// whether findings have colours without `--color`, and `rt` how many processors there are.
pub(crate) fn invocation_of<'w, R: Threads>(
    rt: &R,
    command_name: CommandName,
    words: &'w ArgMatches,
    auto: bool,
) -> Result<Invocation<'w>, Misuse<'w>>
    ensures invoked { IfOk result (Invokes command_name (found_of words.entry.now)) }
    ensures apart { OnOk result (IsTwofold (found_of words.entry.now) false) }
    ensures misuse { IfErr result (IsMisuse command_name (found_of words.entry.now)) }
{
    if is_twofold(words) {
        return Err(Misuse::Excluded(ArgName::Places, ArgName::Plain));
    }
    complete(rt, command_name, words, auto)
}
