//! The scan that the words of `msc scan` ask for.

ghost use Rattle.std.specs.Prelude.{◌≡◌, false, map, option_map, true, IfErr, IfOk, None};
ghost use Rattle.clap.specs.Matches.{first_value, found_of};
ghost use Rattle.msc_command.specs.Misuses.{IsJobsMisuse, IsScanMisuse, IsSurveyMisuse};
ghost use Rattle.msc_command.specs.Scanning.{is_jobs, scan_format, scan_format_named};
ghost use Rattle.msc_command.specs.Scanning.{AreRules, AreScanArgs, AreScanChecks, IsAnyDiagram};
ghost use Rattle.msc_command.specs.Scanning.{AreJobs, IsContrary, IsScanSurvey};

use crate::asking::{
    check_options_of, colours_of, cross_of, event_style_of, is_given, limit_in, number_given,
    own_of, par_of, rounds_word, runs_shown, texts_of,
};
use crate::misuse::Misuse;
use crate::words::ArgName;
use clap::ArgMatches;
use msc_answer::{CheckArgs, DiagramArgs, Format, LinkWords, ScenarioArgs};
use msc_chart::{LinkKind, Queues};
use msc_findings::Following;
use msc_import::{Language, Manner};
use msc_scanning::ScanArgs;
use std::thread::{Threads, available_parallelism};

/// The greatest value of `--jobs`.
pub(crate) const GREATEST_JOBS: u32 = 64;

/// The format that a word names; without one, that of findings as people read them.
fn scan_format_named(word: Option<&str>) -> Format
    ensures { result ≡ scan_format_named (option_map (λ w. w.now) word.entry) }
{
    match word {
        Some(word) => Format::of(word).unwrap_or(Format::Full),
        None => Format::Full,
    }
}

/// The format of the answer of `msc scan`.
fn scan_format(words: &ArgMatches) -> Format
    ensures { result ≡ scan_format (found_of words.now) }
{
    scan_format_named(words.get_str(ArgName::ScanFormat.name()))
}

/// The check of each chart and each scenario; `auto` says whether there are colours without
/// `--color`. Its queues are those of texts that name none.
fn scan_checks_of(words: &ArgMatches, auto: bool) -> CheckArgs
    ensures { AreScanChecks (found_of words.now) result }
{
    let format = scan_format(words);
    CheckArgs {
        queues: Queues::Uniform(LinkKind::Pair),
        options: check_options_of(words, runs_shown(words, format)),
        accept: !is_given(words, ArgName::NoAccept),
        again: is_given(words, ArgName::Again),
        format,
        colours: colours_of(words, auto),
        event_style: event_style_of(words),
        following: Following::Blank,
    }
}

/// A diagram of any text, and the meaning of its arrows.
fn any_diagram_of<'w>(words: &'w ArgMatches) -> DiagramArgs<'w>
    ensures { IsAnyDiagram (found_of words.entry.now) result }
{
    DiagramArgs {
        language: Language::Any,
        fence: None,
        cross: cross_of(words),
        manner: Manner {
            own: own_of(words),
            par: par_of(words),
        },
        name: &[],
    }
}

/// The rules for links.
fn rules_of<'w>(words: &'w ArgMatches) -> LinkWords<'w>
    ensures { AreRules (found_of words.entry.now) result }
{
    LinkWords {
        own: false,
        pairs: texts_of(words, ArgName::Pair),
        mailboxes: texts_of(words, ArgName::Mailbox),
        singles: texts_of(words, ArgName::Single),
    }
}

/// The check of each diagram.
fn survey_of<'w>(words: &'w ArgMatches, auto: bool) -> Result<ScenarioArgs<'w>, Misuse<'w>>
    ensures survey { IfOk result (IsScanSurvey (found_of words.entry.now)) }
    ensures misuse { IfErr result (IsSurveyMisuse (found_of words.entry.now)) }
{
    Ok(ScenarioArgs {
        diagram: any_diagram_of(words),
        rounds: rounds_word(words)?,
        limit: limit_in(words)?,
        choose: None,
        check_args: scan_checks_of(words, auto),
        links: rules_of(words),
        quiet: is_given(words, ArgName::ScanQuiet),
    })
}

/// Whether this is a value of `--jobs`.
fn is_jobs(jobs: u32) -> bool
    ensures { result ≡ is_jobs jobs }
{
    1 <= jobs && jobs <= GREATEST_JOBS
}

/// The number of processors, at most the greatest value of `--jobs`; if it is unknown, 1.
fn processors<R: Threads>(rt: &R) -> u32
    ensures { is_jobs result ≡ true }
{
    match available_parallelism(rt) {
        Ok(count) => count.get().min(GREATEST_JOBS as usize) as u32,
        Err(_) => 1,
    }
}

/// The number of files that are checked at a time.
fn jobs_in<'w, R: Threads>(rt: &R, words: &'w ArgMatches) -> Result<u32, Misuse<'w>>
    ensures jobs { IfOk result (AreJobs (found_of words.entry.now)) }
    ensures misuse { IfErr result (IsJobsMisuse (found_of words.entry.now)) }
{
    match number_given(words, ArgName::Jobs) {
        Some(jobs) if !is_jobs(jobs) => Err(Misuse::NoJobs(jobs)),
        Some(jobs) => Ok(jobs),
        None => Ok(processors(rt)),
    }
}

/// Whether options say that marks count, and that they do not.
fn is_contrary(words: &ArgMatches) -> bool
    ensures { IsContrary (found_of words.now) result }
{
    let (accepts, ignores) = (
        is_given(words, ArgName::ScanAccept),
        is_given(words, ArgName::NoAccept),
    );
    accepts && ignores
}

/// The scan that the words of `msc scan` ask for; `auto` says whether there are colours without
/// `--color`. Without `--jobs`, as many files are checked at a time as there are processors.
pub(crate) fn scan_args_of<'w, R: Threads>(
    rt: &R,
    words: &'w ArgMatches,
    auto: bool,
) -> Result<ScanArgs<'w>, Misuse<'w>>
    ensures args { IfOk result (AreScanArgs (found_of words.entry.now)) }
    ensures misuse { IfErr result (IsScanMisuse (found_of words.entry.now)) }
{
    if is_contrary(words) {
        return Err(Misuse::Excluded(ArgName::ScanAccept, ArgName::NoAccept));
    }
    Ok(ScanArgs {
        words: survey_of(words, auto)?,
        queues: texts_of(words, ArgName::ScanQueues),
        skips: texts_of(words, ArgName::Skip),
        paths: texts_of(words, ArgName::Paths),
        only_races: is_given(words, ArgName::OnlyRaces),
        notes: is_given(words, ArgName::Places),
        jobs: jobs_in(rt, words)? as usize,
    })
}
