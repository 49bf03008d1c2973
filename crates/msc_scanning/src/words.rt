//! What the words of a scan request.

ghost use Rattle.std.specs.List.{list_any};
ghost use Rattle.std.specs.Prelude.{◌≡◌, IfOk, OnOk, false};
ghost use Rattle.msc_scanning.specs.Words.{added, architectures_of, links_under, printing};
ghost use Rattle.msc_scanning.specs.Words.{same, with_word, words_in};

use msc_answer::{LinkWords, ScenarioArgs};
use msc_chart::LinkKind;
use msc_links::same_kind;
use std::alloc::{AllocError, Global};

/// An architecture of a scan.
#[derive(Clone, Copy, Debug)]
pub struct Architecture {
    /// Whether the queues that a text names itself apply.
    pub own: bool,
    /// The kind of the links that no rule names.
    pub usual: LinkKind,
}

impl Architecture {
    /// The queues that a text names itself, or a connection for each link.
    pub const OWN: Architecture = Architecture {
        own: true,
        usual: LinkKind::Pair,
    };

    /// The queues of this kind.
    fn of(usual: LinkKind) -> Architecture
        ensures own { result.own ≡ false }
        ensures usual { result.usual ≡ usual }
    {
        Architecture { own: false, usual }
    }
}

/// What a scan checks, and how it prints it, in words of the command line.
#[derive(Clone, Copy)]
pub struct ScanArgs<'w> {
    /// The check of each diagram; which diagram it is and its queues follow from each text. `quiet`
    /// leaves the last line of the formats `full` and `text` alone.
    pub words: ScenarioArgs<'w>,
    /// The words of the architectures.
    pub queues: &'w [&'w str],
    /// Names of files and folders that are passed over.
    pub skips: &'w [&'w str],
    /// The files and folders; `-` is the input.
    pub paths: &'w [&'w str],
    /// Whether verdicts that pass are left out.
    pub only_races: bool,
    /// Whether notes follow the line of a refusal.
    pub notes: bool,
    /// The number of files that are checked at a time.
    pub jobs: usize,
}

/// A scan with its architectures.
#[derive(Clone, Copy)]
pub(crate) struct Plan<'p> {
    pub args: ScanArgs<'p>,
    pub architectures: &'p [Architecture],
}

impl<'p> Plan<'p> {
    /// The words of the check of a diagram.
    pub fn printing(self) -> ScenarioArgs<'p>
        ensures { result ≡ printing self.entry }
    {
        ScenarioArgs {
            quiet: false,
            ..self.args.words
        }
    }
}

/// What the command line says of links, under an architecture.
pub(crate) fn links_under<'w>(architecture: Architecture, links: LinkWords<'w>) -> LinkWords<'w>
    ensures { result ≡ links_under architecture links.entry }
{
    LinkWords {
        own: architecture.own,
        ..links
    }
}

/// Whether two architectures are the same.
fn same(one: Architecture, other: Architecture) -> bool
    ensures { result ≡ same one other }
{
    if one.own {
        return other.own;
    }
    !other.own && same_kind(one.usual, other.usual)
}

/// Whether an architecture is there.
fn has(found: &[Architecture], architecture: Architecture) -> bool
    ensures { result ≡ list_any (λ it. same it architecture) found.now }
{
    found.iter().any(|it| same(*it, architecture))
}

/// Appends an architecture, unless it is there.
fn put(found: &mut Vec<Architecture>, architecture: Architecture) -> Result<(), AllocError>
    ensures { OnOk result (found.new.items ≡ added found.old.items architecture) }
{
    if has(found.as_slice(), architecture) {
        return Ok(());
    }
    found.push(architecture)?;
    Ok(())
}

/// Appends the architectures of a word: `own`, `all`, or the word of a kind.
fn put_word(found: &mut Vec<Architecture>, word: &str) -> Result<(), AllocError>
    ensures { OnOk result (found.new.items ≡ with_word found.old.items word.now) }
{
    if word == "own" {
        return put(found, Architecture::OWN);
    }
    if word == "all" {
        put(found, Architecture::of(LinkKind::Pair))?;
        put(found, Architecture::of(LinkKind::Mailbox))?;
        return put(found, Architecture::of(LinkKind::Single));
    }
    match LinkKind::of(word) {
        Some(kind) => put(found, Architecture::of(kind)),
        None => Ok(()),
    }
}

/// The architectures that words name, each once; without words, the queues of the texts.
pub(crate) fn architectures_of(
    alloc: Global,
    words: &[&str],
) -> Result<Vec<Architecture>, AllocError>
    ensures { IfOk result (λ found. found.items ≡ architectures_of (words_in words.now)) }
{
    let mut found = Vec::new(alloc);
    for word in words {
        put_word(&mut found, word)?;
    }
    if found.is_empty() {
        found.push(Architecture::OWN)?;
    }
    Ok(found)
}
