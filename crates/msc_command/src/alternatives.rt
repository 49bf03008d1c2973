//! The words that options and arguments take one of.

ghost use Rattle.std.specs.Prelude.{◌≡◌, IfOk, map};
ghost use Rattle.msc_command.specs.Grammar.{architecture_words, format_words, kind_words};
ghost use Rattle.msc_command.specs.Words.{color_words, cross_words, language_words, own_words};
ghost use Rattle.msc_command.specs.Words.{par_words, scan_format_words, scan_queue_words};
ghost use Rattle.msc_command.specs.Words.{shell_words, stick_format_words};

use crate::words::ValueKind;
use msc_answer::Format;
use msc_chart::LinkKind;
use msc_reason::RaceKind;
use std::alloc::{AllocError, Global};

/// The words that an option takes one of, and what the help shows for it.
#[derive(Clone, Copy)]
pub(crate) struct Alternatives<'a> {
    pub words: &'a [&'a str],
    pub shown: &'a str,
}

/// Alternatives that own their words.
#[derive(Drop)]
struct Choice {
    words: Vec<&'static str>,
    shown: String,
}

impl Choice {
    /// These words, with what the help shows for them.
    fn of(alloc: Global, words: Vec<&'static str>) -> Result<Choice, AllocError>
        ensures { IfOk result (λ choice. choice.words.items ≡ words.entry.items) }
    {
        let shown = joined(alloc, words.as_slice())?;
        Ok(Choice { words, shown })
    }

    /// The same words, borrowed.
    fn alternatives(&self) -> Alternatives<'_>
        ensures { result.words.now ≡ self.now.words.items }
    {
        Alternatives {
            words: self.words.as_slice(),
            shown: self.shown.as_str(),
        }
    }
}

/// Words with a `|` between them.
fn joined(alloc: Global, words: &[&str]) -> Result<String, AllocError> {
    let mut text = String::new(alloc);
    for word in words {
        if !text.is_empty() {
            text.push('|')?;
        }
        text.push_str(word)?;
    }
    Ok(text)
}

/// The words for the architectures.
fn architecture_words(alloc: Global) -> Result<Vec<&'static str>, AllocError>
    ensures { IfOk result (λ words. map (λ word. word.now) words.items ≡ architecture_words) }
{
    let mut words = Vec::new(alloc);
    for kind in LinkKind::ALL {
        words.push(kind.word())?;
    }
    words.push("own")?;
    Ok(words)
}

/// The words of the kinds of races.
fn kind_words(alloc: Global) -> Result<Vec<&'static str>, AllocError>
    ensures { IfOk result (λ words. map (λ word. word.now) words.items ≡ kind_words) }
{
    let mut words = Vec::new(alloc);
    for kind in RaceKind::ALL {
        words.push(kind.word())?;
    }
    Ok(words)
}

/// The words of the forms of an answer.
fn format_words(alloc: Global) -> Result<Vec<&'static str>, AllocError>
    ensures { IfOk result (λ words. map (λ word. word.now) words.items ≡ format_words) }
{
    let mut words = Vec::new(alloc);
    for format in Format::ALL {
        words.push(format.word())?;
    }
    Ok(words)
}

/// The words of the formats of answers on ready instances.
fn stick_format_words() -> Alternatives<'static>
    ensures { map (λ word. word.now) result.words.now ≡ stick_format_words }
{
    Alternatives {
        words: &["text", "count", "lines", "full"],
        shown: "text|count|lines|full",
    }
}

/// The words of the architectures of a scan.
fn scan_queue_words() -> Alternatives<'static>
    ensures { map (λ word. word.now) result.words.now ≡ scan_queue_words }
{
    Alternatives {
        words: &["own", "all", "pair", "mailbox", "single"],
        shown: "own|all|pair|mailbox|single",
    }
}

/// The words of the formats of a scan.
fn scan_format_words() -> Alternatives<'static>
    ensures { map (λ word. word.now) result.words.now ≡ scan_format_words }
{
    Alternatives {
        words: &["full", "text", "count", "lines"],
        shown: "full|text|count|lines",
    }
}

/// The words for whether there are colours.
fn color_words() -> Alternatives<'static>
    ensures { map (λ word. word.now) result.words.now ≡ color_words }
{
    Alternatives {
        words: &["auto", "always", "never"],
        shown: "auto|always|never",
    }
}

/// The words of the languages of texts.
fn language_words() -> Alternatives<'static>
    ensures { map (λ word. word.now) result.words.now ≡ language_words }
{
    Alternatives {
        words: &["mermaid", "any"],
        shown: "mermaid|any",
    }
}

/// The words for arrows to oneself.
fn own_words() -> Alternatives<'static>
    ensures { map (λ word. word.now) result.words.now ≡ own_words }
{
    Alternatives {
        words: &["action", "message"],
        shown: "action|message",
    }
}

/// The words for arrows with a cross.
fn cross_words() -> Alternatives<'static>
    ensures { map (λ word. word.now) result.words.now ≡ cross_words }
{
    Alternatives {
        words: &["lost", "arrives"],
        shown: "lost|arrives",
    }
}

/// The word for parallel branches that are no coregion.
fn par_words() -> Alternatives<'static>
    ensures { map (λ word. word.now) result.words.now ≡ par_words }
{
    Alternatives {
        words: &["drawn"],
        shown: "drawn",
    }
}

/// The words of the shells.
fn shell_words() -> Alternatives<'static>
    ensures { map (λ word. word.now) result.words.now ≡ shell_words }
{
    Alternatives {
        words: &["bash", "zsh", "fish"],
        shown: "bash|zsh|fish",
    }
}

/// The words that options take one of, each list made once.
#[derive(Drop)]
pub(crate) struct Lists {
    architectures: Choice,
    kinds: Choice,
    formats: Choice,
}

/// The same words, borrowed.
#[derive(Clone, Copy)]
pub(crate) struct Choices<'a> {
    pub architectures: Alternatives<'a>,
    pub kinds: Alternatives<'a>,
    pub formats: Alternatives<'a>,
    pub stick_formats: Alternatives<'a>,
    pub scan_queues: Alternatives<'a>,
    pub scan_formats: Alternatives<'a>,
    pub colors: Alternatives<'a>,
    pub languages: Alternatives<'a>,
    pub owns: Alternatives<'a>,
    pub crosses: Alternatives<'a>,
    pub pars: Alternatives<'a>,
    pub shells: Alternatives<'a>,
}

impl<'a> Choices<'a> {
    /// The words that an option or an argument of a kind takes one of, if there are such.
    pub fn of(self, kind: ValueKind) -> Option<&'a [&'a str]> {
        match kind {
            ValueKind::Architecture | ValueKind::ArchitectureIfAny => Some(
                self.architectures.words,
            ),
            ValueKind::Kinds => Some(self.kinds.words),
            ValueKind::Format => Some(self.formats.words),
            ValueKind::FormatSticks => Some(self.stick_formats.words),
            ValueKind::Architectures => Some(self.scan_queues.words),
            ValueKind::ScanFormat => Some(self.scan_formats.words),
            ValueKind::Color => Some(self.colors.words),
            ValueKind::Language => Some(self.languages.words),
            ValueKind::Own => Some(self.owns.words),
            ValueKind::Cross => Some(self.crosses.words),
            ValueKind::Par => Some(self.pars.words),
            ValueKind::Shell => Some(self.shells.words),
            _ => None,
        }
    }
}

impl Lists {
    /// All words that options take one of. An error is a growth of memory that was refused.
    pub fn of(alloc: Global) -> Result<Lists, AllocError>
        ensures architectures { IfOk result (λ lists.
            map (λ word. word.now) lists.architectures.words.items ≡ architecture_words) }
        ensures kinds { IfOk result (λ lists.
            map (λ word. word.now) lists.kinds.words.items ≡ kind_words) }
        ensures formats { IfOk result (λ lists.
            map (λ word. word.now) lists.formats.words.items ≡ format_words) }
    {
        let architectures = Choice::of(alloc, architecture_words(alloc)?)?;
        let kinds = Choice::of(alloc, kind_words(alloc)?)?;
        let formats = Choice::of(alloc, format_words(alloc)?)?;
        Ok(Lists {
            architectures,
            kinds,
            formats,
        })
    }

    /// The same words, borrowed.
    pub fn choices(&self) -> Choices<'_>
        ensures architectures { result.architectures.words.now ≡ self.now.architectures.words.items }
        ensures kinds { result.kinds.words.now ≡ self.now.kinds.words.items }
        ensures formats { result.formats.words.now ≡ self.now.formats.words.items }
        ensures stick_formats { map (λ word. word.now) result.stick_formats.words.now
            ≡ stick_format_words }
        ensures scan_queues { map (λ word. word.now) result.scan_queues.words.now
            ≡ scan_queue_words }
        ensures scan_formats { map (λ word. word.now) result.scan_formats.words.now
            ≡ scan_format_words }
        ensures colors { map (λ word. word.now) result.colors.words.now ≡ color_words }
        ensures languages { map (λ word. word.now) result.languages.words.now ≡ language_words }
        ensures owns { map (λ word. word.now) result.owns.words.now ≡ own_words }
        ensures crosses { map (λ word. word.now) result.crosses.words.now ≡ cross_words }
        ensures pars { map (λ word. word.now) result.pars.words.now ≡ par_words }
        ensures shells { map (λ word. word.now) result.shells.words.now ≡ shell_words }
    {
        Choices {
            architectures: self.architectures.alternatives(),
            kinds: self.kinds.alternatives(),
            formats: self.formats.alternatives(),
            stick_formats: stick_format_words(),
            scan_queues: scan_queue_words(),
            scan_formats: scan_format_words(),
            colors: color_words(),
            languages: language_words(),
            owns: own_words(),
            crosses: cross_words(),
            pars: par_words(),
            shells: shell_words(),
        }
    }
}
