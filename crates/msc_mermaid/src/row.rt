//! The table of Mermaid's statements: for each word with which one may begin, the patterns that may
//! follow it, and the meaning of the statement then.

ghost use Rattle.std.specs.Prelude.{◌≡◌, Some};
ghost use Rattle.msc_lexer.specs.Bytes.{begins};
ghost use Rattle.msc_mermaid.specs.Expectations.{closer_word};
ghost use Rattle.msc_mermaid.specs.Rows.{begins_arrow, behind_first_word, first_word, is_dash};
ghost use Rattle.msc_mermaid.specs.Rows.{may_be_name, meaning_of, otherwise, patterns_of};
ghost use Rattle.msc_mermaid.specs.Rows.{said_by_key, says_of};

use crate::head::Head;
use crate::key::Key;
use crate::pattern::{Pattern, first_fit, word_length};
use crate::white::behind_white;
use std::fmt;

/// The kind of a block.
#[derive(Clone, Copy, Debug, PartialEq, Eq)]
pub enum Kind {
    /// One of its branches.
    Alt,
    /// It is there, or is left out.
    Opt,
    /// Some rounds.
    Loop,
    /// It is there and ends the enclosing block, or is left out.
    Break,
    /// Its first branch, and at most one of the others.
    Critical,
    /// All branches, in parallel.
    Par,
    /// As if its words weren't there.
    Plain,
}

/// A word that begins a further branch of a block, or ends the block.
#[derive(Clone, Copy, Debug, PartialEq, Eq)]
pub enum Closer {
    /// A branch of `alt`.
    Else,
    /// A branch of `par`.
    And,
    /// A branch of `critical`.
    Option,
    /// The end of any block.
    End,
}

impl Closer {
    /// The word in small letters.
    fn word(self) -> &'static str
        ensures { result.now ≡ closer_word self }
    {
        match self {
            Closer::Else => "else",
            Closer::And => "and",
            Closer::Option => "option",
            Closer::End => "end",
        }
    }
}

/// Prints the word in small letters.
impl fmt::Display for Closer {
    ghost output = { λ w. Some (closer_word w) };

    fn fmt<W: fmt::Write>(&self, f: &mut fmt::Formatter<W>) -> fmt::Result {
        f.write_str(self.word())
    }
}

/// The meaning of a statement by its first word.
#[derive(Clone, Copy)]
pub(crate) enum Meaning {
    /// Nothing about lines and arrows.
    Nothing,
    /// It is no statement.
    Refused,
    /// A line.
    Declaration,
    /// A line ends.
    Destruction,
    /// A block begins.
    Begin(Kind),
    /// A branch of a block begins, or the block ends.
    Close(Closer),
    /// Nothing but a name.
    Activation,
    /// Nothing but a name before a colon.
    Links,
    /// An arrow, from its beginning on.
    Arrow,
}

/// Whether the bytes begin with a dash.
pub(crate) fn begins_dash(bytes: &[u8]) -> bool
    ensures { result ≡ begins is_dash bytes.now }
{
    match bytes {
        [] => false,
        [first, ..] => *first == b'-',
    }
}

/// Whether the bytes begin with a dash, or with white space and an arrow: a reader takes the word
/// before them for a name.
fn begins_arrow(bytes: &[u8]) -> bool
    ensures { result ≡ begins_arrow bytes.now }
{
    begins_dash(bytes) || Head::of(behind_white(bytes)).is_some()
}

impl Key {
    /// The patterns of which one has to follow the word.
    fn patterns(self) -> &'static [Pattern]
        ensures { result.now ≡ patterns_of self }
    {
        match self {
            Key::Create => &[Pattern::Participant, Pattern::Actor],
            Key::Participant | Key::Actor => &[Pattern::Name],
            Key::Destroy | Key::Activate | Key::Deactivate => &[Pattern::Name],
            Key::End => &[Pattern::Alone],
            Key::Note => &[Pattern::LeftOf, Pattern::RightOf, Pattern::Over],
            Key::Autonumber => &[
                Pattern::Alone,
                Pattern::Off,
                Pattern::Number,
                Pattern::Numbers,
            ],
            Key::Links | Key::Link | Key::Properties | Key::Details => &[Pattern::Text],
            Key::Title => &[Pattern::Text, Pattern::ColonText],
            Key::Over | Key::Off => &[],
            _ => &[Pattern::Anything],
        }
    }

    /// The meaning of the statement then.
    fn meaning(self) -> Meaning
        ensures { result ≡ says_of self }
    {
        match self {
            Key::Create | Key::Participant | Key::Actor => Meaning::Declaration,
            Key::Destroy => Meaning::Destruction,
            Key::Loop => Meaning::Begin(Kind::Loop),
            Key::Alt => Meaning::Begin(Kind::Alt),
            Key::Opt => Meaning::Begin(Kind::Opt),
            Key::Par | Key::ParOver => Meaning::Begin(Kind::Par),
            Key::Critical => Meaning::Begin(Kind::Critical),
            Key::Break => Meaning::Begin(Kind::Break),
            Key::Rect | Key::Box => Meaning::Begin(Kind::Plain),
            Key::Else => Meaning::Close(Closer::Else),
            Key::And => Meaning::Close(Closer::And),
            Key::Option => Meaning::Close(Closer::Option),
            Key::End => Meaning::Close(Closer::End),
            Key::Note | Key::Autonumber | Key::Title => Meaning::Nothing,
            Key::Activate | Key::Deactivate => Meaning::Activation,
            Key::Links | Key::Link | Key::Properties | Key::Details => Meaning::Links,
            Key::Over | Key::Off => Meaning::Refused,
        }
    }

    /// Whether the word may also be a name.
    fn may_be_name(self) -> bool
        ensures { result ≡ may_be_name self }
    {
        matches!(self, Key::Title)
    }

    /// The meaning of the statement if none of the patterns follows the word.
    fn otherwise(self) -> Meaning
        ensures { result ≡ otherwise self }
    {
        if self.may_be_name() {
            Meaning::Arrow
        } else {
            Meaning::Refused
        }
    }

    /// The meaning of the statement by what follows the word, and the bytes after the pattern.
    fn said(self, bytes: &[u8]) -> (Meaning, &[u8])
        ensures { (result.0, result.1.now) ≡ said_by_key self bytes.now }
    {
        if !self.may_be_name() && begins_arrow(bytes) {
            return (Meaning::Refused, bytes);
        }
        match first_fit(self.patterns(), bytes) {
            None => (self.otherwise(), bytes),
            Some(rest) => (self.meaning(), rest),
        }
    }
}

/// The word at the front.
pub(crate) fn first_word(bytes: &[u8]) -> &[u8]
    ensures { result.now ≡ first_word bytes.now }
{
    &bytes[..word_length(bytes)]
}

/// The bytes after the first word.
pub(crate) fn behind_first_word(bytes: &[u8]) -> &[u8]
    ensures { result.now ≡ behind_first_word bytes.now }
{
    &bytes[word_length(bytes)..]
}

/// The meaning of a statement by its first word, and the bytes after the pattern.
#[tactic(auto, unfolding(crate::specs::Rows::meaning_of))]
pub(crate) fn meaning_of(bytes: &[u8]) -> (Meaning, &[u8])
    ensures { (result.0, result.1.now) ≡ meaning_of bytes.now }
{
    if bytes.is_empty() {
        return (Meaning::Nothing, bytes);
    }
    match Key::of(first_word(bytes)) {
        None => (Meaning::Arrow, behind_first_word(bytes)),
        Some(key) => key.said(behind_first_word(bytes)),
    }
}
