//! The meaning of one statement of Mermaid.

ghost use Rattle.std.specs.Prelude.{◌≡◌};
ghost use Rattle.msc_lexer.specs.Bytes.{begins};
ghost use Rattle.msc_mermaid.specs.Gives.{Gives};
ghost use Rattle.msc_mermaid.specs.Saying.{arrow_by, arrow_of, behind_sign, dies, is_sign};
ghost use Rattle.msc_mermaid.specs.Saying.{fate_of, no_second, no_tails, said_as, said_at};

use crate::declaring::{Tails, declared, name_tail, shown_text};
use crate::fault::{Expectation, ImportFault};
use crate::head::Head;
use crate::key::Mark;
use crate::name::{name_at, owned, parted, sender};
use crate::row::{Meaning, begins_dash, meaning_of};
use crate::seeking::Sought;
use crate::statement::{Arrow, Cross, Fate, Statement};
use crate::white::behind_white;
use listed::Listed;
use msc_place::Position;
use std::alloc::Global;

/// The effect of a statement on the diagram.
#[derive(Drop)]
pub(crate) enum Said {
    /// Nothing.
    Nothing,
    /// The line of this name ends with the next arrow.
    Dies(Listed<u8>),
    /// A statement, and the numbers of its bytes from the parts that it names and shows on.
    Statement(Statement, Tails),
}

/// The state that the statements before one leave for it: the meaning of crosses, and the lines
/// that end with the next arrow.
#[derive(Clone, Copy)]
pub(crate) struct Mode<'m> {
    pub cross: Option<Cross>,
    pub dying: &'m [Listed<u8>],
}

/// The bytes after an arrow, if they are no other arrow that begins with a dash.
#[tactic(auto, unfolding(crate::specs::Saying::no_second))]
fn no_second(here: Position, bytes: &[u8]) -> Result<&[u8], ImportFault>
    ensures { Gives (λ x. x.now) result (no_second here bytes.now) }
{
    if begins_dash(bytes) && Head::of(bytes).is_some() {
        return Err(ImportFault::Expected(here, Expectation::Name));
    }
    Ok(bytes)
}

/// Whether the bytes begin with the sign of an activation.
fn begins_sign(bytes: &[u8]) -> bool
    ensures { result ≡ begins is_sign bytes.now }
{
    match bytes {
        [] => false,
        [first, ..] => *first == b'+' || *first == b'-',
    }
}

/// The bytes after the sign of an activation or `()`, if they begin with one of them.
fn behind_sign(bytes: &[u8]) -> &[u8]
    ensures { result.now ≡ behind_sign bytes.now }
{
    if !bytes.is_empty() && begins_sign(bytes) {
        return &bytes[1..];
    }
    if Mark::Centre.begins(bytes) {
        return &bytes[2..];
    }
    bytes
}

/// Whether one of these lines ends with the arrow between two.
fn dies(dying: &[Listed<u8>], from: &[u8], to: &[u8]) -> bool
    ensures { result ≡ dies dying.now from.now to.now }
{
    dying
        .iter()
        .any(|line| line.as_slice() == from || line.as_slice() == to)
}

/// The fate of the message of an arrow.
#[tactic(auto, unfolding(crate::specs::Saying::fate_of))]
fn fate_of(cross: Option<Cross>, dying: &[Listed<u8>], head: Head, from: &[u8], to: &[u8]) -> Fate
    ensures { result ≡ fate_of cross dying.now head from.now to.now }
{
    if !head.is_crossed() || dies(dying, from, to) {
        return Fate::Arrives;
    }
    match cross {
        Some(Cross::Lost) => Fate::Lost,
        Some(Cross::Arrives) => Fate::Arrives,
        None if from == to => Fate::Arrives,
        None => Fate::Either,
    }
}

/// The arrow of these parts, the bytes before its head and the bytes after it, with the numbers of
/// bytes from its receiver and from its label on.
#[tactic(auto, unfolding(crate::specs::Saying::arrow_by))]
fn arrow_by(
    alloc: Global,
    mode: Mode,
    here: Position,
    head: Head,
    front: &[u8],
    rest: &[u8],
) -> Result<(Arrow, Tails), ImportFault>
    ensures { Gives (λ x. x) result
        (arrow_by mode.entry.cross mode.entry.dying.now here head front.now rest.now) }
{
    if head.is_leftward() {
        return Err(ImportFault::Unsupported(here, head));
    }
    let from = sender(here, front)?;
    let behind = no_second(here, behind_white(rest))?;
    let named = behind_sign(behind);
    let parts = parted(here, Mark::Colon, Expectation::Label, named)?;
    let to = name_at(here, parts.0)?;
    let fate = fate_of(mode.cross, mode.dying, head, from, to);
    let label = shown_text(alloc, parts.1)?;
    let tails = Tails {
        name: name_tail(named, parts.0),
        shown: label.tail,
    };
    let arrow = Arrow {
        from: owned(alloc, from)?,
        to: owned(alloc, to)?,
        label: label.text,
        fate,
        both: head.is_double(),
    };
    Ok((arrow, tails))
}

/// The places of a statement that names no line and shows no text.
fn no_tails() -> Tails
    ensures { result ≡ no_tails }
{
    Tails { name: 0, shown: 0 }
}

/// The arrow of a statement.
#[tactic(auto, unfolding(crate::specs::Saying::arrow_of))]
fn arrow_of(
    alloc: Global,
    mode: Mode,
    here: Position,
    bytes: &[u8],
) -> Result<(Arrow, Tails), ImportFault>
    ensures { Gives (λ x. x) result (arrow_of mode.entry.cross mode.entry.dying.now here bytes.now) }
{
    let at = Sought::Arrow.before(bytes);
    match Head::of(&bytes[at..]) {
        None => Err(ImportFault::Expected(here, Expectation::Statement)),
        Some(head) => arrow_by(
            alloc,
            mode,
            here,
            head,
            &bytes[..at],
            &bytes[at + head.length()..],
        ),
    }
}

/// The effect of a statement with this meaning, and with these bytes after its pattern.
#[tactic(auto, unfolding(crate::specs::Saying::said_as))]
fn said_as(
    alloc: Global,
    mode: Mode,
    here: Position,
    bytes: &[u8],
    meaning: Meaning,
    rest: &[u8],
) -> Result<Said, ImportFault>
    ensures { Gives (λ x. x) result
        (said_as mode.entry.cross mode.entry.dying.now here bytes.now meaning rest.now) }
{
    match meaning {
        Meaning::Nothing => Ok(Said::Nothing),
        Meaning::Refused => Err(ImportFault::Expected(here, Expectation::Statement)),
        Meaning::Declaration => {
            let (statement, tails) = declared(alloc, here, rest)?;
            Ok(Said::Statement(statement, tails))
        }
        Meaning::Destruction => Ok(Said::Dies(owned(alloc, name_at(here, rest)?)?)),
        Meaning::Begin(kind) => Ok(Said::Statement(Statement::Begins(kind), no_tails())),
        Meaning::Close(closer) => Ok(Said::Statement(Statement::Closes(closer), no_tails())),
        Meaning::Activation => {
            name_at(here, rest)?;
            Ok(Said::Nothing)
        }
        Meaning::Links => {
            let parts = parted(here, Mark::Colon, Expectation::Statement, rest)?;
            name_at(here, parts.0)?;
            Ok(Said::Nothing)
        }
        Meaning::Arrow => {
            let (arrow, tails) = arrow_of(alloc, mode, here, bytes)?;
            Ok(Said::Statement(Statement::Says(arrow), tails))
        }
    }
}

/// The effect of a statement, after statements that say which lines end.
#[tactic(auto, unfolding(crate::specs::Saying::said_at))]
pub(crate) fn said_at(
    alloc: Global,
    mode: Mode,
    here: Position,
    bytes: &[u8],
) -> Result<Said, ImportFault>
    ensures { Gives (λ x. x) result (said_at mode.entry.cross mode.entry.dying.now here bytes.now) }
{
    let (meaning, rest) = meaning_of(bytes);
    said_as(alloc, mode, here, bytes, meaning, rest)
}
