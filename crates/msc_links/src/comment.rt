//! The queues that a text names itself, in a comment.
//!
//! QUEUES is `queues ARCH`, where ARCH is the word for a kind, and then any number of clauses, each
//! after a semicolon: `KIND LINK, LINK..` or `serves NAME, NAME..`. Blanks around each part are
//! ignored, and kinds are in small letters. An example is
//! `queues pair; mailbox worker; single radio>base, base>radio`.
//!
//! Whether a LINK has one of its forms and its names are known is not looked at here: that is for
//! [`queues_of`](crate::queues_of).

ghost use Rattle.std.specs.Prelude.{◌≡◌, ◌++◌, ◌≤◌, IfOk, MatchResult, Some, bytes_eq, codes, false};
ghost use Rattle.std.specs.Prelude.{◌&&◌, ◌||◌, ◌==◌, drop, length, map, nat_eq, not};
ghost use Rattle.std.specs.List.{slice_split, starts_with};
ghost use Rattle.std.specs.List.{after_first, before_first, list_any, position_or_len};
ghost use Rattle.msc_chart.specs.Architectures.{link_kind_of_word};
ghost use Rattle.msc_links.specs.declared.comment.OwnFault.TheVariants.{Expected, Memory};
ghost use Rattle.msc_links.specs.Blanks.{is_blank};
ghost use Rattle.msc_links.specs.Comments.{HasTaken, is_clause, is_empty, is_near, is_slip};
ghost use Rattle.msc_links.specs.Comments.{own_reading, own_text, parts_by, plain_rules, reading_of};
ghost use Rattle.msc_links.specs.Comments.{reading_of_kind, reading_of_word, rules_by, says};
ghost use Rattle.msc_links.specs.Comments.{chart_reading_of, has_serving, is_serving, unreadable};
ghost use Rattle.msc_links.specs.Comments.{word_of};

use crate::blank::{is_blank, trimmed};
use crate::rule::Rule;
use msc_chart::LinkKind;
use std::alloc::{AllocError, AllocFailed, Global};
use strsim::generic_levenshtein;

/// What a text says about its queues.
#[derive(Drop)]
pub struct OwnQueues<'t> {
    /// The kind of the links that no rule names.
    pub usual: LinkKind,
    /// The rules, in order.
    pub rules: Vec<Rule<'t>>,
    /// The names of the instances that serve each request on their own, in order.
    pub serves: Vec<&'t [u8]>,
}

/// Why the queues of a comment cannot be read.
#[derive(Clone, Copy, Debug, PartialEq, Eq)]
pub enum OwnFault {
    /// The comment begins as one about queues, and cannot be read to its end.
    Expected,
    /// A growth of memory was refused.
    Memory,
}

impl From<AllocError> for OwnFault {
    ghost from_gives = { λ _ e. e ≡ Memory };

    fn from(_e: AllocError) -> OwnFault {
        OwnFault::Memory
    }
}

impl<T: Drop> From<AllocFailed<T>> for OwnFault {
    ghost from_gives = { λ _ e. e ≡ Memory };

    fn from(_e: AllocFailed<T>) -> OwnFault {
        OwnFault::Memory
    }
}

/// The pieces between separators.
fn pieces(alloc: Global, separator: u8, text: &[u8]) -> Result<Vec<&[u8]>, AllocError>
    ensures { IfOk result (λ pieces. map (λ piece. piece.now) pieces.items
        ≡ slice_split (λ byte. byte == separator) text.now) }
{
    text.split(|byte| *byte == separator).collect(alloc)
}

/// The parts between separators, without the blanks around each.
fn parts_by(alloc: Global, separator: u8, text: &[u8]) -> Result<Vec<&[u8]>, AllocError>
    ensures { IfOk result (λ parts.
        map (λ part. part.now) parts.items ≡ parts_by separator text.now) }
{
    let pieces = pieces(alloc, separator, text)?;
    let mut parts = Vec::new(alloc);
    for piece in pieces.as_slice() {
        parts.push(trimmed(piece))?;
    }
    Ok(parts)
}

/// Whether one of the texts is empty.
fn has_empty(texts: &[&[u8]]) -> bool
    ensures { result ≡ list_any (λ text. is_empty text.now) texts.now }
{
    texts.iter().any(|text| text.is_empty())
}

/// The length of the first word.
fn word_length(text: &[u8]) -> usize
    ensures length { result ≡ position_or_len is_blank text.now }
    ensures within { result ≤ length text.now }
{
    text.iter().take_while(|byte| !is_blank(**byte)).count()
}

/// The first word.
fn first_word(text: &[u8]) -> &[u8]
    ensures { result.now ≡ before_first is_blank text.now }
{
    &text[..word_length(text)]
}

/// What follows the first word and a blank.
fn after_word(text: &[u8]) -> &[u8]
    ensures { result.now ≡ after_first is_blank text.now }
{
    let length = word_length(text);
    if length == text.len() {
        return &[];
    }
    &text[length + 1..]
}

/// The kind with this word, in small letters.
#[tactic(auto, unfolding(msc_chart::specs::Architectures::link_kind_of_word))]
fn kind_of(word: &[u8]) -> Option<LinkKind>
    ensures { result ≡ link_kind_of_word word.now }
{
    if word == "pair".as_bytes() {
        return Some(LinkKind::Pair);
    }
    if word == "mailbox".as_bytes() {
        return Some(LinkKind::Mailbox);
    }
    if word == "single".as_bytes() {
        return Some(LinkKind::Single);
    }
    None
}

/// Whether the text has a blank.
fn has_blank(text: &[u8]) -> bool
    ensures { result ≡ list_any is_blank text.now }
{
    text.iter().any(|byte| is_blank(*byte))
}

/// Whether two words are at most two changes apart.
fn is_near(alloc: Global, word: &[u8], other: &[u8]) -> Result<bool, AllocError>
    ensures { IfOk result (λ near. near ≡ is_near word.now other.now) }
{
    let changes = generic_levenshtein(alloc, word, other)?;
    Ok(changes <= 2)
}

/// Whether a text is one word, at most two changes from the word for a kind.
fn is_slip(alloc: Global, text: &[u8]) -> Result<bool, AllocError>
    ensures { IfOk result (λ slip. slip ≡ is_slip text.now) }
{
    let blank = has_blank(text);
    let pair = is_near(alloc, text, "pair".as_bytes())?;
    let mailbox = is_near(alloc, text, "mailbox".as_bytes())?;
    let single = is_near(alloc, text, "single".as_bytes())?;
    Ok(is_one_near(blank, pair, mailbox, single))
}

/// Whether a text without a blank is near one of three words.
fn is_one_near(blank: bool, first: bool, second: bool, third: bool) -> bool
    ensures { result ≡ (not blank && (first || second || third)) }
{
    !blank && (first || second || third)
}

/// The rules of a clause: its links get its kind.
fn put_rules<'t>(
    rules: &mut Vec<Rule<'t>>,
    kind: LinkKind,
    links: &[&'t [u8]],
) -> Result<(), OwnFault>
    ensures { MatchResult result
        (λ _. plain_rules rules.new.items
        ≡ plain_rules rules.old.items ++ rules_by (Some kind) (map (λ link. link.now) links.now))
        (λ fault. fault ≡ Memory) }
{
    for link in links {
        rules.push(Rule { kind, link: *link })?;
    }
    Ok(())
}

/// The names of a clause.
fn put_names<'t>(serves: &mut Vec<&'t [u8]>, names: &[&'t [u8]]) -> Result<(), OwnFault>
    ensures { MatchResult result
        (λ _. map (λ name. name.now) serves.new.items
        ≡ map (λ name. name.now) serves.old.items ++ map (λ name. name.now) names.now)
        (λ fault. fault ≡ Memory) }
{
    for name in names {
        serves.push(*name)?;
    }
    Ok(())
}

/// Adds what a clause says.
fn put_clause<'t>(alloc: Global, own: &mut OwnQueues<'t>, clause: &'t [u8]) -> Result<(), OwnFault>
    ensures { MatchResult result
        (λ _. HasTaken own.old own.new clause.now)
        (λ fault. (fault ≡ Expected) → is_clause clause.now ≡ false) }
{
    let items = parts_by(alloc, b',', after_word(clause))?;
    if has_empty(&items) {
        return Err(OwnFault::Expected);
    }
    let word = first_word(clause);
    if word == "serves".as_bytes() {
        put_names(&mut own.serves, &items)?;
        return Ok(());
    }
    let Some(kind) = kind_of(word) else {
        return Err(OwnFault::Expected);
    };
    put_rules(&mut own.rules, kind, &items)?;
    Ok(())
}

/// What a comment says that begins with `queues` and this kind.
fn own_of_kind<'t>(
    alloc: Global,
    usual: LinkKind,
    clauses: &[&'t [u8]],
) -> Result<OwnQueues<'t>, OwnFault>
    ensures { MatchResult result
        (λ own. says (own_text own) ≡ reading_of_kind usual (map (λ clause. clause.now) clauses.now))
        (λ fault. (fault ≡ Expected)
        → reading_of_kind usual (map (λ clause. clause.now) clauses.now) ≡ unreadable) }
{
    let mut own = OwnQueues {
        usual,
        rules: Vec::new(alloc),
        serves: Vec::new(alloc),
    };
    for clause in clauses {
        match put_clause(alloc, &mut own, *clause) {
            Ok(()) => {}
            Err(fault) => return Err(fault),
        }
    }
    Ok(own)
}

/// Whether a part begins with `queues` and a blank.
fn begins_with_queues(part: &[u8]) -> bool
    ensures { result ≡ starts_with nat_eq part.now (codes "queues ") }
{
    part.starts_with("queues ".as_bytes())
}

/// The bytes after the first `count`.
fn after(bytes: &[u8], count: usize) -> &[u8]
    ensures { result.now ≡ drop count bytes.now }
{
    if count > bytes.len() {
        return &[];
    }
    &bytes[count..]
}

/// The word after `queues`.
#[tactic(auto, unfolding(crate::specs::Comments::word_of))]
fn word_of(part: &[u8]) -> &[u8]
    ensures { result.now ≡ word_of part.now }
{
    trimmed(after(part, 7))
}

/// What a comment says whose first part is `queues` and this word.
fn own_of_word<'t>(
    alloc: Global,
    word: &[u8],
    clauses: &[&'t [u8]],
) -> Result<Option<OwnQueues<'t>>, OwnFault>
    ensures { MatchResult result
        (λ own. own_reading own ≡ reading_of_word word.now (link_kind_of_word word.now)
        (map (λ clause. clause.now) clauses.now))
        (λ fault. (fault ≡ Expected) → reading_of_word word.now (link_kind_of_word word.now)
        (map (λ clause. clause.now) clauses.now) ≡ unreadable) }
{
    if let Some(usual) = kind_of(word) {
        return Ok(Some(own_of_kind(alloc, usual, clauses)?));
    }
    if is_slip(alloc, word)? {
        return Err(OwnFault::Expected);
    }
    Ok(None)
}

/// What a comment says about the queues of its text, if it says something.
///
/// The comment has parts, which semicolons separate, and blanks around each part are ignored. The
/// first is `queues ARCH`, where ARCH is the word for a kind. Each further one is a clause: a kind
/// and LINKs, or `serves` and names, which commas separate. No LINK and no name is empty. A comment
/// whose first part is not `queues` and one word that is a kind, or at most two changes from one,
/// says nothing.
///
/// # Errors
///
/// `Expected` if the word after `queues` is not a kind but at most two changes from one, or if it
/// is a kind and some further part is not a clause. `Memory` may come at any growth.
pub fn own_queues(alloc: Global, comment: &[u8]) -> Result<Option<OwnQueues<'_>>, OwnFault>
    ensures { MatchResult result
        (λ own. own_reading own ≡ reading_of comment.now)
        (λ fault. (fault ≡ Expected) → reading_of comment.now ≡ unreadable) }
{
    let parts = parts_by(alloc, b';', comment)?;
    let [head, clauses @ ..] = parts.as_slice() else {
        return Ok(None);
    };
    if !begins_with_queues(head) {
        return Ok(None);
    }
    own_of_word(alloc, word_of(head), clauses)
}

/// Whether a clause begins with `serves`.
fn is_serving(clause: &[u8]) -> bool
    ensures { result ≡ is_serving clause.now }
{
    first_word(clause) == "serves".as_bytes()
}

/// Whether a part of a comment begins with `serves`.
fn has_serving(alloc: Global, comment: &[u8]) -> Result<bool, AllocError>
    ensures { IfOk result (λ has. has ≡ has_serving comment.now) }
{
    let parts = parts_by(alloc, b';', comment)?;
    Ok(has_serving_in(&parts))
}

/// Whether one of the parts begins with `serves`.
fn has_serving_in(parts: &[&[u8]]) -> bool
    ensures { result ≡ list_any (λ part. is_serving part.now) parts.now }
{
    parts.iter().any(|part| is_serving(part))
}

/// What a comment of a chart says about the queues of its text, if it says something. It reads as
/// [`own_queues`] says, except that a chart has no instances that serve: a clause that begins with
/// `serves` cannot be read.
///
/// # Errors
///
/// `Expected` where [`own_queues`] has it, and if the comment says something and some part begins
/// with `serves`. `Memory` may come at any growth.
pub fn own_queues_of_chart(alloc: Global, comment: &[u8]) -> Result<Option<OwnQueues<'_>>, OwnFault>
    ensures { MatchResult result
        (λ own. own_reading own ≡ chart_reading_of comment.now)
        (λ fault. (fault ≡ Expected) → chart_reading_of comment.now ≡ unreadable) }
{
    let own = match own_queues(alloc, comment) {
        Ok(Some(own)) => own,
        Ok(None) => return Ok(None),
        Err(fault) => return Err(fault),
    };
    if has_serving(alloc, comment)? {
        return Err(OwnFault::Expected);
    }
    Ok(Some(own))
}
