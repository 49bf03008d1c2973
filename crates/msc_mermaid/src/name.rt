//! Names of lines.

ghost use Rattle.std.specs.Prelude.{◌≡◌, IfOk};
ghost use Rattle.std.specs.List.{list_any, prefix_len, suffix_len};
ghost use Rattle.msc_mermaid.specs.Gives.{Gives};
ghost use Rattle.msc_mermaid.specs.Names.{central_name, ends_in_dash, holds_barred, is_barred};
ghost use Rattle.msc_mermaid.specs.Names.{is_central, is_joining, is_name, name_at, parted, sender};
ghost use Rattle.msc_mermaid.specs.Rows.{is_dash};

use crate::fault::{Expectation, ImportFault};
use crate::key::Mark;
use crate::seeking::{Sought, holds};
use crate::white::trimmed;
use listed::Listed;
use msc_place::Position;
use std::alloc::{AllocError, Global};

/// These bytes, in new memory.
pub(crate) fn owned(alloc: Global, bytes: &[u8]) -> Result<Listed<u8>, AllocError>
    ensures { IfOk result (λ l. l ≡ bytes.now) }
{
    Ok(Listed::from_vec(Vec::from_slice(alloc, bytes)?))
}

/// Whether no name has this byte. The semicolons of a statement belong to its entities.
fn is_barred(byte: u8) -> bool
    ensures { result ≡ is_barred byte }
{
    matches!(byte, b'+' | b'<' | b'=' | b'>' | b':' | b',')
}

/// Whether the bytes have such a byte.
fn has_barred(bytes: &[u8]) -> bool
    ensures { result ≡ list_any is_barred bytes.now }
{
    bytes.iter().any(|byte| is_barred(*byte))
}

/// Whether the bytes have a text that no name has.
fn holds_barred(bytes: &[u8]) -> bool
    ensures { result ≡ holds_barred bytes.now }
{
    holds(bytes, Sought::Text(Mark::Comment))
        || holds(bytes, Sought::Text(Mark::Centre))
        || holds(bytes, Sought::Text(Mark::DashSlash))
        || holds(bytes, Sought::Text(Mark::DashBackslash))
        || holds(bytes, Sought::Text(Mark::DashBar))
}

/// The number of dashes at the front.
fn dashes_in_front(bytes: &[u8]) -> usize
    ensures { result ≡ prefix_len is_dash bytes.now }
{
    bytes.iter().take_while(|byte| **byte == b'-').count()
}

/// The number of dashes at the end.
fn dashes_at_end(bytes: &[u8]) -> usize
    ensures { result ≡ suffix_len is_dash bytes.now }
{
    bytes.iter().rev().take_while(|byte| **byte == b'-').count()
}

/// Whether the bytes begin or end with a dash.
fn ends_in_dash(bytes: &[u8]) -> bool
    ensures { result ≡ ends_in_dash bytes.now }
{
    dashes_in_front(bytes) > 0 || dashes_at_end(bytes) > 0
}

/// Whether the bytes are a name.
pub(crate) fn is_name(bytes: &[u8]) -> bool
    ensures { result ≡ is_name bytes.now }
{
    !(bytes.is_empty() || has_barred(bytes) || holds_barred(bytes) || ends_in_dash(bytes))
}

/// The name that these bytes are, without white space at both ends.
#[tactic(auto, unfolding(crate::specs::Names::name_at))]
pub(crate) fn name_at(here: Position, bytes: &[u8]) -> Result<&[u8], ImportFault>
    ensures { Gives (λ x. x.now) result (name_at here bytes.now) }
{
    let name = trimmed(bytes);
    if !is_name(name) {
        return Err(ImportFault::Expected(here, Expectation::Name));
    }
    Ok(name)
}

/// Whether no name before `()` has this byte, since `()` would be a part of the name.
fn is_joining(byte: u8) -> bool
    ensures { result ≡ is_joining byte }
{
    matches!(byte, b'-' | b'/' | b'\\' | b'(')
}

/// Whether the bytes have such a byte.
fn has_joining(bytes: &[u8]) -> bool
    ensures { result ≡ list_any is_joining bytes.now }
{
    bytes.iter().any(|byte| is_joining(*byte))
}

/// Whether the bytes end with `()`.
fn is_central(bytes: &[u8]) -> bool
    ensures { result ≡ is_central bytes.now }
{
    &bytes[bytes.len().saturating_sub(2)..] == "()".as_bytes()
}

/// The name before `()`.
#[tactic(auto, unfolding(crate::specs::Names::central_name))]
fn central_name(here: Position, bytes: &[u8]) -> Result<&[u8], ImportFault>
    ensures { Gives (λ x. x.now) result (central_name here bytes.now) }
{
    let name = name_at(here, bytes)?;
    if has_joining(name) {
        return Err(ImportFault::Expected(here, Expectation::Name));
    }
    Ok(name)
}

/// The name before an arrow, with `()` or without.
#[tactic(auto, unfolding(crate::specs::Names::sender))]
pub(crate) fn sender(here: Position, bytes: &[u8]) -> Result<&[u8], ImportFault>
    ensures { Gives (λ x. x.now) result (sender here bytes.now) }
{
    let front = trimmed(bytes);
    if is_central(front) {
        central_name(here, &front[..front.len().saturating_sub(2)])
    } else {
        name_at(here, front)
    }
}

/// The bytes before a mark, and the bytes after it.
#[tactic(auto, unfolding(crate::specs::Names::parted))]
pub(crate) fn parted(
    here: Position,
    mark: Mark,
    expected: Expectation,
    bytes: &[u8],
) -> Result<(&[u8], &[u8]), ImportFault>
    ensures { Gives (λ x. (x.0.now, x.1.now)) result (parted here mark expected bytes.now) }
{
    let at = Sought::Text(mark).before(bytes);
    if at == bytes.len() {
        return Err(ImportFault::Expected(here, expected));
    }
    Ok((&bytes[..at], mark.behind(&bytes[at..])))
}
