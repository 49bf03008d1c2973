//! The first place at which something is found.

ghost use Rattle.std.specs.Prelude.{◌≡◌, ◌≤◌, length, take};
ghost use Rattle.msc_mermaid.specs.Seeking.{before, entity_in, from_entity, holds, is_alias, is_here};

use crate::head::Head;
use crate::key::Mark;
use crate::markup::markup_entity;
use crate::white::{begins_white, behind_one};

/// The part that is searched.
#[derive(Clone, Copy)]
pub(crate) enum Sought {
    /// A text.
    Text(Mark),
    /// An arrow.
    Arrow,
    /// White space, `as` and white space.
    Alias,
    /// An entity of HTML.
    Entity,
}

/// Whether the bytes begin with `as` and white space.
pub(crate) fn is_alias(bytes: &[u8]) -> bool
    ensures { result ≡ is_alias bytes.now }
{
    Mark::As.begins(bytes) && begins_white(&bytes[2..])
}

impl Sought {
    /// Whether the bytes begin with it.
    fn is_here(self, bytes: &[u8]) -> bool
        ensures { result ≡ is_here self bytes.now }
    {
        match self {
            Sought::Text(mark) => mark.begins(bytes),
            Sought::Arrow => Head::of(bytes).is_some(),
            Sought::Alias => begins_white(bytes) && is_alias(behind_one(bytes)),
            Sought::Entity => markup_entity(bytes) > 0,
        }
    }

    /// The number of bytes before the first place at which it is found, or of all bytes if there is
    /// none.
    pub(crate) fn before(self, bytes: &[u8]) -> usize
        ensures value { result ≡ before self bytes.now }
        ensures within { result ≤ length bytes.now }
    {
        for i in 0..bytes.len() {
            if self.is_here(&bytes[i..]) {
                return i;
            }
        }
        bytes.len()
    }
}

/// Whether the bytes have it.
pub(crate) fn holds(bytes: &[u8], sought: Sought) -> bool
    ensures { result ≡ holds bytes.now sought }
{
    sought.before(bytes) < bytes.len()
}

/// The first `count` bytes, or all of them if there are fewer.
fn first(bytes: &[u8], count: usize) -> &[u8]
    ensures { result.now ≡ take count bytes.now }
{
    if count < bytes.len() {
        &bytes[..count]
    } else {
        bytes
    }
}

/// The bytes from the first entity of HTML on, or none if there is no entity.
pub(crate) fn from_entity(bytes: &[u8]) -> &[u8]
    ensures { result.now ≡ from_entity bytes.now }
{
    &bytes[Sought::Entity.before(bytes)..]
}

/// The first entity of HTML in the bytes, or nothing.
pub fn entity_in(bytes: &[u8]) -> &[u8]
    ensures { result.now ≡ entity_in bytes.now }
{
    let rest = from_entity(bytes);
    first(rest, markup_entity(rest))
}
