//! A text of characters.

ghost use Rattle.std.specs.Prelude.{◌≡◌, IfOk, encode_utf8_all};
ghost use Rattle.std.specs.Str.{chars};
ghost use Rattle.std.specs.String.{string_bytes};

use std::alloc::{AllocError, Global};

/// The text of these characters. The only error is want of memory.
pub(crate) fn text_of(alloc: Global, characters: &[char]) -> Result<String, AllocError>
    ensures bytes { IfOk result (λ text. string_bytes text ≡ encode_utf8_all characters.now) }
    ensures characters { IfOk result (λ text. chars (string_bytes text) ≡ characters.now) }
{
    characters.iter().copied().collect(alloc)
}
