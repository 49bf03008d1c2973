//! The bytes that a text between apostrophes holds.

ghost use Rattle.std.specs.Prelude.{◌≡◌, slice_range, IfOk};
ghost use Rattle.msc_lexer.specs.Lexemes.{IsWithin, unquoted};
ghost use Rattle.msc_lexer.specs.Pieces.{doubled, quoted};
ghost use Rattle.msc_lexer.specs.Scanning.{IsDoubled};

use crate::token::{Kind, Token};
use std::alloc::{AllocError, Global};

/// The bytes with each doubled apostrophe halved.
fn halved(alloc: Global, bytes: &[u8]) -> Result<Vec<u8>, AllocError>
    requires { IsDoubled bytes.now }
    ensures { IfOk result (λ v. doubled v.items ≡ bytes.now) }
{
    let mut held = Vec::new(alloc);
    let mut at = 0;
    while at < bytes.len() {
        let byte = bytes[at];
        held.push(byte)?;
        at += if byte == b'\'' { 2 } else { 1 };
    }
    Ok(held)
}

/// The bytes that a text holds: those between its outer apostrophes, with each doubled apostrophe
/// halved. So `'it''s'` holds `it's`. `token` is a text among the tokens of `text`. The only error
/// is that memory ran out.
pub fn text_bytes(alloc: Global, text: &[u8], token: &Token) -> Result<Vec<u8>, AllocError>
    requires within { IsWithin text.now token.now }
    requires text { token.now.kind ≡ Kind.Text }

    // These bytes, quoted again, are the token in the text; there is one such list.
    ensures quoted { IfOk result (λ v.
        quoted v.items ≡ slice_range text.now token.now.start token.now.end) }
    ensures value { IfOk result (λ v.
        v.items ≡ unquoted (slice_range text.now token.now.start token.now.end)) }
{
    let quoted = &text[token.start as usize..token.end as usize];
    halved(alloc, &quoted[1..quoted.len() - 1])
}
