//! The token at a place of a text, which may have no draft.

ghost use Rattle.std.specs.Prelude.{◌≤◌, List, length, IfOk, IfSome};
ghost use Rattle.msc_lexer.specs.declared.token.Token.{Token};
ghost use Rattle.msc_lexer.specs.Lexemes.{IsWithin};
ghost use Rattle.msc_lexer.specs.Lexing.{HasTokens};
ghost use Rattle.msc_place.specs.TokensAt.{IsTokenAt};

use crate::places::tokens_of;
use msc_lexer::Token;
use std::alloc::{AllocError, Global};

/// The token that begins at a place, or else the first after it, if there is one; and the place
/// after the last byte of the token before that, if there is one.
#[derive(Clone, Copy, Debug, PartialEq, Eq)]
pub struct TokenAt {
    pub token: Option<Token>,
    pub behind: Option<usize>,
}

/// The tokens at and before a place.
fn parted(tokens: &[Token], at: usize) -> TokenAt
    ensures { IsTokenAt tokens.now at result }
{
    let mut behind = None;
    for (i, token) in tokens.iter().enumerate() {
        if token.start as usize >= at {
            return TokenAt {
                token: Some(tokens[i]),
                behind,
            };
        }
        behind = Some(token.end as usize);
    }
    TokenAt {
        token: None,
        behind,
    }
}

/// The tokens at and before a place of a text; none if it has a lexical fault. The only error is
/// want of memory.
pub fn token_at(alloc: Global, text: &[u8], at: usize) -> Result<TokenAt, AllocError>
    ensures spot { IfOk result
        (λ spot. (ts : List Token) → HasTokens text.now ts → IsTokenAt ts at spot) }
    ensures behind { IfOk result (λ spot. IfSome spot.behind (λ b. b ≤ length text.now)) }
    ensures token { IfOk result (λ spot. IfSome spot.token (IsWithin text.now)) }
{
    let tokens = tokens_of(alloc, text)?;
    Ok(parted(&tokens, at))
}
