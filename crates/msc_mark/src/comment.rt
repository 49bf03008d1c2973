//! The comments of statements.

ghost use Rattle.std.specs.Prelude.{◌≡◌, ℕ, List, IfSome, option_map};
ghost use Rattle.msc_lexer.specs.declared.token.Kind.{Kind as LexedKind};
ghost use Rattle.msc_lexer.specs.Lexemes.{lexemes, lexeme_of, AreWithin, IsWithin};
ghost use Rattle.msc_place.specs.Standing.{begins_event};
ghost use Rattle.msc_mark.specs.Comments.{comment_in, first_text, is_comment, is_semicolon};
ghost use Rattle.msc_mark.specs.Comments.{is_text};

use msc_lexer::{Kind, Token, Word};

/// Whether the token begins the statement of an event.
pub(crate) fn begins_event(token: &Token) -> bool
    ensures { (text : List ℕ) → result ≡ begins_event (lexeme_of text token.now).symbol }
{
    matches!(
        token.kind,
        Kind::Word(Word::Output | Word::Input | Word::Action)
    )
}

/// Whether the token is a `;`.
fn is_semicolon(token: &Token) -> bool
    ensures { (text : List ℕ) → result ≡ is_semicolon (lexeme_of text token.now).symbol }
{
    token.kind == Kind::Semicolon
}

/// Whether the token is `comment`.
fn is_comment(token: &Token) -> bool
    ensures { (text : List ℕ) → result ≡ is_comment (lexeme_of text token.now).symbol }
{
    token.kind == Kind::Word(Word::Comment)
}

/// The first token, if it is a text.
fn first_text(tokens: &[Token]) -> Option<Token>
    ensures value { (text : List ℕ)
        → option_map (lexeme_of text) result ≡ first_text (lexemes text tokens.now) }
    ensures kind { IfSome result (λ t. t.kind ≡ Kind.Text) }
    ensures within { (text : List ℕ) → AreWithin text tokens.now
        → IfSome result (IsWithin text) }
{
    match tokens {
        [first, ..] if first.kind == Kind::Text => Some(*first),
        _ => None,
    }
}

/// The text of the comment of a statement; the tokens are those after its first word.
pub(crate) fn comment_in(tokens: &[Token]) -> Option<Token>
    ensures value { (text : List ℕ)
        → option_map (lexeme_of text) result ≡ comment_in (lexemes text tokens.now) }
    ensures kind { IfSome result (λ t. t.kind ≡ Kind.Text) }
    ensures within { (text : List ℕ) → AreWithin text tokens.now
        → IfSome result (IsWithin text) }
{
    for (i, token) in tokens.iter().enumerate() {
        if is_semicolon(token) {
            return None;
        }
        if is_comment(token) {
            return first_text(&tokens[i + 1..]);
        }
    }
    None
}
