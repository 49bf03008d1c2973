//! The names of instances: decls with their kinds, and the `inst` statements of a chart's head.
//!
//! Each function reads the front of a slice of tokens, and returns the rest of the slice with its
//! result.

ghost use Rattle.msc_lexer.specs.Lexemes.{AreWithin};
ghost use Rattle.msc_parser.specs.Grammar.{IsKind, IsDecl, AreDecls, IsHeader};
ghost use Rattle.msc_parser.specs.Places.{DeclStatement, InInst, DeclName, DeclKind, DeclEnd};
ghost use Rattle.msc_parser.specs.Places.{Header};
ghost use Rattle.msc_parser.specs.Places.{Sections};
ghost use Rattle.msc_parser.specs.Reading.{Reads};

use crate::fault::{ParseFault, What};
use crate::name::Name;
use crate::taking::{stands, take_end, take_name};
use crate::tree::Decl;
use listed::Listed;
use msc_lexer::{Kind, Token, Word};
use std::alloc::Global;

/// The kind after the name of an instance, if there is one.
fn kind<'a>(
    alloc: Global,
    text: &[u8],
    tokens: &'a [Token],
) -> Result<(Listed<Name>, &'a [Token]), ParseFault>
    requires { AreWithin text.now tokens.now }
    ensures { (st : DeclStatement) →
        Reads text.now IsKind (DeclKind st) (DeclEnd st) tokens.now result }
{
    let mut names = Vec::new(alloc);
    if !stands(Kind::Colon, tokens) {
        return Ok((Listed::from_vec(names), tokens));
    }
    let (first, rest) = take_name(alloc, What::Name, text, &tokens[1..])?;
    names.push(first)?;
    if !stands(Kind::Name, rest) {
        return Ok((Listed::from_vec(names), rest));
    }
    let (second, rest) = take_name(alloc, What::Name, text, rest)?;
    names.push(second)?;
    Ok((Listed::from_vec(names), rest))
}

/// The name of an instance, and its kind.
pub fn decl<'a>(
    alloc: Global,
    text: &[u8],
    tokens: &'a [Token],
) -> Result<(Decl, &'a [Token]), ParseFault>
    requires { AreWithin text.now tokens.now }
    ensures { (st : DeclStatement) →
        Reads text.now IsDecl (DeclName st) (DeclEnd st) tokens.now result }
{
    let (name, rest) = take_name(alloc, What::Name, text, tokens)?;
    let (kind, rest) = kind(alloc, text, rest)?;
    Ok((Decl { name, kind }, rest))
}

/// An `inst` statement after its first word.
fn inst<'a>(
    alloc: Global,
    text: &[u8],
    tokens: &'a [Token],
) -> Result<(Listed<Decl>, &'a [Token]), ParseFault>
    requires { AreWithin text.now tokens.now }
    ensures { Reads text.now AreDecls (DeclName InInst) Header tokens.now result }
{
    let (first, mut rest) = decl(alloc, text, tokens)?;
    let mut decls = Vec::new(alloc);
    decls.push(first)?;
    'decls: while stands(Kind::Comma, rest) {
        let (more, after) = decl(alloc, text, &rest[1..])?;
        decls.push(more)?;
        rest = after;
    }
    let rest = take_end(text, rest)?;
    Ok((Listed::from_vec(decls), rest))
}

/// All `inst` statements, up to the first other statement.
pub fn header<'a>(
    alloc: Global,
    text: &[u8],
    tokens: &'a [Token],
) -> Result<(Listed<Decl>, &'a [Token]), ParseFault>
    requires { AreWithin text.now tokens.now }
    ensures { Reads text.now IsHeader Header Sections tokens.now result }
{
    let mut header = Vec::new(alloc);
    let mut rest = tokens;
    'statements: while stands(Kind::Word(Word::Inst), rest) {
        let (decls, after) = inst(alloc, text, &rest[1..])?;
        let mut decls = decls.into_vec();
        header.append(&mut decls)?;
        rest = after;
    }
    Ok((Listed::from_vec(header), rest))
}
