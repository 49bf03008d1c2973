//! Drafts: the tree of names and texts of a chart's text.
//!
//! Contracts see a draft as its `Tree`: the chart's name, the header and the sections, as plain
//! lists.

ghost use Rattle.std.specs.Prelude.{◌≡◌, ◌≤◌, length, option_map, IfOk};
ghost use Rattle.std.specs.List.{AllByRecursion};
ghost use Rattle.msc_lexer.specs.Lexemes.{IsName};
ghost use Rattle.msc_parser.specs.Grammar.{Tree};
ghost use Rattle.msc_parser.specs.Canonical.{canonical, canonical_with};
ghost use Rattle.msc_parser.specs.Drafts.{IsDraft, IsDeclNamed, IsSectionNamed, statements_of};
ghost use Rattle.msc_parser.specs.Parsing.{HasDraft};

use crate::name::Name;
use crate::tree::{Decl, Section};
use crate::writing::canonical_text;
use listed::Listed;
use msc_lexer::TEXT_LIMIT;
use msc_lexer::laws::prints_pieces;
use std::alloc::{AllocError, Global};
use std::marker::Model;

/// The tree of names and texts of actions of a chart's text. It contains neither notes nor
/// comments.
#[derive(Drop)]
pub struct Draft {
    name: Name,
    header: Listed<Decl>,
    sections: Listed<Section>,
}

impl Model for Draft {
    ghost Value = { Tree };

    ghost view = { λ d. record { name = d.name; header = d.header; sections = d.sections } };

    // Each name is one that a text can have, and there are at most as many parts as a text has
    // bytes.
    ghost invariant = { λ d.
        IsDraft (record { name = d.name; header = d.header; sections = d.sections }) };
}

impl Draft {
    /// The draft of these parts, which must be parts that a text can have. It takes no memory. A
    /// reader of another language than this crate's makes its drafts in this way.
    pub fn new(name: Name, header: Listed<Decl>, sections: Listed<Section>) -> Self
        requires { IsDraft (record { name = name; header = header; sections = sections }) }
        ensures { result ≡ record { name = name; header = header; sections = sections } }
    {
        Draft {
            name,
            header,
            sections,
        }
    }

    /// The facts that hold for every draft.
    fn known(&self)
        ensures { IsDraft self.now }
    {
        // A look at a field makes the facts on every draft known.
        let _name = &self.name;
    }

    /// The chart's name. It takes no memory.
    pub fn name(&self) -> &[u8]
        ensures value { result.now ≡ self.now.name }
        ensures named { IsName result.now }
    {
        self.known();
        self.name.as_slice()
    }

    /// The decls of all `inst` statements, in the order of the text. It takes no memory.
    pub fn header(&self) -> &[Decl]
        ensures value { result.now ≡ self.now.header }
        ensures named { AllByRecursion IsDeclNamed result.now }
        ensures few { length result.now ≤ TEXT_LIMIT }
    {
        self.known();
        self.header.as_slice()
    }

    /// The sections, in the order of the text. It takes no memory.
    pub fn sections(&self) -> &[Section]
        ensures value { result.now ≡ self.now.sections }
        ensures named { AllByRecursion IsSectionNamed result.now }
        ensures few { length (statements_of result.now) ≤ TEXT_LIMIT }
    {
        self.known();
        self.sections.as_slice()
    }

    /// The canonical text: one line for each statement, words in small letters, no notes and no
    /// comments. The texts of actions may have line ends of their own. The only error is that
    /// memory ran out. The text can be longer than the text that was read, and longer than a text
    /// may be; then it is written in full and can't be read again.
    pub fn write(&self, alloc: Global) -> Result<Vec<u8>, AllocError>
        ensures text { IfOk result (λ v. v.items ≡ canonical self.now) }

        // If it is short enough, it is a text of this draft.
        ensures again { IfOk result (λ v. length v.items ≤ TEXT_LIMIT → HasDraft v.items self.now) }
    {
        self.write_with(alloc, None)
    }

    /// The canonical text with this comment after the chart's name, if there is one; any bytes.
    pub fn write_with(&self, alloc: Global, comment: Option<&[u8]>) -> Result<Vec<u8>, AllocError>
        ensures text { IfOk result (λ v.
            v.items ≡ canonical_with (option_map (λ c. c.now) comment.entry) self.now) }

        // If it is short enough, it is a text of this draft.
        ensures again { IfOk result (λ v. length v.items ≤ TEXT_LIMIT → HasDraft v.items self.now) }
    {
        prints_pieces();
        self.known();
        canonical_text(alloc, self, comment)
    }
}
