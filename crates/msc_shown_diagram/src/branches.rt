//! The branches of a block, and what people call them.

ghost use Rattle.std.specs.Prelude.{◌≡◌, IfOk};
ghost use Rattle.std.specs.String.{string_bytes};
ghost use Rattle.msc_mermaid.specs.Expectations.{closer_word};
ghost use Rattle.msc_shown_diagram.specs.Branches.{branch_label, branch_said, branch_word, kind_word};
ghost use Rattle.msc_shown_diagram.specs.Branches.{label_text, named_branch, quoted_part, with_label};

use crate::span::bytes_at;
use msc_mermaid::{Closer, Kind, Placed, Statement};
use msc_scenarios::joint;
use msc_speech::quoted;
use msc_spoken::{cut, spoken};
use std::alloc::{AllocError, Global};

/// The word with which a block of this kind begins; of one that takes no choice it may be another.
fn kind_word(kind: Kind) -> &'static str
    ensures { result.now ≡ kind_word kind }
{
    match kind {
        Kind::Alt => "alt",
        Kind::Opt => "opt",
        Kind::Loop => "loop",
        Kind::Break => "break",
        Kind::Critical => "critical",
        Kind::Par => "par",
        Kind::Plain => "rect",
    }
}

/// The word with which a further branch begins, or a block ends.
fn closer_word(closer: Closer) -> &'static str
    ensures { result.now ≡ closer_word closer }
{
    match closer {
        Closer::Else => "else",
        Closer::And => "and",
        Closer::Option => "option",
        Closer::End => "end",
    }
}

/// The word with which a branch begins; none, if the statement begins no branch.
fn branch_word(statement: &Statement) -> &'static str
    ensures { result.now ≡ branch_word statement.now }
{
    match statement {
        Statement::Begins(kind) => kind_word(*kind),
        Statement::Closes(closer) => closer_word(*closer),
        Statement::Declares(_, _) | Statement::Says(_) => "",
    }
}

/// The label of a branch as it stands in the text: the bytes after its word.
fn branch_label<'t>(text: &'t [u8], branch: &Placed) -> &'t [u8]
    ensures { result.now ≡ branch_label text.entry.now branch.now }
{
    let whole = bytes_at(text, branch.whole);
    let word = branch_word(&branch.statement);
    &whole[word.len().min(whole.len())..]
}

/// A label as people read it, cut if it is long.
pub(crate) fn label_text(alloc: Global, label: &[u8]) -> Result<String, AllocError>
    ensures { IfOk result (λ text. string_bytes text ≡ label_text label.now) }
{
    let text = spoken(alloc, label)?;
    cut(alloc, text.as_str())
}

/// A blank and a label between quotes; nothing, if the label is empty.
#[tactic(auto, unfolding(crate::specs::Branches::quoted_part))]
fn quoted_part(alloc: Global, label: &str) -> Result<String, AllocError>
    ensures { IfOk result (λ part. string_bytes part ≡ quoted_part label.now) }
{
    if label.is_empty() {
        return Ok(String::new(alloc));
    }
    let label = quoted(alloc, label)?;
    format!(in alloc; " {label}")
}

/// A word, and a label if it has one.
#[tactic(auto, unfolding(crate::specs::Branches::with_label))]
fn with_label(alloc: Global, word: &str, label: &str) -> Result<String, AllocError>
    ensures { IfOk result (λ said. string_bytes said ≡ with_label word.now label.now) }
{
    let part = quoted_part(alloc, label)?;
    format!(in alloc; "{word}{part}")
}

/// What people call a branch: its word, and its label if it has one.
pub(crate) fn branch_said(alloc: Global, text: &[u8], branch: &Placed) -> Result<String, AllocError>
    ensures { IfOk result (λ said. string_bytes said ≡ branch_said text.now branch.now) }
{
    let label = label_text(alloc, branch_label(text, branch))?;
    with_label(alloc, branch_word(&branch.statement), label.as_str())
}

/// The statement that begins the branch that a choice names: that of this number, or the first one
/// if there are fewer. The block begins with `placed`, and `rest` follows.
pub(crate) fn named_branch<'p>(placed: &'p Placed, rest: &'p [Placed], choice: usize) -> &'p Placed
    ensures { result.now ≡ named_branch placed.entry.now rest.entry.now choice }
{
    if choice == 0 {
        return placed;
    }
    match joint(rest, choice - 1) {
        Some(branch) => branch,
        None => placed,
    }
}
