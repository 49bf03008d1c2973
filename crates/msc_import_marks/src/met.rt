//! The arrows of a scenario, and what its chart calls their messages.

ghost use Rattle.std.specs.Prelude.{◌≡◌, ◌++◌, IfOk, OnOk};
ghost use Rattle.std.specs.List.{position};
ghost use Rattle.msc_import_marks.specs.Met.{arrow_of, ident_of, is_action, is_whole, met_arrows};
ghost use Rattle.msc_import_marks.specs.Met.{met_at};

use listed::Listed;
use msc_import::Own;
use msc_mermaid::{Placed, Span};
use msc_scenarios::{Message, Step};
use std::alloc::{AllocError, Global};

/// An arrow that a scenario meets: its statement in the diagram, and what the chart of the scenario
/// calls its message: NAME, NUMBER, or `action`.
#[derive(Drop)]
pub(crate) struct MetArrow {
    pub statement: usize,
    pub ident: Listed<u8>,
}

/// Whether a statement has these bytes.
fn is_whole(whole: Span, placed: &Placed) -> bool
    ensures { result ≡ is_whole whole placed.now }
{
    placed.whole == whole
}

/// The number of the statement with these bytes, if there is one. It takes no memory.
pub fn statement_at(statements: &[Placed], whole: Span) -> Option<usize>
    ensures { result ≡ position (is_whole whole) statements.now }
{
    statements.iter().position(|placed| is_whole(whole, placed))
}

/// Whether a message is drawn as an action: it is lost, or its arrow goes to its own line and is no
/// message.
fn is_action(own: Own, message: &Message) -> bool
    ensures { result ≡ is_action own message.now }
{
    message.lost || own == Own::Action && message.from == message.to
}

/// What a chart calls a message.
fn ident_of(alloc: Global, own: Own, message: &Message) -> Result<Vec<u8>, AllocError>
    ensures { IfOk result (λ ident. ident.items ≡ ident_of own message.now) }
{
    if is_action(own, message) {
        return Vec::from_slice(alloc, b"action");
    }
    let mut ident = Vec::from_slice(alloc, message.name.as_slice())?;
    ident.extend_from_slice(b", ")?;
    ident.extend_from_slice(message.number.as_slice())?;
    Ok(ident)
}

/// Adds the arrow of a message, if it is one of these statements.
fn put_arrow(
    alloc: Global,
    own: Own,
    statements: &[Placed],
    message: &Message,
    met: &mut Vec<MetArrow>,
) -> Result<(), AllocError>
    ensures { OnOk result (met.new.items ≡ met.old.items
        ++ arrow_of own message.now (position (is_whole message.now.statement) statements.now)) }
{
    let Some(statement) = statement_at(statements, message.statement) else {
        return Ok(());
    };
    let ident = ident_of(alloc, own, message)?;
    met.push(MetArrow {
        statement,
        ident: Listed::from_vec(ident),
    })?;
    Ok(())
}

/// Adds the arrow that a step meets, if it is one of these statements.
fn put_met(
    alloc: Global,
    own: Own,
    statements: &[Placed],
    step: &Step,
    met: &mut Vec<MetArrow>,
) -> Result<(), AllocError>
    ensures { OnOk result (met.new.items
        ≡ met.old.items ++ met_at own statements.now step.now) }
{
    match step {
        Step::Meets(message) => put_arrow(alloc, own, statements, message, met),
        Step::Opens(_) | Step::Next | Step::Closes => Ok(()),
    }
}

/// The arrows that a path through a diagram with these statements meets, as they are met; `own` says
/// what an arrow to oneself is.
pub(crate) fn met_arrows(
    alloc: Global,
    own: Own,
    statements: &[Placed],
    steps: &[Step],
) -> Result<Vec<MetArrow>, AllocError>
    ensures { IfOk result (λ met. met.items ≡ met_arrows own statements.now steps.now) }
{
    let mut met = Vec::new(alloc);
    for step in steps {
        put_met(alloc, own, statements, step, &mut met)?;
    }
    Ok(met)
}
