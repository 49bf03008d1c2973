//! The heads, the arrows and the events of a picture.

ghost use Rattle.std.specs.Prelude.{◌≡◌, ◌<◌, false, IfOk, length, map};
ghost use Rattle.std.specs.List.{range_with_len};
ghost use Rattle.msc_chart.specs.Charts.{is_local, kind};
ghost use Rattle.msc_chart.specs.Drawings.{message_at};
ghost use Rattle.msc_picture.specs.Scenes.{act_by, arrow_of, head_of, kind_text, message_text};
ghost use Rattle.msc_picture.specs.Scenes.{shown_byte, spot_of};

use crate::scene::{Act, Arrow, Head, Spot};
use listed::Listed;
use msc_chart::{Chart, Event};
use msc_parser::{Decl, Draft, Label, Name};
use std::alloc::{AllocError, Global};

/// The names of a kind, with a space between them.
fn kind_of(alloc: Global, names: &[Name]) -> Result<Label, AllocError>
    ensures { IfOk result (λ text. text ≡ kind_text names.now) }
{
    let mut text = Vec::new(alloc);
    if let [first, others @ ..] = names {
        text.extend_from_slice(first.as_slice())?;
        for name in others {
            text.push(b' ')?;
            text.extend_from_slice(name.as_slice())?;
        }
    }
    Ok(Listed::from_vec(text))
}

/// The head of an instance.
fn head_of_decl(alloc: Global, decl: &Decl) -> Result<Head, AllocError>
    ensures { IfOk result (λ head. head ≡ record {
      name = decl.now.name;
      kind = kind_text decl.now.kind;
    }) }
{
    Ok(Head {
        name: Listed::from_vec(Vec::from_slice(alloc, decl.name.as_slice())?),
        kind: kind_of(alloc, decl.kind.as_slice())?,
    })
}

/// The heads of a draft's instances.
pub fn heads_of(alloc: Global, draft: &Draft) -> Result<Listed<Head>, AllocError>
    ensures { IfOk result (λ heads. heads ≡ map head_of draft.now.sections) }
{
    let mut heads = Vec::new(alloc);
    for section in draft.sections() {
        let head = head_of_decl(alloc, &section.decl)?;
        heads.push(head)?;
    }
    Ok(Listed::from_vec(heads))
}

/// The label of message `m`.
fn label_of(alloc: Global, chart: &Chart, m: u32) -> Result<Label, AllocError>
    requires { m < length chart.now.messages }
    ensures { IfOk result (λ text. text ≡ message_text (message_at chart.now m)) }
{
    let mut text = Vec::from_slice(alloc, chart.message_name(m))?;
    if let Some(number) = chart.message_number(m) {
        text.extend_from_slice(b", ")?;
        text.extend_from_slice(number)?;
    }
    Ok(Listed::from_vec(text))
}

/// The arrow of message `m`.
fn arrow(alloc: Global, chart: &Chart, m: u32) -> Result<Arrow, AllocError>
    requires { m < length chart.now.messages }
    ensures { IfOk result (λ arrow. arrow ≡ arrow_of chart.now m) }
{
    Ok(Arrow {
        output: chart.output_of(m),
        input: chart.input_of(m),
        from: chart.sender(m),
        to: chart.receiver(m),
        label: label_of(alloc, chart, m)?,
    })
}

/// The arrows of a chart's messages.
pub fn arrows_of(alloc: Global, chart: &Chart) -> Result<Listed<Arrow>, AllocError>
    ensures { IfOk result (λ arrows.
        arrows ≡ map (arrow_of chart.now) (range_with_len 0 (length chart.now.messages))) }
{
    let mut arrows = Vec::new(alloc);
    for m in 0..chart.messages() {
        let next = arrow(alloc, chart, m)?;
        arrows.push(next)?;
    }
    Ok(Listed::from_vec(arrows))
}

/// The byte that is shown for a byte of an action's text.
fn show_byte(byte: u8) -> u8
    ensures { result ≡ shown_byte byte }
{
    if byte < 32 || byte > 126 { b'?' } else { byte }
}

/// The text that is shown for an action.
fn shown(alloc: Global, text: &[u8]) -> Result<Label, AllocError>
    ensures { IfOk result (λ shown. shown ≡ map shown_byte text.now) }
{
    let bytes = text.iter().map(|byte| show_byte(*byte)).collect(alloc)?;
    Ok(Listed::from_vec(bytes))
}

/// The act of event `e`, an output or an input.
fn message_act(chart: &Chart, e: Event) -> Act
    requires known { e < length chart.now.events }
    requires message { is_local chart.now.events e ≡ false }
    ensures { result ≡ act_by chart.now e (kind chart.now.events e) }
{
    let m = chart.message_of(e);
    if chart.is_output(e) {
        return Act::Sends(m);
    }
    Act::Takes(m)
}

/// The act of event `e`.
fn act(alloc: Global, chart: &Chart, e: Event) -> Result<Act, AllocError>
    requires { e < length chart.now.events }
    ensures { IfOk result (λ act. act ≡ act_by chart.now e (kind chart.now.events e)) }
{
    match chart.label(e) {
        Some(text) => {
            let text = shown(alloc, text)?;
            Ok(Act::Does(text))
        }
        None => Ok(message_act(chart, e)),
    }
}

/// Event `e`.
fn spot(alloc: Global, chart: &Chart, e: Event) -> Result<Spot, AllocError>
    requires { e < length chart.now.events }
    ensures { IfOk result (λ spot. spot ≡ spot_of chart.now e) }
{
    Ok(Spot {
        instance: chart.instance_of(e),
        act: act(alloc, chart, e)?,
    })
}

/// The events of a chart.
pub fn spots_of(alloc: Global, chart: &Chart) -> Result<Listed<Spot>, AllocError>
    ensures { IfOk result (λ spots.
        spots ≡ map (spot_of chart.now) (range_with_len 0 (length chart.now.events))) }
{
    let mut spots = Vec::with_capacity(alloc, chart.events() as usize)?;
    for e in 0..chart.events() {
        let next = spot(alloc, chart, e)?;
        spots.push(next)?;
    }
    Ok(Listed::from_vec(spots))
}
