//! The names and labels of a picture's events, and descriptions of them.

ghost use Rattle.std.specs.Prelude.{◌≡◌, ◌++◌, IfOk};
ghost use Rattle.msc_html.specs.Telling.{act_text, action_text, event_text, home, label, label_at};
ghost use Rattle.msc_html.specs.Telling.{name_at, other, sender_at, taker_at};
ghost use Rattle.msc_picture.specs.Columns.{short_text};

use msc_chart::Event;
use msc_picture::{Act, Scene};
use std::alloc::{AllocError, Global};

/// The name of instance `i`.
pub fn name_at(scene: &Scene, i: u32) -> &[u8]
    ensures { result.now ≡ name_at scene.now i }
{
    match scene.heads.as_slice().get(i as usize) {
        Some(head) => head.name.as_slice(),
        None => b"",
    }
}

/// The label of message `m`.
pub fn label_at(scene: &Scene, m: u32) -> &[u8]
    ensures { result.now ≡ label_at scene.now m }
{
    match scene.arrows.as_slice().get(m as usize) {
        Some(arrow) => arrow.label.as_slice(),
        None => b"",
    }
}

/// The name of the instance that takes message `m`.
pub fn taker_at(scene: &Scene, m: u32) -> &[u8]
    ensures { result.now ≡ taker_at scene.now m }
{
    match scene.arrows.as_slice().get(m as usize) {
        Some(arrow) => name_at(scene, arrow.to),
        None => b"",
    }
}

/// The name of the instance that sends message `m`.
pub fn sender_at(scene: &Scene, m: u32) -> &[u8]
    ensures { result.now ≡ sender_at scene.now m }
{
    match scene.arrows.as_slice().get(m as usize) {
        Some(arrow) => name_at(scene, arrow.from),
        None => b"",
    }
}

/// The text that is shown for an action.
fn short_text(alloc: Global, text: &[u8]) -> Result<Vec<u8>, AllocError>
    ensures { IfOk result (λ short. short.items ≡ short_text text.now) }
{
    let mut short = Vec::from_slice(alloc, text)?;
    if text.len() > 40 {
        short.truncate(38);
        short.extend_from_slice(b"..")?;
    }
    Ok(short)
}

/// An action with this text.
pub fn action_text(alloc: Global, text: &[u8]) -> Result<Vec<u8>, AllocError>
    ensures { IfOk result (λ told. told.items ≡ action_text text.now) }
{
    let short = short_text(alloc, text)?;
    let mut told = Vec::from_slice(alloc, b"action '")?;
    told.extend_from_slice(&short)?;
    told.extend_from_slice(b"'")?;
    Ok(told)
}

/// A message, with a word before its label and a name after it.
fn message_text(
    alloc: Global,
    way: &[u8],
    label: &[u8],
    word: &[u8],
    name: &[u8],
) -> Result<Vec<u8>, AllocError>
    ensures { IfOk result
        (λ told. told.items ≡ ((way.now ++ label.now) ++ word.now) ++ name.now) }
{
    let mut told = Vec::from_slice(alloc, way)?;
    told.extend_from_slice(label)?;
    told.extend_from_slice(word)?;
    told.extend_from_slice(name)?;
    Ok(told)
}

/// The description of an event with this act.
fn act_text(alloc: Global, scene: &Scene, act: &Act) -> Result<Vec<u8>, AllocError>
    ensures { IfOk result (λ told. told.items ≡ act_text scene.now act.now) }
{
    match act {
        Act::Sends(m) => {
            let (label, name) = (label_at(scene, *m), taker_at(scene, *m));
            message_text(alloc, b"out ", label, b" to ", name)
        }
        Act::Takes(m) => {
            let (label, name) = (label_at(scene, *m), sender_at(scene, *m));
            message_text(alloc, b"in ", label, b" from ", name)
        }
        Act::Does(text) => action_text(alloc, text.as_slice()),
    }
}

/// Event `e`.
pub fn event_text(alloc: Global, scene: &Scene, e: Event) -> Result<Vec<u8>, AllocError>
    ensures { IfOk result (λ told. told.items ≡ event_text scene.now e) }
{
    match scene.spots.as_slice().get(e as usize) {
        Some(spot) => act_text(alloc, scene, &spot.act),
        None => Ok(Vec::new(alloc)),
    }
}

/// The label of the message of event `e`.
pub fn label(scene: &Scene, e: Event) -> &[u8]
    ensures { result.now ≡ label scene.now e }
{
    let Some(spot) = scene.spots.as_slice().get(e as usize) else {
        return b"";
    };
    match &spot.act {
        Act::Sends(m) => label_at(scene, *m),
        Act::Takes(m) => label_at(scene, *m),
        Act::Does(_) => b"",
    }
}

/// The name at the other end of the message of event `e`.
pub fn other(scene: &Scene, e: Event) -> &[u8]
    ensures { result.now ≡ other scene.now e }
{
    let Some(spot) = scene.spots.as_slice().get(e as usize) else {
        return b"";
    };
    match &spot.act {
        Act::Sends(m) => taker_at(scene, *m),
        Act::Takes(m) => sender_at(scene, *m),
        Act::Does(_) => b"",
    }
}

/// The name of the instance of event `e`.
pub fn home(scene: &Scene, e: Event) -> &[u8]
    ensures { result.now ≡ home scene.now e }
{
    match scene.spots.as_slice().get(e as usize) {
        Some(spot) => name_at(scene, spot.instance),
        None => b"",
    }
}
