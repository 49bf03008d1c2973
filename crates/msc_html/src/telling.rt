//! The sentences on a race, with the names and labels of a picture.

ghost use Rattle.std.specs.Prelude.{◌≡◌, ◌++◌, ◌∷◌, [], IfOk, OnOk};
ghost use Rattle.msc_html.specs.Parts.{code, words};
ghost use Rattle.msc_html.specs.Telling.{act_done, can_parts, done, drawn_parts, early_parts};
ghost use Rattle.msc_html.specs.Telling.{event_text, helping_parts, hopeless_parts, kind_text};
ghost use Rattle.msc_html.specs.Telling.{causes_parts, number_words, often_text, order_text};
ghost use Rattle.msc_html.specs.Telling.{reason_parts, title_parts, two_parts, way_text};

use crate::naming::{
    action_text, event_text, home, label, label_at, name_at, other, sender_at, taker_at,
};
use crate::part::{Part, Tag, part_of, race_number};
use msc_chart::Event;
use msc_picture::{Act, Scene};
use msc_reason::{Cause, RaceKind};
use msc_tree::put_decimal;
use std::alloc::{AllocError, Global};

/// Appends words and code to a sentence.
fn put_pair(
    parts: &mut Vec<Part>,
    alloc: Global,
    first: &[u8],
    second: &[u8],
) -> Result<(), AllocError>
    ensures { OnOk result
        (parts.new.items ≡ parts.old.items ++ words first.now ∷ code second.now ∷ []) }
{
    parts.push(part_of(alloc, Tag::Words, first)?)?;
    parts.push(part_of(alloc, Tag::Code, second)?)?;
    Ok(())
}

/// Appends code to a sentence.
fn put_code(parts: &mut Vec<Part>, alloc: Global, text: &[u8]) -> Result<(), AllocError>
    ensures { OnOk result (parts.new.items ≡ parts.old.items ++ code text.now ∷ []) }
{
    parts.push(part_of(alloc, Tag::Code, text)?)?;
    Ok(())
}

/// Appends words to a sentence.
fn put_words(parts: &mut Vec<Part>, alloc: Global, text: &[u8]) -> Result<(), AllocError>
    ensures { OnOk result (parts.new.items ≡ parts.old.items ++ words text.now ∷ []) }
{
    parts.push(part_of(alloc, Tag::Words, text)?)?;
    Ok(())
}

/// Appends to a sentence that the instance of this name has done this.
fn put_act_done(
    parts: &mut Vec<Part>,
    alloc: Global,
    scene: &Scene,
    name: &[u8],
    act: &Act,
) -> Result<(), AllocError>
    ensures { OnOk result
        (parts.new.items ≡ parts.old.items ++ act_done scene.now name.now act.now) }
{
    put_code(parts, alloc, name)?;
    match act {
        Act::Sends(m) => {
            put_pair(parts, alloc, b" has sent ", label_at(scene, *m))?;
            put_pair(parts, alloc, b" to ", taker_at(scene, *m))?;
            Ok(())
        }
        Act::Takes(m) => {
            put_pair(parts, alloc, b" has taken ", label_at(scene, *m))?;
            put_pair(parts, alloc, b" from ", sender_at(scene, *m))?;
            Ok(())
        }
        Act::Does(text) => {
            let action = action_text(alloc, text.as_slice())?;
            put_pair(parts, alloc, b" has done ", action.as_slice())?;
            Ok(())
        }
    }
}

/// Appends to a sentence that event `e` has occurred.
fn put_done(parts: &mut Vec<Part>, alloc: Global, scene: &Scene, e: Event) -> Result<(), AllocError>
    ensures { OnOk result (parts.new.items ≡ parts.old.items ++ done scene.now e) }
{
    let Some(spot) = scene.spots.as_slice().get(e as usize) else {
        return Ok(());
    };
    put_act_done(
        parts,
        alloc,
        scene,
        name_at(scene, spot.instance),
        &spot.act,
    )?;
    Ok(())
}

/// The kind of a race, and whether it is always reversed.
fn kind_text(alloc: Global, cause: Cause) -> Result<Vec<u8>, AllocError>
    ensures { IfOk result (λ text. text.items ≡ kind_text cause) }
{
    let mut text = Vec::from_slice(alloc, b" (")?;
    text.extend_from_slice(cause.kind.word().as_bytes())?;
    if cause.always {
        text.extend_from_slice(b", always")?;
    }
    text.extend_from_slice(b")")?;
    Ok(text)
}

/// The title above the sentences on race `k` from event `e`.
pub fn title_parts(
    alloc: Global,
    scene: &Scene,
    k: usize,
    e: Event,
    cause: Cause,
) -> Result<Vec<Part>, AllocError>
    ensures { IfOk result (λ parts. parts.items ≡ title_parts scene.now k e cause) }
{
    let kind = kind_text(alloc, cause)?;
    let mut parts = Vec::new(alloc);
    put_words(&mut parts, alloc, b"Race ")?;
    parts.push(race_number(alloc, k)?)?;
    put_pair(&mut parts, alloc, b" on ", home(scene, e))?;
    put_words(&mut parts, alloc, kind.as_slice())?;
    Ok(parts)
}

/// The number of an event, and further words.
fn number_words(alloc: Global, e: Event, rest: &[u8]) -> Result<Vec<u8>, AllocError>
    ensures { IfOk result (λ text. text.items ≡ number_words e rest.now) }
{
    let mut text = Vec::from_slice(alloc, b" (event ")?;
    put_decimal(&mut text, e as usize)?;
    text.extend_from_slice(rest)?;
    Ok(text)
}

/// Appends an event, its number and further words to a sentence.
fn put_event(
    parts: &mut Vec<Part>,
    alloc: Global,
    scene: &Scene,
    e: Event,
    rest: &[u8],
) -> Result<(), AllocError>
    ensures { OnOk result (parts.new.items ≡ parts.old.items
        ++ code (event_text scene.now e) ∷ words (number_words e rest.now) ∷ []) }
{
    let told = event_text(alloc, scene, e)?;
    let number = number_words(alloc, e, rest)?;
    put_code(parts, alloc, told.as_slice())?;
    put_words(parts, alloc, number.as_slice())?;
    Ok(())
}

/// Which of the two events of a race is drawn before the other.
pub fn drawn_parts(
    alloc: Global,
    scene: &Scene,
    e: Event,
    f: Event,
) -> Result<Vec<Part>, AllocError>
    ensures { IfOk result (λ parts. parts.items ≡ drawn_parts scene.now e f) }
{
    let mut parts = Vec::new(alloc);
    put_event(&mut parts, alloc, scene, e, b") is drawn before ")?;
    put_event(&mut parts, alloc, scene, f, b").")?;
    Ok(parts)
}

/// Appends to a sentence that two inputs come to an instance, in this way.
fn put_two(
    parts: &mut Vec<Part>,
    alloc: Global,
    scene: &Scene,
    e: Event,
    f: Event,
    way: &[u8],
) -> Result<(), AllocError>
    ensures { OnOk result
        (parts.new.items ≡ parts.old.items ++ two_parts scene.now e f way.now) }
{
    put_code(parts, alloc, label(scene, e))?;
    put_pair(parts, alloc, b" from ", other(scene, e))?;
    put_pair(parts, alloc, b" and ", label(scene, f))?;
    put_pair(parts, alloc, b" from ", other(scene, f))?;
    put_pair(parts, alloc, b" come to ", home(scene, e))?;
    put_words(parts, alloc, way)?;
    Ok(())
}

/// Appends to a sentence that an input can come before what is drawn above it.
fn put_early(
    parts: &mut Vec<Part>,
    alloc: Global,
    scene: &Scene,
    e: Event,
    f: Event,
) -> Result<(), AllocError>
    ensures { OnOk result (parts.new.items ≡ parts.old.items ++ early_parts scene.now e f) }
{
    put_code(parts, alloc, label(scene, f))?;
    put_pair(parts, alloc, b" from ", other(scene, f))?;
    put_words(parts, alloc, b" can come before ")?;
    put_done(parts, alloc, scene, e)?;
    Ok(())
}

/// How two inputs come to their instance.
fn way_text(kind: RaceKind) -> &'static [u8]
    ensures { result.now ≡ way_text kind }
{
    match kind {
        RaceKind::Early => b"",
        RaceKind::Queues => b" through two queues, and nothing makes the first one come first",
        RaceKind::Unordered => b" through one queue, and nothing makes the first one be sent first",
        RaceKind::Overtaken => {
            b" through one queue, and the second one is sent first: the first one cannot overtake it"
        }
    }
}

/// Appends to a sentence why the second event of a race can come first.
fn put_can(
    parts: &mut Vec<Part>,
    alloc: Global,
    scene: &Scene,
    e: Event,
    f: Event,
    kind: RaceKind,
) -> Result<(), AllocError>
    ensures { OnOk result
        (parts.new.items ≡ parts.old.items ++ can_parts scene.now e f kind) }
{
    match kind {
        RaceKind::Early => put_early(parts, alloc, scene, e, f),
        RaceKind::Queues => put_two(parts, alloc, scene, e, f, way_text(RaceKind::Queues)),
        RaceKind::Unordered => put_two(parts, alloc, scene, e, f, way_text(RaceKind::Unordered)),
        RaceKind::Overtaken => put_two(parts, alloc, scene, e, f, way_text(RaceKind::Overtaken)),
    }
}

/// The words for how often the second event of a race comes first.
fn often_text(always: bool) -> &'static [u8]
    ensures { result.now ≡ often_text always }
{
    if always {
        b". Every run reverses the drawn order."
    } else {
        b". Some runs keep the drawn order, others reverse it."
    }
}

/// Why the second event of a race can come first, and how often it does.
pub fn reason_parts(
    alloc: Global,
    scene: &Scene,
    e: Event,
    f: Event,
    cause: Cause,
) -> Result<Vec<Part>, AllocError>
    ensures { IfOk result (λ parts. parts.items ≡ reason_parts scene.now e f cause) }
{
    let mut parts = Vec::new(alloc);
    put_can(&mut parts, alloc, scene, e, f, cause.kind)?;
    put_words(&mut parts, alloc, often_text(cause.always))?;
    Ok(parts)
}

/// The numbers of two events in this order, and further words.
fn order_text(alloc: Global, x: Event, y: Event, rest: &[u8]) -> Result<Vec<u8>, AllocError>
    ensures { IfOk result (λ text. text.items ≡ order_text x y rest.now) }
{
    let mut text = Vec::from_slice(alloc, b" (event ")?;
    put_decimal(&mut text, x as usize)?;
    text.extend_from_slice(b" before event ")?;
    put_decimal(&mut text, y as usize)?;
    text.extend_from_slice(rest)?;
    Ok(text)
}

/// The sentence that no further order can help: output `o` comes before event `p` in every run.
fn hopeless_parts(alloc: Global, scene: &Scene, p: Event, o: Event) -> Result<Vec<Part>, AllocError>
    ensures { IfOk result (λ parts. parts.items ≡ hopeless_parts scene.now p o) }
{
    let order = order_text(
        alloc,
        o,
        p,
        b"), so no further order can help: the drawing itself has to change.",
    )?;
    let mut parts = Vec::new(alloc);
    put_pair(&mut parts, alloc, b"In every run ", home(scene, o))?;
    put_pair(&mut parts, alloc, b" sends ", label(scene, o))?;
    put_pair(&mut parts, alloc, b" to ", other(scene, o))?;
    put_words(&mut parts, alloc, b" before ")?;
    put_done(&mut parts, alloc, scene, p)?;
    put_words(&mut parts, alloc, order.as_slice())?;
    Ok(parts)
}

/// The order that would help: event `p` before output `o`.
fn helping_parts(alloc: Global, scene: &Scene, p: Event, o: Event) -> Result<Vec<Part>, AllocError>
    ensures { IfOk result (λ parts. parts.items ≡ helping_parts scene.now p o) }
{
    let order = order_text(alloc, p, o, b").")?;
    let mut parts = Vec::new(alloc);
    put_pair(
        &mut parts,
        alloc,
        b"The drawn order would hold if ",
        home(scene, o),
    )?;
    put_pair(&mut parts, alloc, b" sent ", label(scene, o))?;
    put_pair(&mut parts, alloc, b" to ", other(scene, o))?;
    put_words(&mut parts, alloc, b" only after ")?;
    put_done(&mut parts, alloc, scene, p)?;
    put_words(&mut parts, alloc, order.as_slice())?;
    Ok(parts)
}

/// The sentence on the pair of events that a race lacks.
pub fn causes_parts(alloc: Global, scene: &Scene, cause: Cause) -> Result<Vec<Part>, AllocError>
    ensures { IfOk result (λ parts. parts.items ≡ causes_parts scene.now cause) }
{
    if cause.always {
        return hopeless_parts(alloc, scene, cause.needed, cause.output);
    }
    helping_parts(alloc, scene, cause.needed, cause.output)
}
