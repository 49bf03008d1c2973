//! The part of a report before the races: the check, the verdict, and the chart.

ghost use Rattle.std.specs.Prelude.{◌≡◌, ◌++◌, ◌∷◌, [], IfOk, OnOk, codes};
ghost use Rattle.msc_html.specs.Parts.{sentence, words};
ghost use Rattle.msc_html.specs.Reports.{begin_nodes, caption_text, chart_node, chart_nodes};
ghost use Rattle.msc_html.specs.Reports.{checked_text, count_text, counted_nodes, front_nodes};
ghost use Rattle.msc_html.specs.Reports.{passed_nodes, queues_text, race_text, verdict_nodes};
ghost use Rattle.msc_tree.specs.Shapes.{plain};
ghost use Rattle.msc_tree.specs.Trees.{line_text, lines_text};

use crate::figure::put_figure;
use crate::part::{Part, SentenceStyle, Tag, part_of, put_sentence};
use msc_chart::{LinkKind, Queues};
use msc_links::print_queues;
use msc_picture::Scene;
use msc_race::Enforced;
use msc_tree::{put_decimal, put_plain};
use std::alloc::{AllocError, Global};

/// An architecture in words.
pub fn queues_text(queues: Queues) -> &'static [u8]
    ensures { result.now ≡ queues_text queues }
{
    match queues.usual() {
        LinkKind::Pair => b"one queue for each sender and receiver",
        LinkKind::Mailbox => b"one queue for each receiver",
        LinkKind::Single => b"one queue for each message",
    }
}

/// The sentence on the check.
fn checked_text(alloc: Global, enforced: &Enforced) -> Result<Vec<u8>, AllocError>
    ensures { IfOk result (λ text.
        text.items ≡ checked_text enforced.now.chart enforced.now.queues) }
{
    let queues = enforced.queues();
    let mut text = Vec::from_slice(alloc, b"Message sequence chart, checked with ")?;
    text.extend_from_slice(queues_text(queues))?;
    text.extend_from_slice(b" (")?;
    print_queues(&mut text, alloc, enforced.chart(), &queues)?;
    text.extend_from_slice(b").")?;
    Ok(text)
}

/// The sentence on the number of races, and the number of closest races among them.
fn count_text(alloc: Global, races: usize, closest: usize) -> Result<Vec<u8>, AllocError>
    ensures { IfOk result (λ text. text.items ≡ count_text races closest) }
{
    if races == 1 {
        return Vec::from_slice(alloc, b"1 race");
    }
    let mut text = Vec::new(alloc);
    put_decimal(&mut text, races)?;
    text.extend_from_slice(b" races, ")?;
    put_decimal(&mut text, closest)?;
    text.extend_from_slice(b" of them closest")?;
    Ok(text)
}

/// A sentence of these words only.
fn said(alloc: Global, text: &[u8]) -> Result<Vec<Part>, AllocError>
    ensures { IfOk result (λ parts. parts.items ≡ words text.now ∷ []) }
{
    let mut parts = Vec::new(alloc);
    parts.push(part_of(alloc, Tag::Words, text)?)?;
    Ok(parts)
}

/// Appends a sentence of these words only to a page.
pub fn put_said(
    page: &mut Vec<u8>,
    alloc: Global,
    name: &[u8],
    style: SentenceStyle,
    text: &[u8],
) -> Result<(), AllocError>
    ensures { OnOk result (page.new.items
        ≡ page.old.items ++ line_text (sentence name.now style (words text.now ∷ []))) }
{
    let parts = said(alloc, text)?;
    put_sentence(page, name, style, &parts)?;
    Ok(())
}

/// Appends the sentence on the check to a page.
fn put_checked(page: &mut Vec<u8>, alloc: Global, enforced: &Enforced) -> Result<(), AllocError>
    ensures { OnOk result (page.new.items ≡ page.old.items
        ++ line_text (sentence (codes "p") SentenceStyle.Soft
        (words (checked_text enforced.now.chart enforced.now.queues) ∷ []))) }
{
    let text = checked_text(alloc, enforced)?;
    put_said(page, alloc, b"p", SentenceStyle::Soft, &text)?;
    Ok(())
}

/// Appends the beginning of a page to it.
fn put_begin(
    page: &mut Vec<u8>,
    alloc: Global,
    name: &[u8],
    enforced: &Enforced,
) -> Result<(), AllocError>
    ensures { OnOk result (page.new.items ≡ page.old.items
        ++ lines_text (begin_nodes name.now enforced.now.chart enforced.now.queues)) }
{
    put_plain(page, b"h1", name)?;
    put_checked(page, alloc, enforced)?;
    Ok(())
}

/// Appends the verdict of a chart that passes to a page.
fn put_passed(page: &mut Vec<u8>) -> Result<(), AllocError>
    ensures { OnOk result (page.new.items ≡ page.old.items ++ lines_text passed_nodes) }
{
    page.extend_from_slice(PASSED)
}

/// The verdict of a chart that passes.
const PASSED: &[u8] = b"<p class=\"verdict pass\">Pass</p>\n\
<p>Every run keeps the drawn order of every instance.</p>\n";

/// The explanation of a race.
const RACE: &[u8] = b"<p>A race is a pair of events of one instance that comes in the other order \
than drawn in some run. It is closest where nothing is drawn between the two, and every race spans \
a closest one.</p>\n";

/// Appends the number of races to a page.
fn put_count(
    page: &mut Vec<u8>,
    alloc: Global,
    races: usize,
    closest: usize,
) -> Result<(), AllocError>
    ensures { OnOk result (page.new.items ≡ page.old.items ++ line_text
        (sentence (codes "p") SentenceStyle.Verdict (words (count_text races closest) ∷ []))) }
{
    let text = count_text(alloc, races, closest)?;
    put_said(page, alloc, b"p", SentenceStyle::Verdict, &text)?;
    Ok(())
}

/// Appends the explanation of a race to a page.
pub fn put_race_text(page: &mut Vec<u8>) -> Result<(), AllocError>
    ensures { OnOk result
        (page.new.items ≡ page.old.items ++ line_text (plain (codes "p") race_text)) }
{
    page.extend_from_slice(RACE)
}

/// Appends the verdict of a chart with races to a page.
fn put_counted(
    page: &mut Vec<u8>,
    alloc: Global,
    races: usize,
    closest: usize,
) -> Result<(), AllocError>
    ensures { OnOk result
        (page.new.items ≡ page.old.items ++ lines_text (counted_nodes races closest)) }
{
    put_count(page, alloc, races, closest)?;
    put_race_text(page)?;
    Ok(())
}

/// Appends the verdict to a page.
fn put_verdict(
    page: &mut Vec<u8>,
    alloc: Global,
    races: usize,
    closest: usize,
) -> Result<(), AllocError>
    ensures { OnOk result
        (page.new.items ≡ page.old.items ++ lines_text (verdict_nodes races closest)) }
{
    if races == 0 {
        put_passed(page)?;
        return Ok(());
    }
    put_counted(page, alloc, races, closest)?;
    Ok(())
}

/// The caption of the picture of a chart with this number of races.
fn caption_text(races: usize) -> &'static [u8]
    ensures { result.now ≡ caption_text races }
{
    if races == 0 {
        b"The small numbers are those of events."
    } else {
        b"A capsule with a number marks a closest race, or several, told below by number. The \
small numbers are those of events."
    }
}

/// Appends the picture of the chart to a page.
fn put_chart_figure(
    page: &mut Vec<u8>,
    alloc: Global,
    scene: &Scene,
    races: usize,
) -> Result<(), AllocError>
    ensures { OnOk result
        (page.new.items ≡ page.old.items ++ line_text (chart_node scene.now races)) }
{
    put_figure(
        page,
        alloc,
        scene,
        b"The chart as drawn",
        caption_text(races),
    )?;
    Ok(())
}

/// Appends the chart to a page.
fn put_chart(
    page: &mut Vec<u8>,
    alloc: Global,
    scene: &Scene,
    races: usize,
) -> Result<(), AllocError>
    ensures { OnOk result
        (page.new.items ≡ page.old.items ++ lines_text (chart_nodes scene.now races)) }
{
    put_plain(page, b"h2", b"The chart")?;
    put_chart_figure(page, alloc, scene, races)?;
    Ok(())
}

/// Appends the part before the races to a page.
pub fn put_front(
    page: &mut Vec<u8>,
    alloc: Global,
    scene: &Scene,
    enforced: &Enforced,
    races: usize,
    closest: usize,
) -> Result<(), AllocError>
    ensures { OnOk result (page.new.items ≡ page.old.items ++ lines_text
        (front_nodes scene.now enforced.now.chart enforced.now.queues races closest)) }
{
    put_begin(page, alloc, scene.name.as_slice(), enforced)?;
    put_verdict(page, alloc, races, closest)?;
    put_chart(page, alloc, scene, races)?;
    Ok(())
}
