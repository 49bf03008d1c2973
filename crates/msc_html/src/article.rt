//! The article of one closest race.

ghost use Rattle.std.specs.Prelude.{◌≡◌, ◌++◌, ◌∷◌, [], IfOk, None, OnOk, Some, codes, option_map};
ghost use Rattle.std.specs.Fmt.{decimal};
ghost use Rattle.msc_html.specs.Articles.{article, article_node, open_attributes, place_text};
ghost use Rattle.msc_html.specs.Articles.{reverse_text, run_drawn, run_node, run_text, run_told};
ghost use Rattle.msc_html.specs.Articles.{told_nodes};
ghost use Rattle.msc_tree.specs.Shapes.{valued};
ghost use Rattle.msc_tree.specs.Trees.{attribute_text, line_text, lines_text, opened};

use crate::figure::put_figure;
use crate::part::{SentenceStyle, Tag, part_of, put_sentence};
use crate::telling::{causes_parts, drawn_parts, reason_parts, title_parts};
use msc_chart::Event;
use msc_links::print_queue_options;
use msc_picture::Scene;
use msc_race::Enforced;
use msc_reason::Cause;
use msc_tree::{put_attribute, put_decimal, put_plain};
use std::alloc::{AllocError, Global};

/// A closest race: its number among them, from 1, its events, and why it is one.
#[derive(Clone, Copy)]
pub struct ShownRace {
    pub number: usize,
    pub first: Event,
    pub second: Event,
    pub cause: Cause,
}

/// The sentence that a run reverses a race.
fn run_text(alloc: Global, told: ShownRace) -> Result<Vec<u8>, AllocError>
    ensures { IfOk result (λ text. text.items ≡ run_text told) }
{
    let mut text = Vec::from_slice(alloc, b"A run with event ")?;
    put_decimal(&mut text, told.second as usize)?;
    text.extend_from_slice(b" before event ")?;
    put_decimal(&mut text, told.first as usize)?;
    Ok(text)
}

/// The command that draws the run.
fn reverse_text(alloc: Global, enforced: &Enforced, told: ShownRace) -> Result<Vec<u8>, AllocError>
    ensures { IfOk result (λ text.
        text.items ≡ reverse_text enforced.now.chart enforced.now.queues told) }
{
    let mut text = Vec::from_slice(alloc, b"msc reverse ")?;
    print_queue_options(&mut text, alloc, enforced.chart(), &enforced.queues())?;
    text.extend_from_slice(b" FILE ")?;
    put_decimal(&mut text, told.first as usize)?;
    text.extend_from_slice(b" ")?;
    put_decimal(&mut text, told.second as usize)?;
    Ok(text)
}

/// Appends the instructions for drawing the run to a page.
fn put_run_told(
    page: &mut Vec<u8>,
    alloc: Global,
    enforced: &Enforced,
    told: ShownRace,
) -> Result<(), AllocError>
    ensures { OnOk result (page.new.items ≡ page.old.items
        ++ line_text (run_told enforced.now.chart enforced.now.queues told)) }
{
    let mut text = run_text(alloc, told)?;
    text.extend_from_slice(b": ")?;
    let command = reverse_text(alloc, enforced, told)?;
    let mut parts = Vec::new(alloc);
    parts.push(part_of(alloc, Tag::Words, &text)?)?;
    parts.push(part_of(alloc, Tag::Code, &command)?)?;
    put_sentence(page, b"p", SentenceStyle::Plain, &parts)?;
    Ok(())
}

/// Appends to a page the beginning of an element that can be opened. The runs of the first three
/// races are open.
fn put_details_begin(page: &mut Vec<u8>, k: usize) -> Result<(), AllocError>
    ensures { OnOk result (page.new.items ≡ page.old.items
        ++ (opened (codes "details") (open_attributes k) ++ codes ">\n")) }
{
    if k < 4 {
        return page.extend_from_slice(b"<details open=\"\">\n");
    }
    page.extend_from_slice(b"<details>\n")
}

/// Appends the picture of a run to a page.
fn put_run_drawn(
    page: &mut Vec<u8>,
    alloc: Global,
    told: ShownRace,
    run: &Scene,
) -> Result<(), AllocError>
    ensures { OnOk result
        (page.new.items ≡ page.old.items ++ line_text (run_drawn told run.now)) }
{
    let text = run_text(alloc, told)?;
    put_details_begin(page, told.number)?;
    put_plain(page, b"summary", &text)?;
    put_figure(page, alloc, run, &text, b"")?;
    page.extend_from_slice(b"</details>\n")?;
    Ok(())
}

/// Appends the run of a race, which is drawn or not, to a page.
fn put_run(
    page: &mut Vec<u8>,
    alloc: Global,
    enforced: &Enforced,
    told: ShownRace,
    run: Option<&Scene>,
) -> Result<(), AllocError>
    ensures { OnOk result (page.new.items ≡ page.old.items
        ++ line_text (run_node enforced.now.chart enforced.now.queues told
        (option_map (λ s. s.now) run.entry))) }
{
    match run {
        Some(run) => put_run_drawn(page, alloc, told, run),
        None => put_run_told(page, alloc, enforced, told),
    }
}

/// Appends the words on a race, which use the picture of its chart, to a page.
fn put_told(
    page: &mut Vec<u8>,
    alloc: Global,
    scene: &Scene,
    told: ShownRace,
) -> Result<(), AllocError>
    ensures { OnOk result
        (page.new.items ≡ page.old.items ++ lines_text (told_nodes scene.now told)) }
{
    let (e, f, cause) = (told.first, told.second, told.cause);
    let title = title_parts(alloc, scene, told.number, e, cause)?;
    let drawn = drawn_parts(alloc, scene, e, f)?;
    let reason = reason_parts(alloc, scene, e, f, cause)?;
    let causes = causes_parts(alloc, scene, cause)?;
    put_sentence(page, b"h3", SentenceStyle::Plain, &title)?;
    put_sentence(page, b"p", SentenceStyle::Plain, &drawn)?;
    put_sentence(page, b"p", SentenceStyle::Plain, &reason)?;
    put_sentence(page, b"p", SentenceStyle::Plain, &causes)?;
    Ok(())
}

/// The place of the article of race `k`.
fn place_text(alloc: Global, k: usize) -> Result<Vec<u8>, AllocError>
    ensures { IfOk result (λ text. text.items ≡ place_text k) }
{
    let mut text = Vec::from_slice(alloc, b"race-")?;
    put_decimal(&mut text, k)?;
    Ok(text)
}

/// Appends the place of the article of race `k` to a page.
fn put_place(page: &mut Vec<u8>, alloc: Global, k: usize) -> Result<(), AllocError>
    ensures { OnOk result (page.new.items
        ≡ page.old.items ++ attribute_text (valued (codes "id") (place_text k))) }
{
    let place = place_text(alloc, k)?;
    put_attribute(page, b"id", &place)
}

/// Appends the beginning of the article of race `k` to a page.
pub fn put_article_begin(page: &mut Vec<u8>, alloc: Global, k: usize) -> Result<(), AllocError>
    ensures { OnOk result (page.new.items ≡ page.old.items ++ (opened (codes "article")
        (valued (codes "id") (place_text k) ∷ []) ++ codes ">\n")) }
{
    page.extend_from_slice(b"<article")?;
    put_place(page, alloc, k)?;
    page.extend_from_slice(b">\n")?;
    Ok(())
}

/// Appends the article of a race to a page.
pub fn put_article(
    page: &mut Vec<u8>,
    alloc: Global,
    scene: &Scene,
    enforced: &Enforced,
    told: ShownRace,
    run: Option<&Scene>,
) -> Result<(), AllocError>
    ensures { OnOk result (page.new.items ≡ page.old.items ++ line_text (article_node scene.now
        enforced.now.chart enforced.now.queues (article told (option_map (λ s. s.now) run.entry)))) }
{
    put_article_begin(page, alloc, told.number)?;
    put_told(page, alloc, scene, told)?;
    put_run(page, alloc, enforced, told, run)?;
    page.extend_from_slice(b"</article>\n")?;
    Ok(())
}
