//! The articles of the first closest races.

ghost use Rattle.std.specs.Prelude.{◌≡◌, ◌<◌, ◌+◌, ◌++◌, ◌∷◌, [], IfOk, List, None, OnOk, Option};
ghost use Rattle.std.specs.Prelude.{Some};
ghost use Rattle.std.specs.Prelude.{length, ℕ};
ghost use Rattle.msc_chart.specs.Orders.{IsRace};
ghost use Rattle.msc_draw.specs.Listed.{listed_of};
ghost use Rattle.msc_race.specs.Reversals.{IsReversingRun};
ghost use Rattle.msc_race.specs.Views.{AreRacesOf, wiring_of};
ghost use Rattle.msc_html.specs.Articles.{article, article_node};
ghost use Rattle.msc_html.specs.Progress.{GoesOn, HasTold, IsOfDraft, judged, ShowsIn};
ghost use Rattle.msc_tree.specs.Trees.{line_text};
ghost use Rattle.msc_html.specs.declared.races.Progress.{Progress};
ghost use Rattle.msc_picture.specs.declared.scene.Scene.{Scene};

use crate::article::{ShownRace, put_article};
use msc_chart::Event;
use msc_parser::Draft;
use msc_picture::{Reversed, Scene, run_scene};
use msc_race::Enforced;
use msc_reason::{Listing, Stream, cause_of};
use std::alloc::{AllocError, Global};

/// The greatest number of races with an article.
pub const ARTICLE_LIMIT: usize = 50;

/// The greatest number of rows that the pictures of their runs have together.
pub const ROW_LIMIT: usize = 1500;

/// The source of the articles: a draft, the ranks by which the events of its pictures are drawn, if
/// they are given, the closest races of its chart under an architecture, and the picture of it.
#[derive(Clone, Copy)]
pub struct Source<'a> {
    pub draft: &'a Draft,
    pub ranks: Option<&'a [usize]>,
    pub listing: &'a Listing<'a>,
    pub scene: &'a Scene,
}

/// The progress of the articles: how many there are, how many rows are left, and whether the
/// picture of a run had no room.
#[derive(Clone, Copy)]
pub struct Progress {
    pub told: usize,
    pub room: usize,
    pub full: bool,
}

/// The run that reverses a race.
fn reversing_run(
    alloc: Global,
    enforced: &Enforced,
    e: Event,
    f: Event,
) -> Result<Vec<Event>, AllocError>
    requires { IsRace (wiring_of enforced.now) e f }
    ensures { IfOk result (λ run. IsReversingRun (wiring_of enforced.now) e f run.items) }
{
    enforced.facts();
    match enforced.reversing_run(alloc, e, f)? {
        Some(run) => Ok(run),
        None => Err(AllocError),
    }
}

/// The picture of a run that reverses a race.
fn run_of(alloc: Global, source: &Source<'_>, told: ShownRace) -> Result<Scene, AllocError>
    requires drawn { IsOfDraft source.now }
    requires race { IsRace (wiring_of (judged source.now)) told.first told.second }
    ensures { IfOk result (ShowsIn source.now told) }
{
    let enforced = source.listing.enforced();
    let run = reversing_run(alloc, enforced, told.first, told.second)?;
    let race = Reversed {
        first: told.first,
        second: told.second,
        number: told.number,
    };
    let wiring = enforced.wiring();
    let scene = run_scene(
        alloc,
        source.draft,
        wiring,
        source.ranks,
        run.as_slice(),
        race,
    )?;
    Ok(scene)
}

/// Appends the article of a race to a page, with the picture of a run if there is room for it.
fn put_run_article(
    page: &mut Vec<u8>,
    alloc: Global,
    source: &Source<'_>,
    told: ShownRace,
    progress: &mut Progress,
) -> Result<(), AllocError>
    requires drawn { IsOfDraft source.now }
    requires race { IsRace (wiring_of (judged source.now)) told.first told.second }
    ensures article { OnOk result ((run : Option Scene) × GoesOn (ShowsIn source.now) told progress.old
        progress.new run × (page.new.items ≡ page.old.items ++ line_text (article_node
        source.now.scene.now (judged source.now).chart (judged source.now).queues
        (article told run)))) }
    ensures told { OnOk result (progress.new.told ≡ progress.old.told) }
{
    let enforced = source.listing.enforced();
    if progress.full {
        put_article(page, alloc, source.scene, enforced, told, None)?;
        return Ok(());
    }
    let run = run_of(alloc, source, told)?;
    let rows = run.rows.as_slice().len();
    if rows > progress.room {
        progress.full = true;
        put_article(page, alloc, source.scene, enforced, told, None)?;
        return Ok(());
    }
    progress.room -= rows;
    put_article(page, alloc, source.scene, enforced, told, Some(&run))?;
    Ok(())
}

/// Appends the article of a race to a page, if it is one of the first.
fn put_race(
    page: &mut Vec<u8>,
    alloc: Global,
    source: &Source<'_>,
    progress: &mut Progress,
    race: (Event, Event),
) -> Result<(), AllocError>
    requires drawn { IsOfDraft source.now }
    requires race { IsRace (wiring_of (judged source.now)) race.0 race.1 }
    ensures { OnOk result ((base : List ℕ) (races : List (ℕ × ℕ))
        → HasTold source.now base page.old.items races progress.old
        → HasTold source.now base page.new.items (races ++ race ∷ []) progress.new) }
{
    if progress.told >= ARTICLE_LIMIT {
        return Ok(());
    }
    let enforced = source.listing.enforced();
    let told = ShownRace {
        number: progress.told + 1,
        first: race.0,
        second: race.1,
        cause: cause_of(enforced, race.0, race.1),
    };
    put_run_article(page, alloc, source, told, progress)?;
    progress.told += 1;
    Ok(())
}

/// Appends the articles of the races of an event to a page.
fn put_races(
    page: &mut Vec<u8>,
    alloc: Global,
    source: &Source<'_>,
    progress: &mut Progress,
    races: &[(Event, Event)],
) -> Result<(), AllocError>
    requires drawn { IsOfDraft source.now }
    requires races { AreRacesOf (judged source.now) races.now }
    ensures { OnOk result ((base : List ℕ) (before : List (ℕ × ℕ))
        → HasTold source.now base page.old.items before progress.old
        → HasTold source.now base page.new.items (before ++ races.now) progress.new) }
{
    for race in races {
        put_race(page, alloc, source, progress, *race)?;
    }
    Ok(())
}

/// Appends the articles of the first races of a listing to a page.
pub fn put_articles(
    page: &mut Vec<u8>,
    alloc: Global,
    source: &Source<'_>,
) -> Result<(), AllocError>
    requires { IsOfDraft source.now }
    ensures { OnOk result ((progress : Progress) × HasTold source.now page.old.items
        page.new.items (listed_of source.now.listing.now) progress) }
{
    let listing = source.listing;
    listing.enforced().facts();
    let mut stream = Stream::new(alloc);
    let mut progress = Progress {
        told: 0,
        room: ROW_LIMIT,
        full: false,
    };
    for e in 0..listing.events() {
        listing.next(&mut stream, e)?;
        put_races(page, alloc, source, &mut progress, stream.races.as_slice())?;
    }
    Ok(())
}
