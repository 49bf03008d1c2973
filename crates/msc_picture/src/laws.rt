//! Laws of pictures, over their definitions only. The functions have no code: a caller that needs a
//! law calls its function.

ghost use Rattle.msc_picture.specs.Laws.{BandsAreOfCoregions, BandsHaveNoOther};
ghost use Rattle.msc_picture.specs.Laws.{DrawnRanksDoNotFall, DrawnRunsAreRuns};
ghost use Rattle.msc_picture.specs.Laws.{EachClosestRaceIsMarked, EachCoregionHasABand};
ghost use Rattle.msc_picture.specs.Laws.{BarsHaveNoOther, OneLabelInARow, RowsAreFull};
ghost use Rattle.msc_picture.specs.Laws.{RowsKeepTheVisualOrder, RowsReadBack};
ghost use Rattle.msc_picture.specs.Plain.{PicturesArePlain, TextsOfPicturesArePlain};

use msc_chart::laws::{ends_share_queues, inputs_share_lines};

/// The numbers of the events, read row by row, are the order in which they are drawn.
pub fn numbers_read_back()
    ensures { RowsReadBack }
{}

/// A row has the events of one message or one action, and an output and its input share a row
/// whenever nothing is drawn between them.
pub fn one_label_in_a_row()
    ensures one { OneLabelInARow }
    ensures full { RowsAreFull }
{}

/// An event that visibly precedes another is in a row above it, or is its output in the same row.
pub fn rows_keep_the_visual_order()
    ensures { RowsKeepTheVisualOrder }
{}

/// Ranks that do not fall along some order of the events which keeps the visual order do not fall
/// along the order in which the chart is drawn by them, if the two ends of each message have one
/// rank. So the arrows of a diagram are drawn in the order of its text.
pub fn the_order_of_the_text_is_kept()
    ensures { DrawnRanksDoNotFall }
{}

/// The picture of a whole run is a whole run of the architecture too, and the events of each line
/// come in the same order as in the run; so it reverses each race that the run reverses.
pub fn drawn_runs_are_runs()
    ensures { DrawnRunsAreRuns }
{
    ends_share_queues();
    inputs_share_lines();
}

/// Each band belongs to a coregion of several events, and goes from the first to the last row with
/// an event of it. Each such coregion has one band. Another event of its line is in these rows only
/// if it shares its row with the other end of its message to oneself.
pub fn each_coregion_has_a_band()
    ensures bands { BandsAreOfCoregions }
    ensures each { EachCoregionHasABand }
    ensures other { BandsHaveNoOther }
{}

/// Each closest race joins an upper and a lower event of a bar that has the number of the race,
/// and each event of a bar is in a closest race.
pub fn each_closest_race_is_marked()
    ensures each { EachClosestRaceIsMarked }
    ensures other { BarsHaveNoOther }
{}

/// If the names of a chart consist of the bytes 32 to 126, as the grammar requires, all texts of
/// its pictures do, since the texts of actions are masked. The picture in text then consists of
/// these bytes and line ends.
pub fn plain_bytes()
    ensures texts { TextsOfPicturesArePlain }
    ensures picture { PicturesArePlain }
{}
