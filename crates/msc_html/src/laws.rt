//! Laws of reports, over the definitions only. The functions have no code: a caller that needs a
//! law calls its function.

ghost use Rattle.msc_html.specs.Laws.{AlwaysLacksForGood};
ghost use Rattle.msc_html.specs.Paragraphs.{ParagraphsMakeTheText};
ghost use Rattle.msc_html.specs.Plain.{PrintedPicturesArePlain, PrintedReportsArePlain};
ghost use Rattle.msc_html.specs.Plain.{PrintedReversalsArePlain, ReportsArePlain};

use msc_chart::laws::ends_share_queues;

/// If a race is always reversed, the pair that it lacks comes in the other order in every run. So
/// no further order can help.
pub fn always_lacks_for_good()
    ensures { AlwaysLacksForGood }
{
    ends_share_queues();
}

/// A text is its paragraphs, each with the empty line that follows it, and what no empty line follows.
pub fn paragraphs_make_the_text()
    ensures { ParagraphsMakeTheText }
{}

/// Each picture of a draft's chart, in text and in SVG, each picture of a run that reverses a race,
/// and each report consists of the bytes 32 to 126 and line ends, if the version does: the grammar
/// limits names to them, and the texts of actions and the canonical text are masked.
pub fn plain_bytes()
    ensures reports { ReportsArePlain }
    ensures pictures { PrintedPicturesArePlain }
    ensures reversals { PrintedReversalsArePlain }
    ensures printed { PrintedReportsArePlain }
{
    msc_picture::laws::plain_bytes();
    msc_svg::laws::plain_bytes();
}
