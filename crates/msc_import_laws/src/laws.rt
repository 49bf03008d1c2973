//! Laws of imports, over the definitions only. The functions do nothing when they run: a caller
//! that needs a law calls its function.

ghost use Rattle.msc_import_laws.specs.Apart.{PathsAreDrawnDown};
ghost use Rattle.msc_import_laws.specs.Drawn.{DiagramsAreDrawnDown};
ghost use Rattle.msc_import_laws.specs.Heights.{DownwardIsARun, EnforcedGoesDown};
ghost use Rattle.msc_import_laws.specs.Heights.{OneOrderIsDownward, VisualGoesDown};
ghost use Rattle.msc_import_laws.specs.Imports.{AllAreScenarios, EnforcedGoesDownTheText};
ghost use Rattle.msc_import_laws.specs.Imports.{EventsAreEndsOfTheirArrows};
ghost use Rattle.msc_import_laws.specs.Imports.{ImportsAreCharts, ImportsAreScenarios};
ghost use Rattle.msc_import_laws.specs.Imports.{ScenariosAreCharts};
ghost use Rattle.msc_import_laws.specs.Imports.{TextsAreOutlined, TheTextIsARun};
ghost use Rattle.msc_import_laws.specs.Imports.{TheTextIsOneOrder, VisualGoesDownTheText};
ghost use Rattle.msc_import_laws.specs.Lines.{NamesAreLines, NamesTellLinesApart};
ghost use Rattle.msc_import_laws.specs.Pieces.{PiecesAreTheLine};
ghost use Rattle.msc_import_laws.specs.Spelled.{PlacesSpellTheirArrows};

use msc_chart::laws::{ends_share_queues, inputs_share_lines};

/// Every imported draft is a chart: it has no fault of charts. This holds for one scenario of a
/// text, and for each scenario if all are imported.
pub fn imports_are_charts()
    ensures one { ImportsAreCharts }
    ensures all { ScenariosAreCharts }
{}

/// The text is a run: from top to bottom, with the outputs of an arrow before its inputs, the
/// events of a scenario are a whole run of its chart under each architecture, and this run keeps
/// the drawn order. There is one such order of the events.
pub fn the_text_is_a_run()
    ensures run { TheTextIsARun }
    ensures order { TheTextIsOneOrder }
{
    ends_share_queues();
    inputs_share_lines();
}

/// The enforced order goes down the text, and so does the visual order: if one event comes before
/// another, its arrow is that of the other or is above it.
pub fn enforced_goes_down()
    ensures enforced { EnforcedGoesDownTheText }
    ensures visual { VisualGoesDownTheText }
{}

/// The import of a text is a scenario of its diagram; the arrows of the scenario are between its
/// lines, and each has a number of its own.
pub fn imports_are_scenarios()
    ensures one { ImportsAreScenarios }
    ensures all { AllAreScenarios }
    ensures outlined { TextsAreOutlined }
{}

/// Names distinguish lines: each NAME of a text is one line of its diagram, and two NAMEs are drawn
/// under one name if and only if they are one NAME.
pub fn names_tell_lines_apart()
    ensures apart { NamesTellLinesApart }
    ensures once { NamesAreLines }
{}

/// Each event of a scenario's draft is an end of the arrow that is at the same height in the path
/// of the scenario.
pub fn events_are_ends_of_their_arrows()
    ensures { EventsAreEndsOfTheirArrows }
{}

/// A line of a text consists of the pieces in which it is read, with semicolons between them, and
/// at most a comment after them. Nothing else of it is skipped.
pub fn pieces_are_the_line()
    ensures { PiecesAreTheLine }
{}

/// The place of an event is that of its arrow: a statement of the text's diagram at this place is
/// an arrow, and the event is an end of this arrow, with its lines, its label and its number.
pub fn places_spell_their_arrows()
    ensures { PlacesSpellTheirArrows }
{}

/// The draft of a scenario is drawn from top to bottom, arrow by arrow. The law only requires that
/// the arrows of the diagram have different numbers, and that numbers and names distinguish the
/// arrows and the lines of the path.
pub fn scenarios_are_drawn_down()
    ensures diagrams { DiagramsAreDrawnDown }
    ensures paths { PathsAreDrawnDown }
{}

/// If a chart is drawn from top to bottom, all order goes down, and the events from top to bottom,
/// which have one order, are a whole run.
pub fn charts_drawn_down()
    ensures visual { VisualGoesDown }
    ensures enforced { EnforcedGoesDown }
    ensures run { DownwardIsARun }
    ensures order { OneOrderIsDownward }
{}
