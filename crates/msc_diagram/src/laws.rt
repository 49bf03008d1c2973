//! Laws of the numbers that are printed of a diagram. No code runs here: a call costs nothing.

ghost use Rattle.msc_diagram.specs.Laws.{PlacesAddUp};

/// If the closest races are not selected, there are as many places of races as allowed and listed
/// ones together.
pub fn places_add_up()
    ensures { PlacesAddUp }
{}
