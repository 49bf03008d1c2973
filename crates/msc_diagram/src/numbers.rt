//! The numbers of places of races in a diagram.

ghost use Rattle.std.specs.Prelude.{◌≡◌, unwrap_or};
ghost use Rattle.msc_diagram.specs.Counts.{counts_of_all};

/// The numbers of places of races in a diagram, however many the list has.
#[derive(Clone, Copy)]
pub(crate) struct PlaceCounts {
    /// All places.
    pub races: u32,
    /// The places at which all races of all scenarios are of kinds that are left out, if some kinds
    /// are.
    pub allowed: Option<u32>,
    /// The other places at which no race counts in any scenario, since marks accept them, if marks
    /// are used.
    pub accepted: Option<u32>,
    /// The places of closest races, if only these are listed.
    pub closest: Option<u32>,
    /// The places that are listed.
    pub listed: u32,
}

/// The numbers that are known above the scenarios; otherwise `races` places, if all races are
/// listed.
pub(crate) fn counts_from(above: Option<PlaceCounts>, races: u32) -> PlaceCounts
    ensures { result ≡ unwrap_or above (counts_of_all races) }
{
    match above {
        Some(counts) => counts,
        None => PlaceCounts {
            races,
            allowed: None,
            accepted: None,
            closest: None,
            listed: races,
        },
    }
}
