//! Stale marks, in words.

ghost use Rattle.std.specs.Prelude.{◌≡◌, codes};
ghost use Rattle.msc_wording.specs.Stale.{stale_sentence};

/// That a mark accepts no race, or marks nothing, in a sentence without a full stop.
pub fn stale_sentence(has_arrow: bool) -> &'static str
    ensures { result.now ≡ stale_sentence has_arrow }
{
    if has_arrow {
        "this mark accepts no race"
    } else {
        "this mark has no arrow below it"
    }
}

/// What to do with a stale mark, as the text of a help.
pub fn stale_help() -> &'static str
    ensures { result.now ≡ codes "remove it, or correct what it says" }
{
    "remove it, or correct what it says"
}
