//! Laws of rules, over their definitions only. The functions have no code: a caller that needs a
//! law calls its function.

ghost use Rattle.msc_links.specs.Laws.{EachRuleCounts, GivenLinkRulesWin, OrderDoesNotMatter};
ghost use Rattle.msc_links.specs.Laws.{TextLinkRulesWin};

/// In a list without a fault, each rule for a link gives the link its kind.
pub fn each_rule_counts()
    ensures { EachRuleCounts }
{}

/// Lists with the same rules, in any order, have a fault or none alike, and without one they give
/// the same kinds.
pub fn order_does_not_matter()
    ensures { OrderDoesNotMatter }
{}

/// A rule for a link beats each rule for its receiver.
pub fn rules_of_links_win()
    ensures given { GivenLinkRulesWin }
    ensures text { TextLinkRulesWin }
{}
