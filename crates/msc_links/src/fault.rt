//! The faults of rules.

/// What is wrong with a rule, and the bytes that show it. The first variant that applies is the
/// fault of the rule.
#[derive(Clone, Copy, Debug, PartialEq, Eq)]
pub enum LinkFault<'w> {
    /// LINK has neither of its two forms. This is LINK without the blanks around it.
    NoLink(&'w [u8]),
    /// No line has this name, the first unknown one of LINK.
    NoInstance(&'w [u8]),
    /// An earlier rule of the list gave the same links a different kind. This is LINK without the
    /// blanks around it.
    TwoKinds(&'w [u8]),
}

/// The first fault of two lists of rules, and which list it is in.
#[derive(Clone, Copy, Debug, PartialEq, Eq)]
pub enum RulesFault<'w> {
    /// The first fault of the rules of a text.
    Text(LinkFault<'w>),
    /// The text has no fault, and this is the first of the rules of a command line.
    Given(LinkFault<'w>),
}
