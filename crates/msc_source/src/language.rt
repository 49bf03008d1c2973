//! The language of a text.

/// The language in which a text draws its chart.
#[derive(Clone, Copy, Debug, PartialEq, Eq)]
pub enum Language {
    /// The textual form of Z.120, MSC/PR, in this project's profile.
    MscPr,
}
