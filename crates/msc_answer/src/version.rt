//! The version of the program.

/// What `msc --version` prints after the program's name.
pub const VERSION: &str = "0.3.0";
