//! Pictures of charts in SVG: the layout, and the elements that show it.
//!
//! Lengths are pixels. Events, messages, instances and rows are numbered from 0. The form is this
//! project's own; what a picture shows is a `Scene` of `msc_picture`.
//!
//! # Choices
//!
//! - Each element is a function of the scene and a `Layout`. So a page can hold pictures with
//!   another heading, or with none, by the same calls.
//! - Constant parts are literals in the code and trees in the definitions; a proof computes that
//!   they agree.
//! - Laws keep axes and rows apart. Only tests show that no two texts overlap.
#![tactic(auto)]

mod action;
mod bar;
mod caption;
mod depth;
mod element;
mod head;
mod hits;
pub mod laws;
mod layout;
mod measure;
mod place;
mod svg;

pub use layout::{Layout, layout_of};
pub use svg::{put_picture, put_size, put_svg, put_tip};
