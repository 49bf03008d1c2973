//! Trees of elements, from which SVG and HTML are written, and their bytes.
//!
//! Only the definitions have trees: each call appends the bytes of a part to a page. The elements
//! here are those of pictures. Lengths are pixels.
//!
//! # Choices
//!
//! - A block is appended as its beginning, the lines of its children and its end. A law states that
//!   the result is the block.
//! - Each value is escaped when it is appended, numbers and paths too. So no clause has to state
//!   that they are free of the four bytes.
//! - Children are a list type of their own (`Nodes`), since a data type cannot be inside a list of
//!   itself.
#![tactic(auto)]

pub mod laws;
mod shape;
mod tree;

pub use shape::{
    Area, put_end_circle, put_path, put_plain, put_point, put_rect, put_step, put_text_at,
};
pub use tree::{put_attribute, put_decimal, put_escaped, put_numbered};
