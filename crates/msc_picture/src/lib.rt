//! Pictures of charts: the order and the rows of their events, and the picture as text.
//!
//! The order in which events are drawn, the rows, the bars and the forms of a picture are this
//! project's own. Events are numbered from 0, over all lines; rows and columns from 0.
//!
//! # Choices
//!
//! - A picture is plain data first (`Scene`), and each form of it is a function of that data. So a
//!   further form needs no laws about charts and runs.
//! - One test (`goes_first`) decides what has to be drawn before what, for charts and for runs. A
//!   frame has a level for each event, and for some outputs the output before it; no rule of the
//!   drawing order depends on whether a chart or a run is drawn.
//! - For each line the code keeps the first two places of its course with an event that is left.
//!   They only grow, and show at once whether all events above an event are drawn. A count would
//!   need a proof that each event is drawn once.
//! - Bars are a parameter. So this crate depends on charts and not on races, and the caller that
//!   makes bars needs no list of all races.
//! - A length past all numbers is an error, as if memory ran out (`plus`): contracts do not bound
//!   names, and no memory holds a line of that length.
//! - A byte past the end of a line is dropped. No clause states that columns leave room for all
//!   that is drawn; stored pictures show it.
#![tactic(auto)]

mod band;
mod columns;
mod drawn;
mod extent;
mod following;
mod frame;
pub mod laws;
mod ordering;
mod part;
mod piece;
mod ranking;
mod ready;
mod row;
mod rule;
mod run;
mod scene;
mod searching;
mod signs;
mod text;

pub use band::{begins_segment, grow};
pub use columns::plus;
pub use ordering::drawing_order;
pub use run::run_order;
pub use scene::{
    Act, Arrow, Band, Head, RaceBar, Reversed, Row, Scene, Spot, chart_scene, run_scene,
};
pub use text::put_text;
