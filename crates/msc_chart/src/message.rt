//! Messages of a chart, numbered from 0 by their outputs, in the order of the text.

use crate::event::Event;
use msc_parser::Name;

/// The data of one message of a chart: its name, its message instance name if it has one, and its
/// output.
#[derive(Drop)]
pub(crate) struct Message {
    pub name: Name,
    pub number: Option<Name>,
    pub output: Event,
}
