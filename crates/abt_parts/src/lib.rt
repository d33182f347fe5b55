//! Parts by hand: each line of an input is a cell for a policer, a shaper, a reader of cells or a port, and is answered by one line before the
//! next one is read.
#![tactic(auto)]

mod by_objects;
mod cells;
mod fault;
mod hex_digits;
mod in_words;
mod law;
mod line_object;
mod moment;
mod performing;
mod plan;
mod police;
mod police_objects;
mod port_answers;
mod read_objects;
mod serve;
mod serve_objects;
mod shape;
mod shape_objects;

pub use cells::ReadLines;
pub use fault::LineFault;
pub use law::{lines_are_as_words, steps_are_functions};
pub use performing::perform_parts;
pub use plan::PartsPlan;
pub use police::PolicedLines;
pub use police_objects::PolicedObjects;
pub use port_answers::{perform_port_objects, port_objects};
pub use read_objects::ReadObjects;
pub use serve::ServedLines;
pub use serve_objects::ServedObjects;
pub use shape::ShapedLines;
pub use shape_objects::ShapedObjects;
