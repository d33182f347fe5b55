//! `abt draw`: a scenario is run, and a picture of its run is made; where its parts stand, and their texts in SVG; or as text.
#![tactic(auto)]

mod actor;
mod arrow;
mod band;
mod block;
mod cells;
mod drawing;
mod element;
mod escape;
mod fault;
mod ladder;
mod legend;
mod level;
mod lifeline;
mod mark;
mod moment;
mod page;
mod picture;
mod place;
mod point;
mod rates;
mod row;
mod rung;
mod scene;
mod script;
mod sheet;
mod stack;
mod stuck;
mod style;
mod visible;
mod way;
mod words;

pub use abt_plans::{PictureForm, PicturePlan};
pub use actor::{Actor, actor_at, column_of, columns_of};
pub use arrow::{Arrow, Lost, Spot, arrow_of, lost_of};
pub use block::{BAND_HEIGHT, Block, blocks_of, height_of};
pub use drawing::{EVENTS_MAX, drawing_of, picture_of};
pub use element::{
    Picture, push_circle, push_document, push_group, push_label, push_line, push_rect,
    push_told_line, push_told_rect,
};
pub use escape::escaped;
pub use fault::{DrawFault, tell_draw_fault};
pub use place::{Rows, Span, level_of, x_of, y_of};
pub use point::{Point, Size, Tenths};
pub use scene::{Scene, StuckMark};
