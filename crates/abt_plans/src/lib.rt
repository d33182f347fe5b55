//! What commands are asked for, as values: pictures, plays, dialogues with a net, and processes.
#![tactic(auto)]

mod answer_form;
mod chances;
mod picture;
mod play;
mod process;

pub use answer_form::AnswerForm;
pub use chances::{Chances, Fate};
pub use picture::{PictureForm, PicturePlan};
pub use play::PlayPlan;
pub use process::{SourcePlan, SwitchPlan};
