//! Plans of plays.
use crate::chances::Chances;
use crate::picture::PicturePlan;

/// A play of a scenario's scripts.
#[derive(Drop)]
pub struct PlayPlan {
    /// The file of the scenario, or `None` for the standard input.
    pub file: Option<String>,
    /// What the play is drawn by.
    pub chances: Chances,
    /// The file for the scenario of the events, if they are to be written.
    pub events: Option<String>,
    /// The picture of the events, if they are to be drawn.
    pub picture: Option<PicturePlan>,
}
