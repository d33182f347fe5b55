//! What a picture shows.

/// How a picture is written.
#[derive(Clone, Copy, Debug, PartialEq, Eq)]
pub enum PictureForm {
    /// As an SVG picture.
    Svg,
    /// As a page, with that picture in it.
    Page,
    /// As text, a line for each event.
    Text,
}

/// What is to be shown of a run, and into which file.
#[derive(Drop)]
pub struct PicturePlan {
    /// The file for the picture.
    pub out: String,
    /// How it is written.
    pub form: PictureForm,
    /// The connections that are shown, as their places in the net; all, if none is named.
    pub only: Vec<u16>,
    /// The first event that is shown, counted from 1, if it is named.
    pub from: Option<u64>,
    /// The last event that is shown, if it is named.
    pub to: Option<u64>,
}
