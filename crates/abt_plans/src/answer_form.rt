//! How answers are told.

/// How a net's answers are told (docs/FORMATS.md, "Events line by line").
#[derive(Clone, Copy, Debug, Default, PartialEq, Eq)]
pub struct AnswerForm {
    /// As JSON, an object for each answer; otherwise in words.
    pub json: bool,
    /// With the rates, what is held, the totals and the capacities behind each answer to an event.
    pub state: bool,
    /// With what can happen next of what was sent, behind each answer to an event and behind that state.
    pub possible: bool,
}
