//! Messages under way.
use abt_model::Event;

/// A message under way.
#[derive(Clone, Copy, Debug, PartialEq, Eq)]
pub(crate) struct Parcel {
    // The event that it comes.
    pub(crate) event: Event,
    // How often it, and what follows it, may still be repeated.
    pub(crate) repeats: u8,
}
