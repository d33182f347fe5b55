//! What is shown behind an answer.
use crate::net_state::NetState;
use crate::possible::Possible;

// What is shown behind the answer to an event, where it is wanted.
#[derive(Debug, Drop)]
pub(crate) struct Shown {
    pub(crate) state: Option<NetState>,
    pub(crate) possible: Option<Possible>,
}
