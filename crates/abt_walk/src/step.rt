//! The steps of the walk.
use abt_facts::Fact;
use abt_world::{Cause, Outcome};

/// The outcome of an event, and the facts that it adds.
#[derive(Clone, Copy, Debug, PartialEq, Eq)]
pub struct Step {
    pub outcome: Outcome,
    pub added: [Option<Fact>; 2],
}

/// An event that changes nothing.
pub fn nothing(outcome: Outcome) -> Step {
    Step {
        outcome,
        added: [None, None],
    }
}

/// An event that isn't enabled.
pub fn not_enabled(cause: Cause) -> Step {
    nothing(Outcome::NotEnabled(cause))
}

/// An event that adds one fact.
pub fn adds(outcome: Outcome, fact: Fact) -> Step {
    Step {
        outcome,
        added: [Some(fact), None],
    }
}
