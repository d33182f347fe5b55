//! Whether two replies or outcomes are the same, and the reply that an outcome tells.
ghost use Rattle.std.specs.Prelude.{◌≡◌, ◌↔◌, IsTrue};
ghost use Rattle.abt_weave.specs.Projections as woven;

use abt_journal::PortReply;
use abt_model::Outcome;

// Whether the outcomes are the same.
pub(crate) fn is_same_outcome(one: &Outcome, other: &Outcome) -> bool
    ensures { IsTrue result ↔ (one.now ≡ other.now) }
{
    *one == *other
}

// Whether the replies are the same.
pub(crate) fn is_same_reply(one: &PortReply, other: &PortReply) -> bool
    ensures { IsTrue result ↔ (one.now ≡ other.now) }
{
    *one == *other
}

// Whether an event with this outcome has happened.
pub(crate) fn is_enabled(outcome: &Outcome) -> bool
    ensures { result ≡ woven.is_enabled outcome.now }
{
    !matches!(outcome, Outcome::NotEnabled(_))
}

// The reply of a port that an outcome tells.
pub(crate) fn reply_of(outcome: Outcome) -> Option<PortReply>
    ensures { result ≡ woven.reply_of outcome }
{
    match outcome {
        Outcome::Requested(onward) => Some(PortReply::Requested(onward)),
        Outcome::Answered(back) => Some(PortReply::Answered(back)),
        Outcome::Arrived(verdict) => Some(PortReply::Arrived(Ok(verdict))),
        Outcome::CapacitySet => Some(PortReply::Capped(Ok(()))),
        Outcome::CapacityRefused(fault) => Some(PortReply::Capped(Err(fault))),
        _ => None,
    }
}
