//! Events, told with their reasons.
ghost use Rattle.std.specs.Prelude.{[], IfOk, string_bytes};
ghost use Rattle.abt_reason.specs.Explanation.{IsExplanation};

use abt_model::Event;
use abt_net::Net;
use abt_reason::explanation_of;
use std::alloc::{AllocError, Global};

/// What happens in a net and why, an event a line, where no text has the events.
pub fn reasons_of(alloc: Global, net: &Net, events: &[Event]) -> Result<String, AllocError>
    ensures { IfOk result (λ text. IsExplanation net.now [] events.now (string_bytes text)) }
{
    let places = [];
    explanation_of(alloc, net, events, &places)
}
