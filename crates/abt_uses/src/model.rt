//! A law, and a list of events.
ghost use Rattle.std.specs.Prelude.{◌≡◌, List, [], ◌∷◌, All, IfOk};
ghost use Rattle.abt_model.specs.Events.{AsksRate};
ghost use Rattle.abt_model.specs.Run.{facts_after};
ghost use Rattle.abt_model.specs.Safe.{IsSafe};
ghost use Rattle.abt_model.specs.declared.event.Event.{Event as EventSpec};

use abt_model::{Event, Sequence, every_past_is_safe};
use abt_net::Net;
use std::alloc::{AllocError, Global};

/// Nothing that can happen in a net makes it unsafe. This does nothing: callers take from it what its clause says.
pub fn stays_safe(net: &Net)
    ensures { (events : List EventSpec) → All AsksRate events → IsSafe net.now (facts_after net.now events) }
{
    let _ = net.conns();
    every_past_is_safe();
}

/// The events of a source that starts at a moment and crashes.
pub fn start_and_crash(alloc: Global, now: u64) -> Result<Sequence<Event>, AllocError>
    ensures { IfOk result (λ events. events ≡ EventSpec.Start 0 now ∷ EventSpec.Crash 0 ∷ []) }
{
    let mut events = Sequence::new(alloc);
    events.push(Event::Start { conn: 0, now })?;
    events.push(Event::Crash { conn: 0 })?;
    Ok(events)
}
