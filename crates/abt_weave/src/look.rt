//! Looks at the next entries of actors.
ghost use Rattle.std.specs.Prelude.{◌≡◌, length, IfOk};
ghost use Rattle.abt_weave.specs.Actors as actors;
ghost use Rattle.abt_weave.specs.Progress as seen;
ghost use Rattle.abt_weave.specs.Progress.{IsActorSettled, IsAfterLook, run_journals, IsProgressOf};

use crate::Actor;
use crate::port::look_at_port;
use crate::progress::Progress;
use crate::source::look_at_source;
use crate::weave_input::WeaveInput;
use abt_model::Event;
use std::alloc::{AllocError, Global};

/// The outcome of a look at an actor's next entry.
#[derive(Clone, Copy, Debug, PartialEq, Eq)]
pub(crate) enum Look {
    /// The entry is placed, as this event.
    Placed(Event),
    /// No event can be the next entry, or no entry is left.
    Waits,
    /// The event that could be it has another outcome.
    Mismatches,
}

pub(crate) fn is_mismatch(look: Look) -> bool
    ensures { result ≡ seen.is_mismatch look }
{
    match look {
        Look::Mismatches => true,
        Look::Placed(_) | Look::Waits => false,
    }
}

/// Places the next entry of a source or a port, if it can have happened now.
pub(crate) fn look_at<'run>(
    alloc: Global,
    given: &WeaveInput<'run>,
    progress: &mut Progress<'run>,
    actor: Actor,
) -> Result<Look, AllocError>
    requires conns { length given.now.sources.now ≡ length given.now.net.now.conns }
    requires ports { length given.now.ports.now ≡ length given.now.net.now.capacities }
    requires actor { actors.IsAmong (length given.now.net.now.conns) (length given.now.net.now.capacities)
        actor }
    requires progress { IsProgressOf given.now progress.old }
    ensures { let journals = run_journals given.now in
        IfOk result (IsAfterLook given.now.net.now journals
        (λ earlier mismatches. IsActorSettled given.now.net.now journals earlier actor mismatches)
        progress.old progress.new) }
{
    match actor {
        Actor::Source(conn) => look_at_source(alloc, given, progress, conn),
        Actor::Port(port) => look_at_port(alloc, given, progress, port),
    }
}
