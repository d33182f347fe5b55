//! Actors that have entries left.
ghost use Rattle.std.specs.Prelude.{◌≡◌, ◌++◌, length, reverse, IfOk, OnOk};
ghost use Rattle.abt_weave.specs.Progress.{run_journals, IsProgressOf};
ghost use Rattle.abt_weave.specs.Faults.{left_at, all_left};

use crate::actors::{actor_at, actor_count};
use crate::progress::Progress;
use crate::weave_input::WeaveInput;
use crate::{Actor, Stuck};
use abt_model::Sequence;
use std::alloc::{AllocError, Global};

// Adds an actor at its place, if it has entries left.
fn push_left(
    left: &mut Sequence<Stuck>,
    actor: Actor,
    place: usize,
    entries: usize,
) -> Result<(), AllocError>
    ensures { OnOk result (left.new ≡ left.old ++ left_at actor place entries) }
{
    if place < entries {
        let place = place as u64;
        left.push(Stuck { actor, place })?;
    }
    Ok(())
}

/// All actors that have entries left, sources by number and then ports by number.
pub(crate) fn actors_left(
    alloc: Global,
    given: &WeaveInput,
    progress: &Progress,
) -> Result<Sequence<Stuck>, AllocError>
    requires conns { length given.now.sources.now ≡ length given.now.net.now.conns }
    requires ports { length given.now.ports.now ≡ length given.now.net.now.capacities }
    requires progress { IsProgressOf given.now progress.now }
    ensures { IfOk result
        (λ left. left ≡
        all_left given.now.net.now (run_journals given.now)
        (reverse progress.now.events.items)) }
{
    let mut left = Sequence::new(alloc);
    for number in 0..actor_count(given.net) {
        let actor = actor_at(given.net, number);
        let place = progress.place_of(actor);
        push_left(&mut left, actor, place, given.entry_count(actor))?;
    }
    Ok(left)
}
