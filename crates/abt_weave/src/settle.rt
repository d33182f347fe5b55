//! Looks at actors until each is settled.
ghost use Rattle.std.specs.Prelude.{◌≡◌, ◌<◌, false, Some, length, slice_get, reverse, IfOk, OnOk};
ghost use Rattle.abt_weave.specs.Actors as actors;
ghost use Rattle.abt_weave.specs.Progress.{AreSettled, run_journals, IsProgressOf};
ghost use Rattle.abt_weave.specs.Queue.{IsWaiting};
ghost use Rattle.abt_weave.specs.Rounds.{IsAfterNext, IsAfterRound, NoOne};

use crate::actors::{actor_at, actor_count};
use crate::look::{Look, is_mismatch, look_at};
use crate::progress::Progress;
use crate::queue::Queue;
use crate::waking::wake_for;
use crate::weave_input::WeaveInput;
use std::alloc::{AllocError, Global};

// Looks at an actor that was taken out of the queue. If an entry was placed, wakes the actors that can have waited
// for it, and says so.
fn look_next<'run>(
    alloc: Global,
    given: &WeaveInput<'run>,
    progress: &mut Progress<'run>,
    queue: &mut Queue,
    number: u16,
) -> Result<bool, AllocError>
    requires conns { length given.now.sources.now ≡ length given.now.net.now.conns }
    requires ports { length given.now.ports.now ≡ length given.now.net.now.capacities }
    requires number { number < actors.actor_count given.now.net.now }
    requires taken { slice_get queue.old.woken.items number ≡ Some false }
    requires progress { IsProgressOf given.now progress.old }
    requires waiting { IsWaiting given.now.net.now (run_journals given.now)
        (reverse progress.old.events.items) (λ i. i ≡ number) queue.old }
    ensures { IfOk result (IsAfterNext given.now.net.now (run_journals given.now)
        progress.old progress.new queue.old queue.new) }
{
    let look = look_at(alloc, given, progress, actor_at(given.net, number))?;
    queue.marks[usize::from(number)] = is_mismatch(look);
    let Look::Placed(event) = &look else {
        return Ok(false);
    };
    queue.wake(number)?;
    wake_for(given, progress, event, queue)?;
    Ok(true)
}

// Looks at one actor after the other until an entry is placed, and says whether one was.
fn place_next<'run>(
    alloc: Global,
    given: &WeaveInput<'run>,
    progress: &mut Progress<'run>,
    queue: &mut Queue,
) -> Result<bool, AllocError>
    requires conns { length given.now.sources.now ≡ length given.now.net.now.conns }
    requires ports { length given.now.ports.now ≡ length given.now.net.now.capacities }
    requires progress { IsProgressOf given.now progress.old }
    requires waiting { IsWaiting given.now.net.now (run_journals given.now)
        (reverse progress.old.events.items) NoOne queue.old }
    ensures { IfOk result (IsAfterRound given.now.net.now
        (run_journals given.now)
        progress.old progress.new queue.new) }
{
    while let Some(number) = queue.next() {
        if look_next(alloc, given, progress, queue, number)? {
            return Ok(true);
        }
    }
    Ok(false)
}

/// Places what fits until nothing does, and says whose next entry then mismatches. An actor is looked at again only
/// if an event was placed that it can have waited for, and never if its next entry mismatched: it goes on to
/// mismatch.
pub(crate) fn settle<'run>(
    alloc: Global,
    given: &WeaveInput<'run>,
    progress: &mut Progress<'run>,
) -> Result<Vec<bool>, AllocError>
    requires conns { length given.now.sources.now ≡ length given.now.net.now.conns }
    requires ports { length given.now.ports.now ≡ length given.now.net.now.capacities }
    requires progress { IsProgressOf given.now progress.old }
    ensures progress { IfOk result
        (λ _. IsProgressOf given.now progress.new) }
    ensures marks { IfOk result
        (λ marks. AreSettled given.now.net.now (run_journals given.now)
        (reverse progress.new.events.items) (actors.actor_count given.now.net.now) marks.items) }
{
    let mut queue = Queue::of_all(alloc, actor_count(given.net))?;
    loop {
        let placed = place_next(alloc, given, progress, &mut queue)?;
        if !placed {
            return Ok(queue.marks);
        }
    }
}
