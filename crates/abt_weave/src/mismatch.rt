//! The first entry that mismatches.
ghost use Rattle.std.specs.Prelude.{◌≡◌, length, MatchOption};
ghost use Rattle.abt_net.specs.Topology.{IsWithinRules};
ghost use Rattle.abt_weave.specs.Actors as actors;
ghost use Rattle.abt_weave.specs.Progress.{IsProgressOf};
ghost use Rattle.abt_weave.specs.Marks.{AreUnmarked, IsFirstMark};

use crate::Stuck;
use crate::actors::{actor_at, actor_count};
use crate::progress::Progress;
use crate::weave_input::WeaveInput;

// The first actor that is marked, with its place.
pub(crate) fn first_mismatch(
    given: &WeaveInput,
    progress: &Progress,
    marks: &[bool],
) -> Option<Stuck>
    requires conns { length given.now.sources.now ≡ length given.now.net.now.conns }
    requires ports { length given.now.ports.now ≡ length given.now.net.now.capacities }
    requires marks { length marks.now ≡ actors.actor_count given.now.net.now }
    requires progress { IsProgressOf given.now progress.now }
    ensures rules { IsWithinRules given.now.net.now }
    ensures first { MatchOption result (AreUnmarked marks.now (length marks.now))
        (IsFirstMark given.now.net.now marks.now progress.now.source_places.items
        progress.now.port_places.items) }
{
    for number in 0..actor_count(given.net) {
        if marks[usize::from(number)] {
            let actor = actor_at(given.net, number);
            let place = progress.place_of(actor) as u64;
            return Some(Stuck { actor, place });
        }
    }
    None
}
