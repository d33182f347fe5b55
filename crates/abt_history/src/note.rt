//! Deeds noted in the history.
ghost use Rattle.std.specs.Prelude.{◌+◌, ◌<◌, ◌^◌};
ghost use Rattle.abt_net.specs.Topology.{IsWithinRules};
ghost use Rattle.abt_history.specs.Legal.{MayNote, IsNoted};

use crate::deed::Deed;
use crate::front::{Front, Tally};
use crate::place::{Naming, Place};
use std::sync::Wait;

// The history once this deed of a port or a source is in it, behind all that it and another have seen. It is tried again until it is.
pub(crate) fn note<N: Place, J: Naming, R: Wait>(
    rt: &R,
    tally: &Tally<N, J>,
    own: &Front<N, J>,
    seen: &Front<N, J>,
    deeds: u64,
    deed: &Deed,
) -> Front<N, J>
    requires room { deeds + 1 < 2 ^ 64 }
    requires may { MayNote N.net own.now seen.now tally.now.key deeds deed.now }
    ensures { IsNoted N.net own.now seen.now result tally.now.key deeds deed.now }
{
    for _ in rt.forever() {
        let mut front = own.with(seen);
        if front.add(tally, deeds, deed) {
            return front;
        }
    }
    unreachable!()
}
