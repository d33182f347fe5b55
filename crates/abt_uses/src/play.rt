//! Plays.
ghost use Rattle.std.specs.Prelude.{◌≤◌, IfOk};
ghost use Rattle.abt_play.specs.Played.{events_max};

use abt_model::{Operation, Script};
use abt_net::Net;
use abt_play::{Chances, PlayFault, play};
use std::alloc::Global;

/// How many events a play of a net's scripts has.
pub fn events_played(
    alloc: Global,
    net: &Net,
    scripts: &[Script],
    operations: &[Operation],
    chances: &Chances,
) -> Result<usize, PlayFault>
    ensures { IfOk result (λ count. count ≤ events_max) }
{
    let played = play(alloc, net, scripts, operations, chances)?;
    Ok(played.events.len())
}
