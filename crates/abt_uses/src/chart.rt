//! What a picture of a whole run shows.
ghost use Rattle.std.specs.Prelude.{[], IfOk, All};
ghost use Rattle.abt_chart.specs.Charts.{IsChart};
ghost use Rattle.abt_chart.specs.Frames.{StandsBelow};

use abt_chart::{Chart, chart_of};
use abt_model::Event;
use abt_net::Net;
use std::alloc::{AllocError, Global};

/// The chart of all events of a run. No stack in it is above its capacity, and no rate above the least that is held for it.
pub fn whole_chart(alloc: Global, net: &Net, events: &[Event]) -> Result<Chart, AllocError>
    ensures chart { IfOk result (IsChart net.now [] events.now []) }
    ensures below { IfOk result (λ chart. All StandsBelow chart.frames) }
{
    let (before, after) = ([], []);
    chart_of(alloc, net, &before, events, &after)
}
