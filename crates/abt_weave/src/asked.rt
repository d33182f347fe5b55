//! The requests of a source.
ghost use Rattle.std.specs.Prelude.{◌≡◌, ◌<◌, List, length, reverse};
ghost use Rattle.abt_net.specs.Topology.{Topology};
ghost use Rattle.abt_model.specs.declared.event.Event.{Event};
ghost use Rattle.abt_world.specs.Standing.{StandsFor};
ghost use Rattle.abt_weave.specs.Asked.{floor_in, ask_in};
ghost use Rattle.abt_weave.specs.Projections.{entries_on};
ghost use Rattle.abt_weave.specs.Candidates.{AreTermsOf};

use abt_journal::PortInput;
use abt_rate::Rate;
use abt_world::World;

/// The floor and the asked rate of a request.
#[derive(Clone, Copy)]
pub(crate) struct Rates {
    pub floor: Rate,
    pub ask: Rate,
}

/// No request's.
const NO_RATES: Rates = Rates {
    floor: Rate::ZERO,
    ask: Rate::ZERO,
};

// The rates of the last request of this number among a source's placed entries, and none if there is no such request. The
// world has an index of them.
fn rates_asked(world: &World<'_>, conn: u16, seq: u32) -> Rates
    requires { conn < length world.now.net.conns }
    ensures floor { (net : Topology) (events : List Event) → StandsFor net events world.now →
        result.floor ≡ floor_in (reverse (entries_on net conn (reverse events))) seq }
    ensures ask { (net : Topology) (events : List Event) → StandsFor net events world.now →
        result.ask ≡ ask_in (reverse (entries_on net conn (reverse events))) seq }
{
    match world.asked(conn, seq) {
        Some((floor, ask)) => Rates { floor, ask },
        None => NO_RATES,
    }
}

/// The rates that were asked for under the number of a message.
pub(crate) fn rates_for(world: &World<'_>, conn: u16, input: &PortInput) -> Rates
    requires { conn < length world.now.net.conns }
    ensures { (net : Topology) (events : List Event) → StandsFor net events world.now →
        AreTermsOf input.now result.floor result.ask (reverse (entries_on net conn (reverse events))) }
{
    match input {
        PortInput::Request(request) => rates_asked(world, conn, request.seq()),
        PortInput::Answer(answer) => rates_asked(world, conn, answer.seq()),
        PortInput::Arrive { .. } | PortInput::Capacity(_) => NO_RATES,
    }
}
