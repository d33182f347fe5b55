//! How far a connection has come.
ghost use Rattle.std.specs.Prelude.{◌≡◌, ◌≤◌, List};
ghost use Rattle.abt_actor.specs.Actor.{actor_of};
ghost use Rattle.abt_cell.specs.Channel.{Channel};
ghost use Rattle.abt_facts.specs.Cells.{after_last_of, emitted_of};
ghost use Rattle.abt_facts.specs.declared.fact.Fact.{Fact as FactSpec};
ghost use Rattle.abt_index.specs.FactIndex.{IsLogOf};
ghost use Rattle.abt_world.specs.Readings.{progress_of};

use crate::connection_state::ConnectionState;

/// How far the source of a connection and its cells have come. Moments are picoseconds.
#[derive(Clone, Copy, Debug, PartialEq, Eq)]
pub struct Progress {
    /// The greatest moment of a start or an emission, 0 before the first.
    pub clock: u64,
    /// The number of the request whose answer the source waits for, if it waits for one.
    pub awaited: Option<u32>,
    /// How many cells left.
    pub emitted: u64,
    /// The number below which no cell can arrive any more.
    pub fence: u64,
    /// The moment of the last arrival, 0 before the first.
    pub last_arrival: u64,
}

// How far a connection has come, whose cells arrived only once they had left.
pub(crate) fn progress_of(connection: &ConnectionState) -> Progress
    ensures { (vc : Channel) (facts : List FactSpec) → connection.now.actor ≡ actor_of vc facts →
        IsLogOf facts connection.now.log →
        after_last_of facts ≤ emitted_of facts → result ≡ progress_of facts }
{
    Progress {
        clock: connection.actor.clock(),
        awaited: connection.actor.awaited(),
        emitted: connection.actor.cells(),
        fence: connection.log.fence(),
        last_arrival: connection.log.last_arrival(),
    }
}
