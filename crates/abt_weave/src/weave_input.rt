//! The input of a weaving.
ghost use Rattle.std.specs.Prelude.{◌≡◌, length};
ghost use Rattle.abt_weave.specs.Actors.{IsAmong, entry_count};
ghost use Rattle.abt_weave.specs.Progress.{run_journals};

use crate::Actor;
use abt_journal::Entry;
use abt_model::SourceJournal;
use abt_net::Net;

/// The journals of all ports and of all sources of a net.
#[derive(Clone, Copy)]
pub(crate) struct WeaveInput<'run> {
    pub net: &'run Net,
    pub ports: &'run [Vec<Entry>],
    pub sources: &'run [SourceJournal],
}

impl WeaveInput<'_> {
    // How many entries the journal of an actor has.
    pub(crate) fn entry_count(&self, actor: Actor) -> usize
        requires { IsAmong (length self.now.sources.now) (length self.now.ports.now) actor }
        ensures { result ≡ entry_count (run_journals self.now) actor }
    {
        match actor {
            Actor::Source(conn) => self.sources[usize::from(conn)].entries.as_slice().len(),
            Actor::Port(port) => self.ports[usize::from(port)].len(),
        }
    }
}
