//! A source at its access line.
ghost use Rattle.std.specs.Prelude.{◌≡◌, [], List, IfOk};
ghost use Rattle.abt_facts.specs.declared.fact.Fact.{Fact};
ghost use Rattle.abt_actor.specs.Actor.{actor_of};
ghost use Rattle.abt_actor.specs.Commands.{event_of};
ghost use Rattle.abt_model.specs.Events.{AsksRate};
ghost use Rattle.abt_weave.specs.Projections.{past_of};
ghost use Rattle.abt_history.specs.Histories.{happened};
ghost use Rattle.abt_history.specs.Modes.{When};
ghost use Rattle.abt_history.specs.Sites.{Allows, IsSaid};
ghost use Rattle.abt_links.specs.SourceWorkers.{HasDone, worked};

use abt_actor::{Outcome, SourceCommand};
use abt_history::{Keeping, SiteOf};
use abt_journal::Seat;
use std::alloc::{AllocError, Global};
use std::sync::Wait;

/// A source with its journal, and its seat.
#[derive(Drop)]
pub(crate) struct SourceWorker<K: Keeping> {
    pub(crate) site: SiteOf<K>,
    pub(crate) seat: Seat,
}

impl<K: Keeping> SourceWorker<K> {
    // The worker of a source, with the number of its connection as the caller.
    pub(crate) fn new(alloc: Global, site: SiteOf<K>) -> SourceWorker<K>
        ensures site { result.site ≡ site }
        ensures seat { result.seat ≡ record { caller = site.conn; receipts = [] } }
    {
        let seat = Seat::new(alloc, site.conn());
        SourceWorker { site, seat }
    }

    // Has the source carry out a command behind what was seen with it, and notes what came of it.
    pub(crate) fn carry_out<R: Wait>(
        &mut self,
        rt: &R,
        seen: &K::Front,
        command: &SourceCommand,
    ) -> Result<Outcome, AllocError>
        requires asks { When K.kept (AsksRate (event_of self.old.site.conn command.now)) }
        requires said { When K.kept
            (IsSaid K.net (past_of K.net (happened (K.log seen.now))) self.old.site.conn command.now) }
        ensures done { IfOk result (λ outcome. (facts : List Fact) → self.old.site.actor ≡
            actor_of self.old.site.vc facts →
            HasDone self.old.site.vc self.old.site.conn facts command.now (worked self.old) outcome
            (worked self.new)) }
        ensures place { IfOk result (λ outcome. (self.new.site.conn ≡ self.old.site.conn) ×
            (self.new.site.vc ≡ self.old.site.vc)) }
        ensures allows { IfOk result (λ outcome. When K.kept
            (Allows K.net self.new.site command.now outcome)) }
    {
        self.site.carry_out(rt, seen, command)
    }
}
