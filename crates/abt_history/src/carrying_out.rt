//! Commands that a source carries out.
ghost use Rattle.std.specs.Prelude.{◌≡◌, IfOk, OnErr};
ghost use mathlib.Core.List.{IsPrefix};
ghost use Rattle.abt_actor.specs.Commands as commands;
ghost use Rattle.abt_model.specs.Events.{AsksRate};
ghost use Rattle.abt_model.specs.declared.entry.SourceEntry.TheVariants.{Did};
ghost use Rattle.abt_weave.specs.Projections.{past_of};
ghost use Rattle.abt_history.specs.Histories.{happened};
ghost use Rattle.abt_history.specs.Modes.{When};
ghost use Rattle.abt_history.specs.Sites.{Allows, HasCarriedOut, IsSaid};

use crate::deed::Deed;
use crate::keeping::Keeping;
use crate::site::SiteOf;
use abt_actor::SourceCommand;
use abt_model::{Event, Outcome, SourceEntry, Target};
use std::alloc::AllocError;
use std::sync::Wait;

// The event that a command is at the source of the connection of this number.
fn event_of(number: u16, command: &SourceCommand) -> Event
    ensures { result ≡ commands.event_of number command.now }
{
    let event = command.event();
    Target::Source {
        conn: number,
        event,
    }
    .event()
}

// The entry for a command and what came of it.
fn entry_of(number: u16, command: &SourceCommand, outcome: &Outcome) -> SourceEntry
    ensures { result ≡ Did (commands.event_of number command.now) outcome.now }
{
    SourceEntry::Did(event_of(number, command), *outcome)
}

impl<K: Keeping> SiteOf<K> {
    /// Has the source carry out a command ([`SourceActor::step`]), and notes what came of it, behind what was seen with the command. An
    /// answer that it is told was sent to it by then.
    pub fn carry_out<R: Wait>(
        &mut self,
        rt: &R,
        seen: &K::Front,
        command: &SourceCommand,
    ) -> Result<Outcome, AllocError>
        requires asks { When K.kept (AsksRate (commands.event_of self.old.conn command.now)) }
        requires said { When K.kept
            (IsSaid K.net (past_of K.net (happened (K.log seen.now))) self.old.conn command.now) }
        ensures did { IfOk result (λ outcome. HasCarriedOut self.old self.new command.now outcome) }
        ensures allows { IfOk result (λ outcome. When K.kept (Allows K.net self.new command.now outcome)) }
        ensures seen { IfOk result (λ outcome. When K.kept
            (IsPrefix self.old.front self.new.front × IsPrefix (K.log seen.now) self.new.front)) }
        ensures same { OnErr result (self.new ≡ self.old) }
    {
        self.entries.reserve(1)?;
        let outcome = self.actor.step(command);
        let event = event_of(self.conn, command);
        let turns = self.entries.as_slice().len() as u64;
        self.front = K::note(
            rt,
            &self.tally,
            &self.front,
            seen,
            turns,
            &Deed::Happens(event),
        );
        self.entries
            .push_reserved(entry_of(self.conn, command, &outcome));
        Ok(outcome)
    }
}
