//! Requests of a source.
ghost use Rattle.std.specs.Prelude.{◌≡◌, ◌⊎◌, ◌∷◌, List, IfSome, OnOk, IsErrOf, ◌<◌, ℕ};
ghost use Rattle.abt_facts.specs.declared.fact.Fact.{Fact};
ghost use Rattle.abt_actor.specs.Actor.{actor_of};
ghost use Rattle.abt_actor.specs.Commands.{command_answer, event_of};
ghost use Rattle.abt_model.specs.Events.{AsksRate};
ghost use Rattle.abt_model.specs.declared.entry.SourceEntry.{SourceEntry};
ghost use Rattle.abt_model.specs.declared.outcome.Outcome.TheVariants.{Asked, Repeated};
ghost use Rattle.abt_journal.specs.declared.fault.ServeFault.{ServeFault};
ghost use Rattle.abt_history.specs.Modes.{When};
ghost use Rattle.abt_links.specs.CommandEffects as effects;
ghost use Rattle.abt_links.specs.CommandEffects.{CommandEffect, Begins, Sends};
ghost use Rattle.abt_links.specs.Lines.{IsLine, IsRequest};
ghost use Rattle.abt_links.specs.SourceWorkers.{IsAfter, IsGiven, StaysHome, worked};

use crate::access_line::AccessLine;
use crate::source_worker::SourceWorker;
use crate::{Carrying, Gate};
use abt_actor::{Outcome, SourceCommand};
use abt_cell::{Request, Rm};
use abt_history::Brought;
use abt_journal::ServeFault;
use std::sync::Wait;

// The request that goes out, if one does.
fn request_in(outcome: &Outcome) -> Option<Request>
    ensures value { result ≡ effects.request_in outcome.now }
    ensures shape { IfSome result (λ request. (outcome.now ≡ Asked request) ⊎
        (outcome.now ≡ Repeated request)) }
{
    match *outcome {
        Outcome::Asked(request) => Some(request),
        Outcome::Repeated(request) => Some(request),
        _ => None,
    }
}

impl<K: Carrying> SourceWorker<K> {
    // Has the source ask, or repeat what it asked, and has the first port serve the request at once.
    pub(crate) fn request<R: Wait, G: Gate>(
        &mut self,
        rt: &R,
        line: &AccessLine<K, G>,
        command: &SourceCommand,
    ) -> Result<(), ServeFault>
        requires command { IsRequest command.now }
        requires asks { When K.kept (AsksRate (event_of self.old.site.conn command.now)) }
        requires given { IsGiven self.old.site.vc self.old.site.actor }
        requires net { When K.kept (K.net ≡ line.now.router.net.now) }
        requires line { When K.kept
            (IsLine K.net self.old.site.conn line.now.conn.now line.now.cell.now.port) }
        ensures ok { OnOk result ((facts : List Fact) →
            self.old.site.actor ≡ actor_of self.old.site.vc facts →
            (effect : CommandEffect) ×
            ((rest : List SourceEntry) ×
            Begins self.old.site.vc self.old.site.conn facts command.now rest effect
            × Sends (effects.request_in (command_answer self.old.site.vc facts command.now)) rest
            effect.steps)
            × IsAfter self.old.site.vc line.now.cell.now.port effect (worked self.old) (worked self.new)) }
        ensures home { OnOk result (StaysHome self.old.site self.new.site) }
        ensures wound { (seen found : ℕ) → IsErrOf result (ServeFault.Wound seen found) → found < seen }
    {
        let seen = self.site.front();
        let outcome = self.carry_out(rt, &seen, command)?;
        let Some(request) = request_in(&outcome) else {
            return Ok(());
        };
        let brought = Brought::Request(request);
        let (_, reply, front) = line
            .cell
            .receive(rt, &mut self.site, &mut self.seat, line.gate, &brought)?;
        line.router
            .send_on(rt, line.cell.port(), &Rm::Request(request), &reply, front);
        Ok(())
    }
}
