//! One connection at work.
ghost use Rattle.std.specs.Prelude.{◌≡◌, ℕ, ◌+◌, ◌≤◌, List, Some, MatchResult, OnOk, OnErr};
ghost use Rattle.abt_actor.specs.Actor.{actor_of};
ghost use Rattle.abt_actor.specs.Facts.{facts_in};
ghost use Rattle.abt_facts.specs.declared.fact.Fact.{Fact as FactSpec};
ghost use Rattle.abt_index.specs.FactIndex.{IsLogOf};
ghost use Rattle.abt_model.specs.Events.{AsksRate};
ghost use Rattle.abt_model.specs.Outcomes.{conn_of, outcome_of};
ghost use Rattle.abt_model.specs.Past.{Past, facts_of};
ghost use Rattle.abt_net.specs.Topology.{Topology};
ghost use Rattle.abt_world.specs.Looked.{looks_to_happen, looks_to_note};
ghost use Rattle.abt_world.specs.Notes.{all_noted, CanAllFollow};
ghost use Rattle.abt_world.specs.Steps.{IsConnAt, ArePorts, Leaves};
ghost use Rattle.abt_world.specs.Touches.{visited, Touches};

use crate::dispatch::dispatch;
use abt_actor::{Added, SourceActor};
use abt_index::{FactIndex, Lookups};
use abt_model::{Event, Outcome};
use abt_net::Conn;
use abt_node::Port;
use std::alloc::AllocError;

/// What is kept of one connection: the actor of its source, and what happened to it.
#[derive(Debug, Drop)]
pub(crate) struct ConnectionState {
    pub(crate) actor: SourceActor,
    pub(crate) log: FactIndex,
}

// Notes what was added, for which there is room.
fn note(log: &mut FactIndex, added: Added, looks: &mut Lookups)
    requires { 2 ≤ log.old.room }
    ensures index { CanAllFollow (facts_in added) log.old.index →
        log.new.index ≡ all_noted (facts_in added) log.old.index }
    ensures looks { looks.new ≤ looks.old + 2 }
    ensures counted { looks.old + 2 ≤ u64.MAX → looks.new ≡ looks.old + looks_to_note (facts_in added) }
{
    match added {
        Added::Nothing => {}
        Added::One(fact) => log.note(fact, looks),
        Added::Two(newer, older) => {
            log.note(older, looks);
            log.note(newer, looks);
        }
    }
}

impl ConnectionState {
    // An event of the connection. If memory is refused nothing happens.
    pub(crate) fn take(
        &mut self,
        conn: &Conn,
        ports: &mut [Port],
        event: &Event,
        looks: &mut Lookups,
    ) -> Result<Outcome, AllocError>
        ensures outcome { (net : Topology) (past : Past) (c : ℕ) (facts : List FactSpec) →
            IsLogOf facts self.old.log →
            AsksRate event.now → conn_of event.now ≡ Some c → IsConnAt net past c conn.now facts →
            ArePorts net past ports.old →
            self.old.actor ≡ actor_of conn.now.vc facts → MatchResult result
            (λ outcome.
            Leaves net past c event.now conn.now outcome self.new.actor self.new.log.index ports.new)
            (λ _. (self.new.actor ≡ self.old.actor) × (self.new.log.index ≡ self.old.log.index) ×
            (ports.new ≡ ports.old)) }
        ensures memory { OnErr result ((self.new.actor ≡ self.old.actor) ×
            (self.new.log.index ≡ self.old.log.index) × (ports.new ≡ ports.old)) }
        ensures touches { OnOk result (Touches (visited conn.now event.now) conn.now.vc ports.old ports.new) }
        ensures looks { looks.new ≤ looks.old + 5 }
        ensures counted { (net : Topology) (past : Past) (c : ℕ) (facts : List FactSpec) →
            IsLogOf facts self.old.log →
            AsksRate event.now → conn_of event.now ≡ Some c → IsConnAt net past c conn.now facts →
            ArePorts net past ports.old →
            self.old.actor ≡ actor_of conn.now.vc facts → looks.old + 5 ≤ u64.MAX → OnOk result (looks.new
            ≡ looks.old + looks_to_happen conn.now (facts_of c past) event.now
            (outcome_of net past event.now)) }
    {
        self.log.reserve()?;
        let (outcome, added) = dispatch(conn, &self.log, &mut self.actor, ports, event, looks);
        note(&mut self.log, added, looks);
        Ok(outcome)
    }
}
