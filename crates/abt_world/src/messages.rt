//! The outcomes of one connection's events that come to no port, and what they add.
ghost use Rattle.std.specs.Prelude.{◌≡◌, ◌+◌, ◌≤◌, ◌++◌, List, length, IsSome, IfSome, true};
ghost use Rattle.abt_rate.specs.Limits.{hops_max};
ghost use Rattle.abt_facts.specs.declared.fact.Fact.{Fact as FactSpec};
ghost use Rattle.abt_facts.specs.Requests.{was_asked, floor_of, ask_of};
ghost use Rattle.abt_facts.specs.Sent.{answer_is_home};
ghost use Rattle.abt_actor.specs.Actor.{actor_of};
ghost use Rattle.abt_actor.specs.Facts.{facts_in};
ghost use Rattle.abt_index.specs.FactIndex.{IsLogOf};
ghost use Rattle.abt_model.specs.Past.{Past};
ghost use Rattle.abt_model.specs.declared.event.Event.TheVariants.{Turn, Told};
ghost use Rattle.abt_source.specs.SourceFacts as source_facts;
ghost use Rattle.abt_net.specs.Topology.{Topology};
ghost use Rattle.abt_world.specs.Looked.{looks_to_take};
ghost use Rattle.abt_world.specs.Steps.{IsConnAt, Happens};

use abt_actor::{Added, SourceActor};
use abt_cell::{Answer, Request};
use abt_facts::Fact;
use abt_index::{FactIndex, Lookups};
use abt_model::{Cause, Outcome, SourceCommand};
use abt_net::Conn;

// The request of a number, if it was asked.
pub(crate) fn request_of(
    conn: &Conn,
    log: &FactIndex,
    seq: u32,
    looks: &mut Lookups,
) -> Option<Request>
    ensures value { (facts : List FactSpec) → IsLogOf facts log.now →
        IfSome result (λ request. request ≡ source_facts.request_of conn.now.vc facts seq) }
    ensures vc { IfSome result (λ request. request.vc ≡ conn.now.vc) }
    ensures some { (facts : List FactSpec) → IsLogOf facts log.now → (was_asked facts seq ≡ true) → 1 ≤ seq →
        floor_of facts seq ≤ ask_of facts seq → IsSome result }
    ensures looks { looks.new ≤ looks.old + 1 }
    ensures counted { looks.old + 1 ≤ u64.MAX → looks.new ≡ looks.old + 1 }
{
    let (floor, ask) = log.asked(seq, looks)?;
    Request::new(conn.vc, seq, floor, ask)
}

// An event that can't happen.
pub(crate) fn not_enabled(cause: Cause) -> (Outcome, Added)
    ensures { result ≡ (Outcome.NotEnabled cause, Added.Nothing) }
{
    (Outcome::NotEnabled(cause), Added::Nothing)
}

// How many hops a path has; in a net there are at most 16.
pub(crate) fn hops_of(conn: &Conn) -> u16
    ensures { length conn.now.path ≤ hops_max → result ≡ length conn.now.path }
{
    u16::try_from(conn.path.len()).unwrap_or(u16::MAX)
}

// The request that the last hop passed is turned into a yes.
pub(crate) fn turn(
    place: u16,
    conn: &Conn,
    log: &FactIndex,
    seq: u32,
    looks: &mut Lookups,
) -> (Outcome, Added)
    ensures outcome { (net : Topology) (past : Past) (facts : List FactSpec) → IsLogOf facts log.now →
        IsConnAt net past place conn.now facts →
        Happens net past place (Turn place seq) result.0 (facts_in result.1) }
    ensures looks { looks.new ≤ looks.old + 1 }
    ensures counted { looks.old + 1 ≤ u64.MAX → looks.new ≡ looks.old + 1 }
{
    if log.was_passed(seq, hops_of(conn), looks) {
        (Outcome::Turned, Added::One(Fact::Turned { seq }))
    } else {
        not_enabled(Cause::NotSent)
    }
}

// Whether an answer lies at its source.
fn is_home(log: &FactIndex, seq: u32, granted: bool, looks: &mut Lookups) -> bool
    ensures value { (facts : List FactSpec) → IsLogOf facts log.now →
        result ≡ answer_is_home facts seq granted }
    ensures looks { looks.new ≤ looks.old + 1 }
    ensures counted { looks.old + 1 ≤ u64.MAX → looks.new ≡ looks.old + 1 }
{
    if granted {
        log.was_back(seq, 1, looks)
    } else {
        log.was_shut(seq, 1, looks)
    }
}

// The source takes an answer that the first hop sent.
pub(crate) fn told(
    place: u16,
    conn: &Conn,
    log: &FactIndex,
    actor: &mut SourceActor,
    seq: u32,
    granted: bool,
    looks: &mut Lookups,
) -> (Outcome, Added)
    ensures outcome { (net : Topology) (past : Past) (facts : List FactSpec) → IsLogOf facts log.now →
        IsConnAt net past place conn.now facts →
        actor.old ≡ actor_of conn.now.vc facts →
        Happens net past place (Told place seq granted) result.0 (facts_in result.1)
        × (actor.new ≡ actor_of conn.now.vc (facts_in result.1 ++ facts)) }
    ensures looks { looks.new ≤ looks.old + 2 }
    ensures counted { (net : Topology) (past : Past) (facts : List FactSpec) → IsLogOf facts log.now →
        IsConnAt net past place conn.now facts →
        actor.old ≡ actor_of conn.now.vc facts → looks.old + 2 ≤ u64.MAX →
        looks.new ≡ looks.old + looks_to_take (length conn.now.path) (Told place seq granted) result.0 }
{
    if !is_home(log, seq, granted, looks) {
        return not_enabled(Cause::NotSent);
    }
    let Some(request) = request_of(conn, log, seq, looks) else {
        return not_enabled(Cause::NotSent);
    };
    actor.carry_out(&SourceCommand::Told(Answer::of(&request, granted)))
}
