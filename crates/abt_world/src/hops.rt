//! The outcomes of one connection's events at a port, what they add, and what they make of the port.
ghost use Rattle.std.specs.Prelude.{◌≡◌, ◌+◌, ◌≤◌, ◌<◌, false, List, length};
ghost use Rattle.abt_facts.specs.declared.fact.Fact.{Fact as FactSpec};
ghost use Rattle.abt_facts.specs.Sent.{request_is_at, yes_is_at, no_is_at, answer_is_at};
ghost use Rattle.abt_actor.specs.Facts.{facts_in};
ghost use Rattle.abt_index.specs.FactIndex.{IsLogOf};
ghost use Rattle.abt_model.specs.Past.{Past};
ghost use Rattle.abt_model.specs.declared.event.Event.TheVariants as event;
ghost use Rattle.abt_model.specs.Outcomes as outcomes;
ghost use Rattle.abt_net.specs.Topology.{Topology};
ghost use Rattle.abt_world.specs.Looked.{looks_at_answer, looks_to_take};
ghost use Rattle.abt_world.specs.Steps as steps;
ghost use Rattle.abt_world.specs.Steps.{IsConnAt, ArePorts, Happens};
ghost use Rattle.abt_world.specs.Touches.{Touches};

use crate::messages::{hops_of, not_enabled, request_of};
use abt_actor::Added;
use abt_cell::Answer;
use abt_facts::Fact;
use abt_index::{FactIndex, Lookups};
use abt_model::{Cause, Outcome};
use abt_net::Conn;
use abt_node::{Back, Onward, Port};

// The port at a hop, if the path has so many.
pub(crate) fn port_at(conn: &Conn, hop: u16) -> Option<u16>
    ensures { result ≡ steps.port_at conn.now.path hop }
{
    let place = hop.checked_sub(1)?;
    conn.path.as_slice().get(usize::from(place)).copied()
}

// The facts of a request that came to a hop.
fn request_adds(hop: u16, seq: u32, onward: &Onward) -> Added
    ensures { facts_in result ≡ outcomes.request_adds hop seq onward.now }
{
    let decided = match onward {
        Onward::Pass => Some(Fact::Passed { seq, hop }),
        Onward::Refuse(_) => Some(Fact::Shut { seq, hop }),
        Onward::Drop(_) => None,
    };
    match (decided, hop == 1) {
        (Some(fact), true) => Added::Two(fact, Fact::Delivered { seq }),
        (Some(fact), false) => Added::One(fact),
        (None, true) => Added::One(Fact::Delivered { seq }),
        (None, false) => Added::Nothing,
    }
}

// The facts of an answer that came to a hop.
fn answer_adds(hop: u16, seq: u32, granted: bool, back: &Back) -> Added
    ensures { facts_in result ≡ outcomes.answer_adds hop seq granted back.now }
{
    match back {
        Back::Pass if granted => Added::One(Fact::Back { seq, hop }),
        Back::Pass => Added::One(Fact::Shut { seq, hop }),
        Back::Drop(_) => Added::Nothing,
    }
}

// Whether a request lies at a hop.
fn is_request_at(log: &FactIndex, hop: u16, seq: u32, looks: &mut Lookups) -> bool
    ensures value { (facts : List FactSpec) → IsLogOf facts log.now → 1 ≤ hop →
        result ≡ request_is_at facts seq hop }
    ensures looks { looks.new ≤ looks.old + 1 }
    ensures counted { 1 ≤ hop → looks.old + 1 ≤ u64.MAX → looks.new ≡ looks.old + 1 }
{
    if hop == 1 {
        log.asked(seq, looks).is_some()
    } else {
        hop > 0 && log.was_passed(seq, hop - 1, looks)
    }
}

// Whether a yes lies at a hop of so many.
fn is_yes_at(log: &FactIndex, hops: u16, hop: u16, seq: u32, looks: &mut Lookups) -> bool
    ensures value { (facts : List FactSpec) → IsLogOf facts log.now → hop < u16.MAX →
        result ≡ yes_is_at hops facts seq hop }
    ensures looks { looks.new ≤ looks.old + 1 }
    ensures counted { hop < u16.MAX → looks.old + 1 ≤ u64.MAX → looks.new ≡ looks.old + 1 }
{
    if hop == hops {
        log.was_turned(seq, looks)
    } else {
        hop < u16::MAX && log.was_back(seq, hop + 1, looks)
    }
}

// Whether a no lies at a hop of so many.
fn is_no_at(log: &FactIndex, hops: u16, hop: u16, seq: u32, looks: &mut Lookups) -> bool
    ensures value { (facts : List FactSpec) → IsLogOf facts log.now → result ≡ no_is_at hops facts seq hop }
    ensures looks { looks.new ≤ looks.old + 1 }
    ensures counted { looks.old + 1 ≤ u64.MAX → looks.new ≡ looks.old + looks_at_answer hops hop false }
{
    hop < hops && log.was_shut(seq, hop + 1, looks)
}

// Whether an answer lies at a hop of so many.
fn is_answer_at(
    log: &FactIndex,
    hops: u16,
    hop: u16,
    seq: u32,
    granted: bool,
    looks: &mut Lookups,
) -> bool
    ensures value { (facts : List FactSpec) → IsLogOf facts log.now → hop < u16.MAX →
        result ≡ answer_is_at hops facts seq hop granted }
    ensures looks { looks.new ≤ looks.old + 1 }
    ensures counted { hop < u16.MAX → looks.old + 1 ≤ u64.MAX →
        looks.new ≡ looks.old + looks_at_answer hops hop granted }
{
    if granted {
        is_yes_at(log, hops, hop, seq, looks)
    } else {
        is_no_at(log, hops, hop, seq, looks)
    }
}

// A request comes to a hop.
pub(crate) fn request(
    place: u16,
    conn: &Conn,
    log: &FactIndex,
    ports: &mut [Port],
    hop: u16,
    seq: u32,
    looks: &mut Lookups,
) -> (Outcome, Added)
    ensures outcome { (net : Topology) (past : Past) (facts : List FactSpec) → IsLogOf facts log.now →
        IsConnAt net past place conn.now facts →
        ArePorts net past ports.old →
        Happens net past place (event.Request place hop seq) result.0 (facts_in result.1)
        × ArePorts net (outcomes.after_event net past (event.Request place hop seq)) ports.new }
    ensures touches { Touches (steps.port_at conn.now.path hop) conn.now.vc ports.old ports.new }
    ensures looks { looks.new ≤ looks.old + 3 }
    ensures counted { (net : Topology) (past : Past) (facts : List FactSpec) → IsLogOf facts log.now →
        IsConnAt net past place conn.now facts →
        ArePorts net past ports.old → looks.old + 3 ≤ u64.MAX →
        looks.new ≡ looks.old + looks_to_take (length conn.now.path) (event.Request place hop seq) result.0 }
{
    let Some(port) = port_at(conn, hop) else {
        return not_enabled(Cause::Unknown);
    };
    if !is_request_at(log, hop, seq, looks) {
        return not_enabled(Cause::NotSent);
    }
    let Some(request) = request_of(conn, log, seq, looks) else {
        return not_enabled(Cause::NotSent);
    };
    let port = usize::from(port);
    if port >= ports.len() {
        return not_enabled(Cause::Unknown);
    }
    let onward = ports[looks.counting(port)].request(&request);
    (Outcome::Requested(onward), request_adds(hop, seq, &onward))
}

// An answer comes to a hop.
pub(crate) fn answer(
    place: u16,
    conn: &Conn,
    log: &FactIndex,
    ports: &mut [Port],
    hop: u16,
    seq: u32,
    granted: bool,
    looks: &mut Lookups,
) -> (Outcome, Added)
    ensures outcome { (net : Topology) (past : Past) (facts : List FactSpec) → IsLogOf facts log.now →
        IsConnAt net past place conn.now facts →
        ArePorts net past ports.old →
        Happens net past place (event.Answer place hop seq granted) result.0 (facts_in result.1)
        × ArePorts net (outcomes.after_event net past (event.Answer place hop seq granted)) ports.new }
    ensures touches { Touches (steps.port_at conn.now.path hop) conn.now.vc ports.old ports.new }
    ensures looks { looks.new ≤ looks.old + 3 }
    ensures counted { (net : Topology) (past : Past) (facts : List FactSpec) → IsLogOf facts log.now →
        IsConnAt net past place conn.now facts →
        ArePorts net past ports.old → looks.old + 3 ≤ u64.MAX →
        looks.new ≡
        looks.old + looks_to_take (length conn.now.path) (event.Answer place hop seq granted) result.0 }
{
    let Some(port) = port_at(conn, hop) else {
        return not_enabled(Cause::Unknown);
    };
    if !is_answer_at(log, hops_of(conn), hop, seq, granted, looks) {
        return not_enabled(Cause::NotSent);
    }
    let Some(request) = request_of(conn, log, seq, looks) else {
        return not_enabled(Cause::NotSent);
    };
    let port = usize::from(port);
    if port >= ports.len() {
        return not_enabled(Cause::Unknown);
    }
    let back = ports[looks.counting(port)].answer(&Answer::of(&request, granted));
    (
        Outcome::Answered(back),
        answer_adds(hop, seq, granted, &back),
    )
}
