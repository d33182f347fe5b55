//! The round trip of a request, played on a world.
ghost use Rattle.std.specs.Prelude.{◌≡◌, ◌++◌, List, Some, IfOk, OnOk, OnErr};
ghost use Rattle.abt_net.specs.declared.conn.Conn.{Conn};
ghost use Rattle.abt_net.specs.Topology.{Topology, IsWithinRules, conn_at};
ghost use Rattle.abt_model.specs.Run.{facts_after};
ghost use Rattle.abt_model.specs.declared.event.Event.{Event};
ghost use Rattle.abt_model.specs.declared.outcome.Heard.TheVariants as heard;
ghost use Rattle.abt_model.specs.declared.outcome.Outcome.TheVariants as outcome;
ghost use Rattle.abt_world.specs.Standing.{StandsFor};
ghost use Rattle.abt_laws.specs.Granting.{IsGrantable};
ghost use Rattle.abt_laws.specs.Playing.{HaveBegun, HavePassed, hops_of, story_of};
ghost use Rattle.abt_laws.specs.RoundTrips.{out_over, back_over};

use abt_keep::StorePlan;
use abt_model::{Event, Outcome};
use abt_net::Net;
use abt_node::Onward;
use abt_rate::Rate;
use abt_world::World;
use std::alloc::AllocError;

/// Has the source of a connection ask for a rate, and carries its request over the path, and the yes back and home, with nothing between.
/// Gives what the last of these events answers, or the ask, if it sends no request. The net is that of the world.
///
/// A rate that fits at every hop is granted so, and the source is raised (docs/RULES.md, "Node").
///
/// # Errors
/// Where memory is refused the events before have happened, and no other.
pub fn ask_with_nothing_between(
    world: &mut World,
    net: &Net,
    conn: u16,
    rate: Rate,
    plan: StorePlan,
) -> Result<Outcome, AllocError>
    ensures granted { (events : List Event) (its : Conn) → StandsFor net.now events world.old →
        conn_at net.now conn ≡ Some its →
        IsGrantable net.now (facts_after net.now events) conn its rate plan →
        IfOk result (λ answered. answered ≡ outcome.Told heard.Raised) }
    ensures outcome { (events : List Event) → StandsFor net.now events world.old →
        let story = story_of net.now (facts_after net.now events) conn rate plan in
        IfOk result (λ answered. HavePassed net.now events story answered world.new) }
    ensures err { (events : List Event) → StandsFor net.now events world.old →
        let story = story_of net.now (facts_after net.now events) conn rate plan in
        OnErr result (HaveBegun net.now events story world.new) }
{
    // Names a type within an outcome, without which the checker can't follow one.
    let _ = Onward::Pass;
    let asked = world.step(&Event::Ask { conn, rate, plan })?;
    let Outcome::Asked(request) = asked else {
        return Ok(asked);
    };
    let seq = request.seq();
    let hops = path_length(net, conn);
    carry_out(world, conn, seq, hops)?;
    world.step(&Event::Turn { conn, seq })?;
    carry_back(world, conn, seq, hops)?;
    world.step(&Event::Told {
        conn,
        seq,
        granted: true,
    })
}

// How many hops the path of a connection has, 0 if the net doesn't have it.
fn path_length(net: &Net, conn: u16) -> u16
    ensures value { result ≡ hops_of net.now conn }
    ensures rules { IsWithinRules net.now }
{
    match net.conns().get(usize::from(conn)) {
        None => 0,
        Some(found) => found.path.len() as u16,
    }
}

// Carries a request to the first so many hops, one after the other.
fn carry_out(world: &mut World, conn: u16, seq: u32, hops: u16) -> Result<(), AllocError>
    ensures ok { (net : Topology) (events : List Event) → StandsFor net events world.old →
        OnOk result (StandsFor net (events ++ out_over conn seq hops) world.new) }
    ensures err { (net : Topology) (events : List Event) → StandsFor net events world.old →
        OnErr result (HaveBegun net events (out_over conn seq hops) world.new) }
{
    let _ = Onward::Pass;
    for visited in 0..hops {
        world.step(&Event::Request {
            conn,
            hop: visited + 1,
            seq,
        })?;
    }
    Ok(())
}

// Carries a yes back over the first so many hops, from the last of them to the first.
fn carry_back(world: &mut World, conn: u16, seq: u32, hops: u16) -> Result<(), AllocError>
    ensures ok { (net : Topology) (events : List Event) → StandsFor net events world.old →
        OnOk result (StandsFor net (events ++ back_over conn seq hops) world.new) }
    ensures err { (net : Topology) (events : List Event) → StandsFor net events world.old →
        OnErr result (HaveBegun net events (back_over conn seq hops) world.new) }
{
    let _ = Onward::Pass;
    let mut hop = hops;
    while hop > 0 {
        world.step(&Event::Answer {
            conn,
            hop,
            seq,
            granted: true,
        })?;
        hop -= 1;
    }
    Ok(())
}
