//! A port with as many connections as it can have.
use super::same;
use abt_cell::Vc;
use abt_keep::StorePlan;
use abt_node::Onward;
use abt_rate::Rate;
use abt_world::{Cause, Conn, Event, Net, NetFault, Outcome, Path, World};
use std::alloc::Global;
use std::process::Abort;
use std::test::Fail;

/// The most connections of a port.
const CONNECTIONS: u16 = 1024;

/// The events of the run.
const EVENTS: u64 = 100_000;

// So many connections over one port of 400,000 cells per second.
fn crowd(alloc: Global) -> Result<Net, Fail> {
    let mut conns = Vec::new(alloc);
    for number in 0..CONNECTIONS {
        let vci = number.saturating_add(32);
        conns.push(Conn {
            vc: Vc::new(1, vci).ok_or("no such channel")?,
            path: Path::from([0].to_vec(alloc)?),
            delay: 1000,
            tau: 200,
        })?;
    }
    let mut capacities = Vec::new(alloc);
    capacities.push(204_800_000)?;
    let net: Result<Net, NetFault> = Net::build(alloc, capacities, conns);
    Ok(net?)
}

// The event of this place: each connection starts, and then they ask for 400 or 1,000 cells per second in turn.
fn event(place: u64) -> Event {
    let many = u64::from(CONNECTIONS);
    let Some(further) = place.checked_sub(many) else {
        return Event::Start {
            conn: u16::try_from(place).unwrap_or(0),
            now: 0,
        };
    };
    let conn = u16::try_from(further / 5 % many).unwrap_or(0);
    let seq = u32::try_from(further / 5 / many)
        .unwrap_or(0)
        .saturating_add(1);
    let code = if (conn ^ 1) % 3 == 0 { 0x53e8 } else { 0x5120 };
    match further % 5 {
        0 => Event::Ask {
            conn,
            rate: Rate::from_code(code),
            plan: StorePlan::Works,
        },
        1 => Event::Request { conn, hop: 1, seq },
        2 => Event::Turn { conn, seq },
        3 => Event::Answer {
            conn,
            hop: 1,
            seq,
            granted: true,
        },
        _ => Event::Told {
            conn,
            seq,
            granted: true,
        },
    }
}

// How many requests were enabled.
fn requests(rt: &impl Abort, world: &mut World<'_>) -> Result<u64, Fail> {
    let mut requests: u64 = 0;
    for place in 0..EVENTS {
        match world.step(&event(place)) {
            Ok(Outcome::Requested(_)) => {
                assert!(rt; world.looks() >= 1);
                assert!(rt; world.looks() <= 128);
                requests = requests.saturating_add(1);
            }
            Ok(_) => {
                assert!(rt; world.looks() >= 1);
                assert!(rt; world.looks() <= 128);
            }
            Err(refused) => return Err(refused.into()),
        }
    }
    Ok(requests)
}

// The run has 1,024 starts, and 98,976 events of which each fifth is a request.
#[test]
fn an_event_looks_up_few_entries_however_many_there_are(rt: HostRuntime) -> Result<(), Fail> {
    let net = crowd(rt.alloc())?;
    looks_up_few(&rt, &mut World::new(rt.alloc(), &net)?)
}

fn looks_up_few(rt: &impl Abort, world: &mut World<'_>) -> Result<(), Fail> {
    // Names a type within an outcome, without which the checker can't follow one here.
    let _ = Onward::Pass;
    same(rt, &world.looks(), &0);
    same(rt, &requests(rt, world)?, &19_795);
    assert!(rt; world.safe());
    let past = Event::Crash { conn: CONNECTIONS };
    let unknown = Outcome::NotEnabled(Cause::Unknown);
    same(rt, &world.step(&past)?, &unknown);
    same(rt, &world.looks(), &0);
    Ok(())
}
