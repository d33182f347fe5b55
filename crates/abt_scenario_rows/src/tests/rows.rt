use super::{ONE, joined, scenario};
use abt_keep::StorePlan;
use abt_model::{Command, Event, Sequence};
use abt_net::{Conn, Net};
use abt_rate::Rate;
use std::process::Abort;
use std::test::Fail;

#[test]
fn a_scenario_has_its_net_its_events_and_its_scripts(rt: HostRuntime) -> Result<(), Fail> {
    let alloc = rt.alloc();
    let text = joined(
        alloc,
        &[
            "title = \"unknown keys are passed over\"\n\
             events = [\"start 0 0\", \"ask 0 5120\"]\n",
            ONE,
            "script = [\"start 5\", \"listen 7\"]\n\
             colour = \"blue\"\n\
             [[connection]]\n\
             vpi = 4095\n\
             vci = 65535\n\
             path = [0]\n\
             delay = 0\n\
             tau = 0\n",
        ],
    )?;
    let read = scenario(alloc, text.as_str())?;
    has_two_connections(&rt, &read.net)?;
    has_two_events(&rt, read.events.as_slice());
    has_two_scripts(&rt, read.scripts.as_slice())
}

fn has_two_connections(rt: &impl Abort, net: &Net) -> Result<(), Fail> {
    assert_eq!(rt; net.capacities(), [512_000].as_slice());
    let [first, second] = net.conns() else {
        return Err(Fail::from("not two connections"));
    };
    has_channel(rt, first, 1, 100);
    assert_eq!(rt; first.path.as_slice(), [0].as_slice());
    assert_eq!(rt; first.delay, 1000);
    assert_eq!(rt; first.tau, 200);
    has_channel(rt, second, 4095, 65535);
    Ok(())
}

fn has_channel(rt: &impl Abort, conn: &Conn, vpi: u16, vci: u16) {
    assert_eq!(rt; conn.vc.vpi(), vpi);
    assert_eq!(rt; conn.vc.vci(), vci);
}

fn has_two_events(rt: &impl Abort, found: &[Event]) {
    let rate = Rate::at_most(204_800);
    let plan = StorePlan::Works;
    let events = [
        Event::Start { conn: 0, now: 0 },
        Event::Ask {
            conn: 0,
            rate,
            plan,
        },
    ];
    assert_eq!(rt; found, events.as_slice());
}

fn has_two_scripts(rt: &impl Abort, found: &[Sequence<Command>]) -> Result<(), Fail> {
    let commands = [Command::Start { now: 5 }, Command::Listen { turns: 7 }];
    let [script, none] = found else {
        return Err(Fail::from("not two scripts"));
    };
    assert_eq!(rt; script.as_slice(), commands.as_slice());
    assert!(rt; none.is_empty());
    Ok(())
}

#[test]
fn a_scenario_has_its_operator(rt: HostRuntime) -> Result<(), Fail> {
    let text =
        "operator = [\"capacity 00 512000\", \"capacity 65535 9999999999999999999\"]\nports = []";
    let read = scenario(rt.alloc(), text)?;
    let operations = [(0, 512_000), (65535, 9_999_999_999_999_999_999)];
    assert_eq!(rt; read.operator.as_slice(), operations.as_slice());
    Ok(())
}

#[test]
fn numbers_are_those_of_toml(rt: HostRuntime) -> Result<(), Fail> {
    let alloc = rt.alloc();
    let read = scenario(alloc, "ports = [-0, +5, 0x10, 1_000, 0b11]")?;
    assert_eq!(rt; read.net.capacities(), [0, 5, 16, 1000, 3].as_slice());
    Ok(())
}

#[test]
fn a_net_may_be_empty_and_tables_may_stand_in_a_line(rt: HostRuntime) -> Result<(), Fail> {
    let alloc = rt.alloc();
    for text in [
        "ports = []",
        "ports = []\nconnection = []\nevents = []\noperator = []",
    ] {
        let read = scenario(alloc, text)?;
        assert_eq!(rt; read.net.capacities().len(), 0);
        assert_eq!(rt; read.net.conns().len(), 0);
        assert_eq!(rt; read.events.len(), 0);
        assert_eq!(rt; read.scripts.len(), 0);
        assert_eq!(rt; read.operator.len(), 0);
    }
    let inline = "ports = [1]\nconnection = [{ vpi = 0, vci = 0, path = [0], delay = 0, tau = 0 }]";
    assert_eq!(rt; scenario(alloc, inline)?.net.conns().len(), 1);
    Ok(())
}
