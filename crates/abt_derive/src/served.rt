//! What the first port of each path served.
ghost use Rattle.std.specs.Prelude.{◌≡◌, length, map, IfOk, OnOk, Vec};
ghost use Rattle.abt_journal.specs.declared.entry.Entry.{Entry as EntrySpec};
ghost use Rattle.std.specs.declared.alloc.Global.{Global as GlobalSpec};
ghost use Rattle.abt_derive.specs.Serves as spec;
ghost use Rattle.abt_derive.specs.Serves.{IsServedMore, IsServedOfAll};

use abt_cell::Vc;
use abt_journal::{Entry, PortInput, PortReply};
use abt_net::{Conn, Net};
use std::alloc::{AllocError, Global};

// A step of the first port of a path, by its place in the journal of that port.
#[derive(Clone, Copy, Debug)]
pub(crate) enum Served {
    // A request of this number.
    Request { place: u64, seq: u32 },
    // A cell that came at this moment.
    Cell { place: u64, at: u64 },
}

// The channel that a step serves, and what it serves there.
fn served_in(step: &Entry) -> Option<(Vc, Served)>
    ensures { result ≡ spec.served_in step.now }
{
    let place = step.place;
    match (&step.input, &step.reply) {
        (PortInput::Request(request), _) => {
            let seq = request.seq();
            Some((request.vc(), Served::Request { place, seq }))
        }
        (PortInput::Arrive { vc, at }, PortReply::Arrived(Ok(_))) => {
            Some((*vc, Served::Cell { place, at: *at }))
        }
        _ => None,
    }
}

// The number of the first port of a path.
pub(crate) fn first_of(conn: &Conn) -> usize
    ensures { result ≡ spec.first_of conn.now }
{
    match conn.path.as_slice().first() {
        Some(port) => usize::from(*port),
        None => 0,
    }
}

// Adds what a step of a port serves as the first port of a path.
fn add_step(
    net: &Net,
    port: usize,
    step: &Entry,
    served: &mut [Vec<Served>],
) -> Result<(), AllocError>
    requires { length served.old ≡ length net.now.conns }
    ensures { OnOk result (IsServedMore net.now port step.now served.old served.new) }
{
    let Some(found) = served_in(step) else {
        return Ok(());
    };
    let Some(number) = net.find(found.0) else {
        return Ok(());
    };
    let number = usize::from(number);
    if first_of(&net.conns()[number]) != port {
        return Ok(());
    }
    Ok(served[number].push(found.1)?)
}

fn add_steps(
    net: &Net,
    port: usize,
    steps: &[Entry],
    served: &mut [Vec<Served>],
) -> Result<(), AllocError>
    requires { length served.old ≡ length net.now.conns }
    ensures { OnOk result (IsServedOfAll net.now port steps.now served.old served.new) }
{
    for step in steps {
        add_step(net, port, step, served)?;
    }
    Ok(())
}

// For each connection that nothing was served of it.
fn none_served(alloc: Global, conns: &[Conn]) -> Result<Vec<Vec<Served>>, AllocError>
    ensures { IfOk result (spec.IsNothingServed (length conns.now)) }
{
    let mut served = Vec::new(alloc);
    for _conn in conns {
        let none = Vec::new(alloc);
        served.push(none)?;
    }
    Ok(served)
}

// What the first port of the path of each connection served of it, in that port's order.
pub(crate) fn all_served(
    alloc: Global,
    net: &Net,
    ports: &[Vec<Entry>],
) -> Result<Vec<Vec<Served>>, AllocError>
    ensures { IfOk result (spec.AreServed net.now
        (map (λ (steps : Vec EntrySpec GlobalSpec). steps.items) ports.now)) }
{
    let mut served = none_served(alloc, net.conns())?;
    for (port, steps) in ports.iter().enumerate() {
        add_steps(net, port, steps.as_slice(), served.as_mut_slice())?;
    }
    Ok(served)
}
