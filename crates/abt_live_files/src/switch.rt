//! Ports of a net as a switch.
ghost use Rattle.std.specs.Prelude.{◌≡◌, ◌<◌, ◌⊎◌, All, Contains, IfErr, IfNone, IfSome, OnOk, length};
ghost use Rattle.std.specs.Io.KnownBytes.{IsAtEnd, Keeps};
ghost use Rattle.abt_live_files.specs.Served.{IsSwitchServed, IsSwitchUnserved, StopsSwitch};

use crate::answering::serve_switch;
use crate::fault::LiveStop;
use crate::opening::new_journal;
use crate::telling::tell_stop;
use abt_lines::LinesFault;
use abt_live::{ServeFault, SwitchLines};
use abt_net::Net;
use abt_plans::SwitchPlan;
use abt_scenario::read_from;
use std::alloc::AllocGlobal;
use std::io::{Read, Write};
use std::rt::Files;

/// Reads the scenario that has a net, makes the journal, answers all lines of a reader by a switch that has the ports that a plan names, and
/// gives the exit status: 0 if all answers went out to `writer`, and 1 if what is told on `errors` says why not. What can't be written there
/// changes no status.
///
/// What a read of the lines ends is in the journal, and answered, before the next read.
pub fn perform_switch<T: Files + AllocGlobal, N: Read, R: Read, W: Write, E: Write>(
    rt: &T,
    net: &mut N,
    plan: &SwitchPlan,
    reader: &mut R,
    writer: &mut W,
    errors: &mut E,
) -> u8
    ensures status { (result ≡ 0) ⊎ (result ≡ 1) }
    ensures end { result ≡ 0 → IsAtEnd (R.remaining reader.new) }
    ensures ok { result ≡ 0 → IsSwitchServed T.File.contents (N.remaining net.old) plan.now
        (R.remaining reader.old) (W.contents writer.old) (W.contents writer.new) }
    ensures quiet { result ≡ 0 → Keeps (E.contents errors.old) (E.contents errors.new) }
    ensures err { result ≡ 1 → IsSwitchUnserved T.File.contents (N.remaining net.old) plan.now
        (R.remaining reader.old) (W.contents writer.old) (W.contents writer.new)
        (E.contents errors.old) (E.contents errors.new) }
{
    match switch(rt, net, plan, reader, writer) {
        Ok(()) => 0,
        Err(stop) => {
            tell_stop(stop, "", plan.journal.as_str(), errors);
            1
        }
    }
}

// Answers all lines of a reader by a switch of the net of the scenario that another has left.
fn switch<T: Files + AllocGlobal, N: Read, R: Read, W: Write>(
    rt: &T,
    net: &mut N,
    plan: &SwitchPlan,
    reader: &mut R,
    writer: &mut W,
) -> Result<(), LiveStop>
    ensures end { OnOk result (IsAtEnd (R.remaining reader.new)) }
    ensures ok { OnOk result (IsSwitchServed T.File.contents (N.remaining net.old) plan.now
        (R.remaining reader.old) (W.contents writer.old) (W.contents writer.new)) }
    ensures err { IfErr result (λ stop. StopsSwitch T.File.contents stop (N.remaining net.old)
        plan.now (R.remaining reader.old) (W.contents writer.old) (W.contents writer.new)) }
{
    let scenario = match read_from(rt.alloc(), net) {
        Ok(scenario) => scenario,
        Err(fault) => return Err(LiveStop::Scenario(fault)),
    };
    let ports = plan.ports.as_slice();
    if let Some(id) = missing_port(&scenario.net, ports) {
        return Err(LiveStop::Port(id));
    }
    let journal = match new_journal(rt, plan.journal.as_str()) {
        Ok(journal) => journal,
        Err(fault) => return Err(LiveStop::Journal(fault)),
    };
    let Ok(lines) = SwitchLines::open(rt.alloc(), &scenario.net, ports, journal) else {
        return Err(LiveStop::Serving(ServeFault::Lines(LinesFault::Memory)));
    };
    match serve_switch(rt.alloc(), lines, plan.is_binary, reader, writer) {
        Ok(()) => Ok(()),
        Err(fault) => Err(LiveStop::Serving(fault)),
    }
}

// The first of some ports that a net doesn't have.
fn missing_port(net: &Net, ports: &[u16]) -> Option<u16>
    ensures some { IfSome result (λ id. Contains ports.now id × (id < length net.now.capacities → ⊥)) }
    ensures none { IfNone result (All (λ id. id < length net.now.capacities) ports.now) }
{
    let count = net.capacities().len();
    ports.iter().copied().find(|id| usize::from(*id) >= count)
}
