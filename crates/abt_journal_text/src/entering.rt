//! The causes of a text's faults, from faults of nets and of lines.
ghost use Rattle.std.specs.Prelude.{◌≡◌, ◌≢◌, ◌⊎◌, IfOk, IfErr};
ghost use Rattle.abt_journal_text.specs.Entering.{IsNoNet};
ghost use Rattle.abt_journal_text.specs.declared.fault.Cause.TheVariants as cause;
ghost use Rattle.abt_entry.specs.declared.fault.LineFault.TheVariants as line_fault;
ghost use Rattle.abt_net.specs.declared.fault.NetFault.TheVariants as net_fault;

use crate::fault::Cause;
use abt_entry::{LineFault, NetDraft};
use abt_net::{Net, NetFault};
use std::alloc::Global;

// The net that a line draws.
pub(crate) fn net_of(alloc: Global, draft: NetDraft) -> Result<Net, Cause>
    ensures ok { IfOk result (λ net. net ≡ draft) }
    ensures err { IfErr result (λ why. (why ≡ cause.Memory) ⊎ IsNoNet draft why) }
{
    let NetDraft { capacities, conns } = draft;
    match Net::build(alloc, capacities, conns) {
        Ok(net) => Ok(net),
        Err(fault) => Err(cause_of_net(fault)),
    }
}

// The cause of a text's fault, from a fault of a net.
fn cause_of_net(fault: NetFault) -> Cause
    ensures { ((fault ≡ net_fault.Memory) × (result ≡ cause.Memory)) ⊎
        ((fault ≢ net_fault.Memory) × (result ≡ cause.Net fault)) }
{
    match fault {
        NetFault::Memory => Cause::Memory,
        _ => Cause::Net(fault),
    }
}

// The cause of a text's fault, from a fault of a line.
pub(crate) fn cause_of_line(fault: LineFault) -> Cause
    ensures { ((fault ≡ line_fault.Memory) × (result ≡ cause.Memory)) ⊎
        ((fault ≢ line_fault.Memory) × (result ≡ cause.Line fault)) }
{
    match fault {
        LineFault::Memory => Cause::Memory,
        _ => Cause::Line(fault),
    }
}
