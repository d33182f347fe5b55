//! The program's faults for those of a run, and of showing it.
ghost use Rattle.std.specs.Prelude.{◌≡◌};
ghost use Rattle.abt_perform_threads.specs.Faults as named;

use crate::showing::ShowFault;
use abt_links::RunFault;
use abt_perform::Fault;
use abt_weave::WeaveFault;

/// The program's fault for one of a run in threads.
pub fn fault_of_run(fault: RunFault) -> Fault
    ensures { result ≡ named.fault_of_run fault }
{
    match fault {
        RunFault::Workers => Fault::Workers,
        RunFault::Scripts => Fault::Scripts,
        RunFault::Operator => Fault::Operator,
        RunFault::Thread => Fault::Thread,
        RunFault::Wound { .. } => Fault::Wound,
        RunFault::Gather(_) => Fault::Gather,
        RunFault::Memory => Fault::Memory,
    }
}

/// The program's fault if a run can't be shown.
pub fn fault_of_show(fault: &ShowFault) -> Fault
    ensures { result ≡ named.fault_of_show fault.now }
{
    match fault {
        ShowFault::Weave(reason) => fault_of_weave(reason),
        ShowFault::Trace => Fault::Memory,
        ShowFault::Write => Fault::Write,
    }
}

fn fault_of_weave(fault: &WeaveFault) -> Fault
    ensures { result ≡ named.fault_of_weave fault.now }
{
    match fault {
        WeaveFault::Mismatch { .. } => Fault::Mismatch,
        WeaveFault::NoOrder(_) => Fault::NoOrder,
        WeaveFault::Memory => Fault::Memory,
    }
}
