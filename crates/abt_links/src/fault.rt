//! Why a run has no result.
use abt_journal::{GatherFault, ServeFault};
use std::alloc::AllocError;
use thiserror::Error;

/// Why a run of threads has no result: the first of these that applies, in this order, but for want of memory, which can come
/// wherever memory is asked for.
#[derive(Clone, Copy, Debug, PartialEq, Eq, Error)]
pub enum RunFault {
    /// There is no link worker, or more than 64.
    #[error("there are 1 to 64 link workers")]
    Workers,
    /// There isn't one script for each connection, or a jitter is above its connection's tau.
    #[error("there is not one script for each connection, or a jitter is above the tolerance")]
    Scripts,
    /// The operator's list names a port that the net doesn't have.
    #[error("the operator's list names a port that is not in the net")]
    Operator,
    /// A thread couldn't be started.
    #[error("a thread could not be started")]
    Thread,
    /// A port's journal was shorter than what a worker had seen of it.
    #[error("a journal had {found} entries, and {seen} were seen of it")]
    Wound { seen: u64, found: u64 },
    /// The journals and the receipts of the workers aren't those of one run.
    #[error("{0}")]
    Gather(GatherFault),
    /// Memory was refused.
    #[error("out of memory")]
    Memory,
}

impl From<AllocError> for RunFault {
    ghost use Rattle.std.specs.Prelude.{◌≡◌};
    ghost use Rattle.abt_links.specs.declared.fault.RunFault.TheVariants.{Memory};

    ghost from_gives = { λ refused fault. fault ≡ Memory };

    fn from(_refused: AllocError) -> RunFault {
        RunFault::Memory
    }
}

impl From<ServeFault> for RunFault {
    ghost use Rattle.std.specs.Prelude.{◌≡◌};
    ghost use Rattle.abt_links.specs.Faults.{run_fault};

    ghost from_gives = { λ served fault. fault ≡ run_fault served };

    fn from(served: ServeFault) -> RunFault {
        match served {
            ServeFault::Wound { seen, found } => RunFault::Wound { seen, found },
            ServeFault::Memory => RunFault::Memory,
        }
    }
}

impl From<GatherFault> for RunFault {
    ghost use Rattle.std.specs.Prelude.{◌≡◌};
    ghost use Rattle.abt_links.specs.Faults.{gather_fault};

    ghost from_gives = { λ gathered fault. fault ≡ gather_fault gathered };

    fn from(gathered: GatherFault) -> RunFault {
        match gathered {
            GatherFault::Memory => RunFault::Memory,
            fault => RunFault::Gather(fault),
        }
    }
}
