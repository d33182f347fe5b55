//! Why states and seats aren't those of one run.

use std::alloc::AllocError;
use thiserror::Error;

/// Why states and seats aren't those of one run over a net: the first of these that applies, in this order, but for
/// want of memory, which is looked for before all of them.
#[derive(Clone, Copy, Debug, PartialEq, Eq, Error)]
pub enum GatherFault {
    /// The lowest place where a state is missing, is one too many, or isn't the net's port.
    #[error("the state at {port} is missing, one too many, or not the port of the net")]
    Foreign { port: u16 },
    /// Receipts and entries differ in number, or two seats are of one caller.
    #[error("receipts and entries differ in number, or two seats are of one caller")]
    Count,
    /// The first receipt that isn't its caller's entry, or doesn't come after the caller's receipt before it at this
    /// port.
    #[error("the receipt for place {place} of port {port} is not its caller's next entry")]
    Missing { port: u16, place: u64 },
    /// Memory was refused.
    #[error("out of memory")]
    Memory,
}

impl From<AllocError> for GatherFault {
    ghost use Rattle.std.specs.Prelude.{◌≡◌};
    ghost use Rattle.abt_journal.specs.declared.gather_fault.GatherFault.TheVariants.{Memory};

    ghost from_gives = { λ refused fault. fault ≡ Memory };

    fn from(_refused: AllocError) -> GatherFault {
        GatherFault::Memory
    }
}
