//! Why texts aren't shown to be journals of a safe run.
ghost use Rattle.std.specs.Prelude.{◌≡◌};

use abt_journal_text::{Run, TextFault};
use abt_weave::WeaveFault;
use std::alloc::AllocError;

/// Why texts aren't shown to be the journals of one run.
#[derive(Debug, Drop)]
pub enum AuditFault {
    /// A text says no journals.
    Text(TextFault),
    /// There is no text.
    Nothing,
    /// The journals of this run aren't woven into events: these are the lines of the entries at which they are stuck.
    Stuck {
        fault: WeaveFault,
        lines: Vec<u8>,
        run: Run,
    },
    /// The output can't be written.
    Write,
    /// Memory was refused.
    Memory,
}

impl From<AllocError> for AuditFault {
    ghost use Rattle.std.specs.Prelude.{◌≡◌};
    ghost use Rattle.abt_audit.specs.declared.fault.AuditFault.TheVariants.{Memory};

    ghost from_gives = { λ _ fault. fault ≡ Memory };

    fn from(_: AllocError) -> AuditFault {
        AuditFault::Memory
    }
}
