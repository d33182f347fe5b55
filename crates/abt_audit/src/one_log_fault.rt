//! Why the log of one port, or of one source, isn't shown to obey.
ghost use Rattle.std.specs.Prelude.{◌≡◌};

use crate::fault::AuditFault;
use abt_weave::Actor;
use std::alloc::AllocError;

/// Why a log isn't shown to obey.
#[derive(Debug, Drop)]
pub enum LogFault {
    /// A fault that an audit of all logs has too; [`AuditFault::Stuck`] is a mismatch, at the first entry that doesn't obey.
    Audit(AuditFault),
    /// The net has no such port, or no such connection.
    Absent(Actor),
}

impl From<AllocError> for LogFault {
    ghost use Rattle.std.specs.Prelude.{◌≡◌};
    ghost use Rattle.abt_audit.specs.declared.fault.AuditFault.TheVariants.{Memory};
    ghost use Rattle.abt_audit.specs.declared.one_log_fault.LogFault.TheVariants.{Audit};

    ghost from_gives = { λ _ fault. fault ≡ Audit Memory };

    fn from(_: AllocError) -> LogFault {
        LogFault::Audit(AuditFault::Memory)
    }
}
