//! Why nothing is drawn.
ghost use Rattle.abt_draw.specs.Drawn.{TellsSome};

use abt_perform::{Fault, MEMORY_LINE, tell_fault, tell_text};
use abt_scenario::EngineFault;
use std::alloc::{AllocError, Global};
use std::io::Write;
use thiserror::Error;

/// Why nothing is drawn.
#[derive(Clone, Copy, Debug, PartialEq, Eq, Error)]
pub enum DrawFault {
    /// The scenario can't be read.
    #[error("{0}")]
    Engine(EngineFault),
    /// So many events are to be drawn, which are too many.
    #[error("Events {0}: at most 2000 are drawn at once, so choose some by --from and --to")]
    Events(u64),
    /// The events that are named aren't among so many.
    #[error("Range: the run has {0} events, and --from is to be at most --to")]
    Range(u64),
    /// A connection is named that the net doesn't have.
    #[error("Only {0}: the net has no such connection")]
    Only(u16),
    /// There are too many columns.
    #[error("Columns: at most 1024 lifelines are drawn, so choose connections by --only")]
    Columns,
    /// There are too many ports and connections for so many events.
    #[error("Numbers: there are too many ports and connections for so many events, so choose fewer by --from and --to")]
    Numbers,
}

impl From<EngineFault> for DrawFault {
    ghost use Rattle.std.specs.Prelude.{◌≡◌};
    ghost use Rattle.abt_draw.specs.declared.fault.DrawFault.TheVariants.{Engine};

    ghost from_gives = { λ engine fault. fault ≡ Engine engine };

    fn from(fault: EngineFault) -> DrawFault {
        DrawFault::Engine(fault)
    }
}

impl From<AllocError> for DrawFault {
    ghost use Rattle.std.specs.Prelude.{◌≡◌};
    ghost use Rattle.abt_draw.specs.declared.fault.DrawFault.TheVariants.{Engine};
    ghost use Rattle.abt_scenario.specs.declared.engine.EngineFault.TheVariants.{Memory};

    ghost from_gives = { λ _ fault. fault ≡ Engine Memory };

    fn from(_: AllocError) -> DrawFault {
        DrawFault::Engine(EngineFault::Memory)
    }
}

/// Tells a fault, as far as the writer takes it; want of memory, if its line can't be made.
pub fn tell_draw_fault<E: Write>(alloc: Global, fault: DrawFault, errors: &mut E)
    ensures { TellsSome (E.contents errors.old) (E.contents errors.new) }
{
    if let DrawFault::Engine(engine) = fault {
        tell_fault(Fault::from(engine), errors);
        return;
    }
    match format!(in alloc; "fault: {fault}\n") {
        Ok(line) => tell_text(errors, line.as_str()),
        Err(_) => tell_text(errors, MEMORY_LINE),
    }
}
