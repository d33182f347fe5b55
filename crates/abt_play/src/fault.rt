//! Why there is no play.
use abt_perform::Fault;
use abt_scenario::EngineFault;
use std::alloc::AllocError;
use thiserror::Error;

/// Why a play stopped.
#[derive(Clone, Copy, Debug, PartialEq, Eq, Error)]
pub enum StopFault {
    /// There would be more than a million events.
    #[error("the play has more than a million events")]
    Events,
    /// Memory was refused.
    #[error("out of memory")]
    Memory,
}

impl From<AllocError> for StopFault {
    ghost use Rattle.std.specs.Prelude.{◌≡◌};
    ghost use Rattle.abt_play.specs.declared.fault.StopFault.TheVariants.{Memory};

    ghost from_gives = { λ _ fault. fault ≡ Memory };

    fn from(_: AllocError) -> StopFault {
        StopFault::Memory
    }
}

/// Why there is no play.
#[derive(Clone, Copy, Debug, PartialEq, Eq, Error)]
pub enum PlayFault {
    /// There isn't one script for each connection, or a jitter is above its connection's tau.
    #[error("the scripts don't fit the net")]
    Scripts,
    /// The operator's list names a port that the net doesn't have.
    #[error("the operator's list names a port that isn't there")]
    Operator,
    /// The play stopped before its end.
    #[error("{0}")]
    Stopped(StopFault),
}

impl From<StopFault> for PlayFault {
    ghost use Rattle.std.specs.Prelude.{◌≡◌};
    ghost use Rattle.abt_play.specs.declared.fault.PlayFault.TheVariants.{Stopped};

    ghost from_gives = { λ why fault. fault ≡ Stopped why };

    fn from(why: StopFault) -> PlayFault {
        PlayFault::Stopped(why)
    }
}

/// Why a scenario's play isn't shown.
#[derive(Clone, Copy, Debug, PartialEq, Eq)]
pub enum ShowFault {
    /// A fault that other commands have too.
    Named(Fault),
    /// The play would have more than a million events.
    Events,
}

impl From<AllocError> for ShowFault {
    ghost use Rattle.std.specs.Prelude.{◌≡◌};
    ghost use Rattle.abt_perform.specs.declared.fault.Fault.TheVariants as named;
    ghost use Rattle.abt_play.specs.declared.fault.ShowFault.TheVariants.{Named};

    ghost from_gives = { λ _ fault. fault ≡ Named named.Memory };

    fn from(_: AllocError) -> ShowFault {
        ShowFault::Named(Fault::Memory)
    }
}

impl From<EngineFault> for ShowFault {
    ghost use Rattle.std.specs.Prelude.{◌≡◌};
    ghost use Rattle.abt_perform.specs.Names.{fault_of_engine};
    ghost use Rattle.abt_play.specs.declared.fault.ShowFault.TheVariants.{Named};

    ghost from_gives = { λ engine fault. fault ≡ Named (fault_of_engine engine) };

    fn from(fault: EngineFault) -> ShowFault {
        ShowFault::Named(Fault::from(fault))
    }
}

impl From<PlayFault> for ShowFault {
    ghost use Rattle.std.specs.Prelude.{◌≡◌};
    ghost use Rattle.abt_play.specs.Performing.{fault_of_play};

    ghost from_gives = { λ play fault. fault ≡ fault_of_play play };

    fn from(fault: PlayFault) -> ShowFault {
        match fault {
            PlayFault::Scripts => ShowFault::Named(Fault::Scripts),
            PlayFault::Operator => ShowFault::Named(Fault::Operator),
            PlayFault::Stopped(StopFault::Events) => ShowFault::Events,
            PlayFault::Stopped(StopFault::Memory) => ShowFault::Named(Fault::Memory),
        }
    }
}
