//! Why a text is no scenario.
ghost use Rattle.std.specs.Prelude.{◌≡◌};
ghost use Rattle.abt_scenario.specs.declared.fault.ScenarioFault.TheVariants.{Memory};

use crate::key::Key;
use abt_net::NetFault;
use std::alloc::{AllocError, AllocFailed};
use thiserror::Error;

/// Why a text is no scenario: the first of these. The first three are looked for along the keys (docs/FORMATS.md,
/// "Scenario"). Want of memory comes where it is met.
#[derive(Clone, Copy, Debug, PartialEq, Eq, Error)]
pub enum ScenarioFault {
    /// The text isn't TOML.
    #[error("the text is not TOML")]
    Toml,
    /// A key that has to be there is missing.
    #[error("the key {0} is missing")]
    MissingKey(Key),
    /// What stands at a key is of a wrong type, or a number out of its range.
    #[error("the value of the key {0} is of a wrong type")]
    WrongType(Key),
    /// The ports and connections are no net.
    #[error("no net: {0}")]
    Net(NetFault),
    /// The text of the event of this number, from 1, says no event.
    #[error("event {number} is no event")]
    EventText { number: u64 },
    /// The text of this number, from 1, in the script of this connection, from 0, says no command.
    #[error("command {number} of connection {connection} is no command")]
    ScriptText { connection: u64, number: u64 },
    /// The text of the operation of this number, from 1, says no operation.
    #[error("operation {number} is no operation")]
    OperatorText { number: u64 },
    /// No memory was found.
    #[error("out of memory")]
    Memory,
}

impl From<AllocError> for ScenarioFault {
    ghost from_gives = { λ _ fault. fault ≡ Memory };

    fn from(_: AllocError) -> ScenarioFault {
        ScenarioFault::Memory
    }
}

impl<T: Drop> From<AllocFailed<T>> for ScenarioFault {
    ghost from_gives = { λ _ fault. fault ≡ Memory };

    fn from(_: AllocFailed<T>) -> ScenarioFault {
        ScenarioFault::Memory
    }
}
