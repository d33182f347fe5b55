//! Why a port adds no connection, and why it judges no cell.
ghost use Rattle.std.specs.Prelude.{◌≡◌};

use abt_gcra::GcraFault;
use thiserror::Error;

/// Why a connection was not added: the first of these that applies, in this order.
#[derive(Clone, Copy, Debug, PartialEq, Eq, Error)]
pub enum AddFault {
    /// The port has the connection.
    #[error("the connection is known")]
    Known,
    /// The port has as many connections as it can have.
    #[error("the port is full")]
    Full,
    /// No memory was found for another one.
    #[error("out of memory")]
    Memory,
}

/// Why a cell was not judged: the first of these that applies, in this order.
#[derive(Clone, Copy, Debug, PartialEq, Eq, Error)]
pub enum ArriveFault {
    /// The connection was never added to the port.
    #[error("the connection is unknown")]
    UnknownVc,
    /// The port isn't the ingress of the connection, so it doesn't police it.
    #[error("the port is not the ingress of the connection")]
    NotIngress,
    /// The moment is before that of an arrival that was judged.
    #[error("the clock went back")]
    ClockBack,
    /// The moment is above the greatest of an arrival.
    #[error("the moment is above its limit")]
    TimeRange,
}

impl From<GcraFault> for ArriveFault {
    ghost use Rattle.abt_node.specs.Faults.{fault_of};

    ghost from_gives = { λ fault result. result ≡ fault_of fault };

    fn from(fault: GcraFault) -> ArriveFault {
        match fault {
            GcraFault::ClockBack => ArriveFault::ClockBack,
            GcraFault::TimeRange => ArriveFault::TimeRange,
        }
    }
}
