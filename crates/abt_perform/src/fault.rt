//! Why a plan isn't done.
ghost use Rattle.std.specs.Prelude.{◌≡◌, Some};
ghost use Rattle.abt_perform.specs.Names.{fault_name, fault_of_engine};

use crate::naming::{FaultName, Fields, name_of};
use abt_cell::RmFault;
use abt_scenario::{EngineFault, ScenarioFault};
use std::alloc::AllocError;
use std::fmt;

/// Why a plan, or one cell of it, isn't done. A fault shows itself by its name and its fields (docs/FORMATS.md, "The program").
#[derive(Clone, Copy, Debug, PartialEq, Eq)]
pub enum Fault {
    /// The text is no rate code: not four hexadecimal digits.
    Code,
    /// The text isn't hexadecimal, or has an odd number of digits.
    Hex,
    /// The octets aren't the 52 of a cell.
    Length,
    /// The cell is neither a request nor an answer.
    Rm(RmFault),
    /// The port has no room for another connection.
    Full,
    /// The input can't be read.
    Read,
    /// The input has more octets than a scenario may have.
    TooLong,
    /// The input is no UTF-8 text.
    NotUtf8,
    /// The input is no scenario.
    Scenario(ScenarioFault),
    /// There are no link workers, or too many.
    Workers,
    /// A jitter is above its connection's tau.
    Scripts,
    /// The operator's list names a port that the net doesn't have.
    Operator,
    /// A thread couldn't be started.
    Thread,
    /// A port's journal was shorter than what a worker had seen of it.
    Wound,
    /// The journals of ports and the receipts of workers aren't those of one run.
    Gather,
    /// Entries of the journals are in no order in which they can have happened.
    NoOrder,
    /// An entry of a journal can't have been answered as it says.
    Mismatch,
    /// The output can't be written.
    Write,
    /// No memory was found.
    Memory,
}

impl From<AllocError> for Fault {
    ghost use Rattle.abt_perform.specs.declared.fault.Fault.TheVariants.{Memory};

    ghost from_gives = { λ _ fault. fault ≡ Memory };

    fn from(_: AllocError) -> Fault {
        Fault::Memory
    }
}

impl From<EngineFault> for Fault {
    ghost from_gives = { λ engine fault. fault ≡ fault_of_engine engine };

    fn from(fault: EngineFault) -> Fault {
        match fault {
            EngineFault::Read => Fault::Read,
            EngineFault::TooLong => Fault::TooLong,
            EngineFault::NotUtf8 => Fault::NotUtf8,
            EngineFault::Scenario(fault) => Fault::Scenario(fault),
            EngineFault::Write => Fault::Write,
            EngineFault::Memory => Fault::Memory,
        }
    }
}

impl fmt::Display for Fault {
    ghost output = { λ fault. Some (fault_name fault) };

    fn fmt<W: fmt::Write>(&self, f: &mut fmt::Formatter<W>) -> fmt::Result {
        let FaultName { words, fields } = name_of(*self);
        match fields {
            Fields::None => write!(f, "{words}"),
            Fields::Key(key) => write!(f, "{words} {key}"),
            Fields::One(number) => write!(f, "{words} {number}"),
            Fields::Two(first, second) => write!(f, "{words} {first} {second}"),
        }
    }
}
