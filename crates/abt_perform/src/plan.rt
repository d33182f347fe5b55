//! The plans that the words of a command line ask for.
use std::alloc::AllocError;
use thiserror::Error;

/// A plan.
#[derive(Drop)]
pub enum Plan {
    /// Say what a rate code, as text, means.
    Rate(String),
    /// Say what an RM cell, as hexadecimal text, says.
    Cell(String),
    /// Serve RM cells, as hexadecimal text, at one port of this capacity in units of 1/512 cell/s.
    Port { capacity: u64, cells: Vec<String> },
    /// Run the scenario of this file, or of the standard input, and print its report.
    Run(Option<String>),
    /// Run the scripts of this file's scenario, or of the standard input's, in threads, with so many link workers, and say what
    /// is shown of it.
    Threads { file: Option<String>, workers: u16 },
}

/// Why words are no plan.
#[derive(Debug, Drop, Error)]
pub enum WordsFault {
    /// The words are refused, with what to tell the caller.
    #[error("{0}")]
    Words(String),
    /// The words ask for this help.
    #[error("{0}")]
    Help(String),
    /// No memory was found for the plan.
    #[error("out of memory")]
    Memory,
}

impl From<AllocError> for WordsFault {
    ghost use Rattle.std.specs.Prelude.{◌≡◌};
    ghost use Rattle.abt_perform.specs.declared.plan.WordsFault.TheVariants.{Memory};

    ghost from_gives = { λ _ fault. fault ≡ Memory };

    fn from(_: AllocError) -> WordsFault {
        WordsFault::Memory
    }
}
