//! Why nothing is said.
ghost use Rattle.std.specs.Prelude.{◌≡◌};
ghost use Rattle.abt_codes.specs.Printed.{fault_line};

use std::alloc::AllocError;

/// Why a plan isn't done (docs/FORMATS.md, "Rates in words" and "Cells in words").
#[derive(Clone, Copy, Debug, PartialEq, Eq)]
pub enum CodesFault {
    /// The text says no rate.
    Rate,
    /// The VPI is no number below 2^12.
    Vpi,
    /// The VCI is no number below 2^16.
    Vci,
    /// The sequence number is no number below 2^32.
    Seq,
    /// The sequence number is 0.
    SeqZero,
    /// The floor is no code.
    Floor,
    /// The asked rate is no code.
    Ask,
    /// The floor is above the asked rate.
    RateOrder,
    /// The output can't be written.
    Write,
    /// No memory was found.
    Memory,
}

impl CodesFault {
    /// The line that tells the fault.
    pub fn line(self) -> &'static str
        ensures { result.now ≡ fault_line self }
    {
        match self {
            CodesFault::Rate => "fault: rate\n",
            CodesFault::Vpi => "fault: vpi\n",
            CodesFault::Vci => "fault: vci\n",
            CodesFault::Seq => "fault: seq\n",
            CodesFault::SeqZero => "fault: SeqZero\n",
            CodesFault::Floor => "fault: floor\n",
            CodesFault::Ask => "fault: ask\n",
            CodesFault::RateOrder => "fault: RateOrder\n",
            CodesFault::Write => "fault: write\n",
            CodesFault::Memory => "fault: memory\n",
        }
    }
}

impl From<AllocError> for CodesFault {
    ghost use Rattle.abt_codes.specs.declared.fault.CodesFault.TheVariants.{Memory};

    ghost from_gives = { λ _ fault. fault ≡ Memory };

    fn from(_: AllocError) -> CodesFault {
        CodesFault::Memory
    }
}
