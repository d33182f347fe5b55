//! Why a line isn't served.
ghost use Rattle.std.specs.Prelude.{◌≡◌, OnOk, string_bytes};
ghost use Rattle.abt_text.specs.Text.{◌⋅◌};
ghost use Rattle.abt_parts.specs.Lines.{fault_name, fault_text};

use std::alloc::AllocError;

/// Why a line isn't served. It shows itself by the name that the answer to the line has (docs/FORMATS.md, "Parts by hand").
#[derive(Clone, Copy, Debug, PartialEq, Eq)]
pub enum LineFault {
    /// The line is too long.
    TooLong,
    /// The line isn't a moment: 1 to 19 decimal digits and nothing else.
    Number,
    /// The arrival is before that of the last cell that got a verdict.
    ClockBack,
    /// The moment is above the greatest one at which a cell arrives, or leaves.
    TimeRange,
    /// There is no rate to leave at.
    Zero,
}

impl LineFault {
    /// The name of the fault.
    pub fn name(self) -> &'static str
        ensures { result.now ≡ fault_name self }
    {
        match self {
            LineFault::TooLong => "TooLong",
            LineFault::Number => "number",
            LineFault::ClockBack => "ClockBack",
            LineFault::TimeRange => "TimeRange",
            LineFault::Zero => "Zero",
        }
    }
}

// Adds the answer to a line that has a fault to a text.
pub(crate) fn push_fault(text: &mut String, fault: LineFault) -> Result<(), AllocError>
    ensures { OnOk result (string_bytes text.new ≡ string_bytes text.old ⋅ fault_text fault) }
{
    text.push_str("fault ")?;
    text.push_str(fault.name())
}
