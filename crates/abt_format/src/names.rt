//! The names that reports print.
ghost use Rattle.std.specs.Prelude.{◌≡◌};
ghost use Rattle.abt_format.specs.Names.{cause_name, verdict_name, heard_name, start_fault_name, ask_fault_name};
ghost use Rattle.abt_format.specs.Names.{capacity_fault_name};

use abt_gcra::Verdict;
use abt_model::{Cause, Heard};
use abt_node::CapacityFault;
use abt_source::{AskFault, StartFault};

/// Why an event could not happen (docs/FORMATS.md, "Report").
pub fn cause_name(cause: Cause) -> &'static str
    ensures { result.now ≡ cause_name cause }
{
    match cause {
        Cause::Down => "Down",
        Cause::Running => "Running",
        Cause::NotSent => "NotSent",
        Cause::Fenced => "Fenced",
        Cause::Delay => "Delay",
        Cause::ClockBack => "ClockBack",
        Cause::Unknown => "Unknown",
        Cause::NotAsking => "NotAsking",
    }
}

/// The name of a policer's verdict (docs/FORMATS.md, "Report").
pub fn verdict_name(verdict: Verdict) -> &'static str
    ensures { result.now ≡ verdict_name verdict }
{
    match verdict {
        Verdict::Conforming => "Conforming",
        Verdict::TooEarly => "TooEarly",
        Verdict::NoRate => "NoRate",
    }
}

/// What a source made of an answer (docs/FORMATS.md, "Report").
pub fn heard_name(heard: Heard) -> &'static str
    ensures { result.now ≡ heard_name heard }
{
    match heard {
        Heard::Raised => "Raised",
        Heard::Refused => "Refused",
        Heard::Ignored => "Ignored",
    }
}

/// Why a source didn't start (docs/FORMATS.md, "Report").
pub fn start_fault_name(fault: StartFault) -> &'static str
    ensures { result.now ≡ start_fault_name fault }
{
    match fault {
        StartFault::Keep => "Keep",
        StartFault::TimeRange => "TimeRange",
    }
}

/// Why a source didn't ask (docs/FORMATS.md, "Report").
pub fn ask_fault_name(fault: AskFault) -> &'static str
    ensures { result.now ≡ ask_fault_name fault }
{
    match fault {
        AskFault::SeqExhausted => "SeqExhausted",
        AskFault::Keep => "Keep",
    }
}

/// Why a capacity wasn't set (docs/FORMATS.md, "Report").
pub fn capacity_fault_name(fault: CapacityFault) -> &'static str
    ensures { result.now ≡ capacity_fault_name fault }
{
    match fault {
        CapacityFault::BelowSum => "BelowSum",
        CapacityFault::AboveLimit => "AboveLimit",
    }
}
