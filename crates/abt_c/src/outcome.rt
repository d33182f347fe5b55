//! The numbers that C gets for the results of calls (docs/C.md, "Outcomes").
ghost use Rattle.std.specs.Prelude.{◌≡◌, ◌<◌, ◌≤◌, ◌↔◌};
ghost use Rattle.abt_cell.specs.declared.fault.RmFault.TheVariants.{SeqZero, RateOrder};
ghost use Rattle.abt_c.specs.Outcome.{verdict_number, rm_number, drop_number, clock_back, time_range, wrong_kind, vpi_range, first_fault};
ghost use Rattle.abt_gcra.specs.declared.fault.GcraFault.{GcraFault};

use crate::record::Lacks;
use abt_cell::RmFault;
use abt_gcra::{GcraFault, Verdict};
use abt_node::DropCause;

pub const DONE: u32 = 0;

pub const NO_STATE: u32 = 33;

pub const WRONG_LENGTH: u32 = 34;

pub const TAU_RANGE: u32 = 35;

pub const SPACING_RANGE: u32 = 36;

pub const UNITS_RANGE: u32 = 37;

pub const CLOCK_BACK: u32 = 38;

pub const TIME_RANGE: u32 = 39;

pub const ZERO_RATE: u32 = 40;

pub const TOO_SOON: u32 = 41;

pub const SEQ_ZERO: u32 = 54;

pub const RATE_ORDER: u32 = 55;

pub const WRONG_KIND: u32 = 56;

pub const VPI_RANGE: u32 = 57;

pub const WRITE_FIRST: u32 = 8;

pub const ASKED: u32 = 9;

pub const RAISED: u32 = 10;

pub const REFUSED: u32 = 11;

pub const IGNORED: u32 = 12;

pub const PASS: u32 = 16;

pub const REFUSE: u32 = 17;

pub const DOWN: u32 = 64;

pub const RUNNING: u32 = 65;

pub const WRITING: u32 = 66;

pub const NOT_WRITING: u32 = 67;

pub const NOT_ASKING: u32 = 68;

pub const SEQ_EXHAUSTED: u32 = 69;

pub const NOT_KEPT: u32 = 70;

pub const RECORD_SPACING: u32 = 71;

pub const BELOW_SUM: u32 = 72;

pub const CAPACITY_RANGE: u32 = 73;

pub const KNOWN: u32 = 74;

pub const FULL: u32 = 75;

pub const DAMAGED: u32 = 76;

pub const HELD: u32 = 77;

pub const NOT_INGRESS: u32 = 78;

/// The number of a verdict.
pub fn of_verdict(verdict: Verdict) -> u32
    ensures value { result ≡ verdict_number verdict }
    ensures low { result < first_fault }
{
    match verdict {
        Verdict::Conforming => 1,
        Verdict::TooEarly => 2,
        Verdict::NoRate => 3,
    }
}

/// The number of a fault of a cell.
pub fn of_rm_fault(fault: RmFault) -> u32
    ensures value { result ≡ rm_number fault }
    ensures high { first_fault ≤ result }
{
    match fault {
        RmFault::NotRm => 48,
        RmFault::Crc => 49,
        RmFault::Protocol => 50,
        RmFault::Maintenance => 51,
        RmFault::Elastic => 52,
        RmFault::Direction => 53,
        RmFault::SeqZero => 54,
        RmFault::RateOrder => 55,
    }
}

/// The number of a cause for which a port drops a message.
pub fn of_drop(cause: DropCause) -> u32
    ensures value { result ≡ drop_number cause }
    ensures low { result < first_fault }
    ensures unknown_vc { (result ≡ drop_number DropCause.UnknownVc) ↔ (cause ≡ DropCause.UnknownVc) }
{
    match cause {
        DropCause::UnknownVc => 18,
        DropCause::Stale => 19,
        DropCause::Conflict => 20,
        DropCause::FloorAbove => 21,
    }
}

/// The number of the first thing that a record lacks to be a message.
pub fn of_lack(lack: Lacks) -> u32
    ensures kind { (result ≡ wrong_kind) ↔ (lack ≡ Lacks.Kind) }
    ensures vpi { (result ≡ vpi_range) ↔ (lack ≡ Lacks.Vpi) }
    ensures seq { (result ≡ rm_number SeqZero) ↔ (lack ≡ Lacks.Seq) }
    ensures order { (result ≡ rm_number RateOrder) ↔ (lack ≡ Lacks.Order) }
    ensures within { (rm_number SeqZero ≤ result) × (result ≤ vpi_range) }
{
    match lack {
        Lacks::Kind => WRONG_KIND,
        Lacks::Vpi => VPI_RANGE,
        Lacks::Seq => SEQ_ZERO,
        Lacks::Order => RATE_ORDER,
    }
}
