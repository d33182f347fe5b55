//! The words of entries that no report has, written.
ghost use Rattle.std.specs.Prelude.{◌≡◌};
ghost use Rattle.abt_entry.specs.Words as words;

use abt_keep::StorePlan;
use abt_node::ArriveFault;

pub(crate) fn arrive_fault_word(fault: ArriveFault) -> &'static str
    ensures { result.now ≡ words.arrive_fault_name fault }
{
    match fault {
        ArriveFault::UnknownVc => "UnknownVc",
        ArriveFault::NotIngress => "NotIngress",
        ArriveFault::ClockBack => "ClockBack",
        ArriveFault::TimeRange => "TimeRange",
    }
}

pub(crate) fn plan_word(plan: StorePlan) -> &'static str
    ensures { result.now ≡ words.plan_name plan }
{
    match plan {
        StorePlan::Works => "works",
        StorePlan::FailsBefore => "before",
        StorePlan::FailsAfter => "after",
    }
}
