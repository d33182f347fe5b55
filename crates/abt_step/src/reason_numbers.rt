//! The numbers of reasons, as members of an object.
ghost use Rattle.std.specs.Prelude.{◌≡◌, OnOk};
ghost use Rattle.abt_entry.specs.ObjectMembers.{Adds};
ghost use Rattle.abt_step.specs.Moments as moments;
ghost use Rattle.abt_step.specs.ReasonNumbers as spec;

use abt_entry::push_number;
use abt_json::push_exact;
use abt_model::{Cause, Heard, Outcome};
use abt_node::{Back, CapacityFault, DropCause, Onward};
use abt_reason::Numbers;
use json::Writer;
use std::alloc::AllocError;

// Adds the numbers by which an outcome is as it is, as an object of their own.
pub(crate) fn push_why(
    object: &mut Writer,
    numbers: &Numbers,
    outcome: &Outcome,
) -> Result<(), AllocError>
    ensures { OnOk result (Adds (spec.why_member numbers.now outcome.now) object.old object.new) }
{
    object.key("why")?;
    object.begin_object()?;
    push_numbers(object, numbers, outcome)?;
    object.end_object()
}

fn push_numbers(object: &mut Writer, numbers: &Numbers, outcome: &Outcome) -> Result<(), AllocError>
    ensures { OnOk result (Adds (spec.reason_numbers numbers.now outcome.now) object.old object.new) }
{
    match *outcome {
        Outcome::Requested(reply) => push_onward(object, numbers, reply),
        Outcome::Answered(reply) => push_back(object, numbers, reply),
        Outcome::Told(heard) => push_heard(object, numbers, heard),
        Outcome::CapacityRefused(fault) => push_capacity(object, numbers, fault),
        Outcome::NotEnabled(cause) => push_cause(object, numbers, cause),
        Outcome::Started
        | Outcome::StartRefused(_)
        | Outcome::Asked(_)
        | Outcome::AskRefused(_)
        | Outcome::Repeated(_)
        | Outcome::Crashed
        | Outcome::Emitted { .. }
        | Outcome::EmitRefused(_)
        | Outcome::Arrived(_)
        | Outcome::Turned
        | Outcome::CapacitySet => Ok(()),
    }
}

fn push_onward(object: &mut Writer, numbers: &Numbers, reply: Onward) -> Result<(), AllocError>
    ensures { OnOk result (Adds (spec.onward_numbers numbers.now reply) object.old object.new) }
{
    let Numbers::AtHop {
        seq,
        newest,
        asks,
        holds,
        total,
        capacity,
    } = *numbers
    else {
        return Ok(());
    };
    match reply {
        Onward::Refuse(_) if seq == newest => push_newest(object, newest),
        Onward::Refuse(_) => push_fit(object, asks, holds, total, capacity),
        Onward::Drop(DropCause::Stale) => push_newest(object, newest),
        Onward::Pass | Onward::Drop(_) => Ok(()),
    }
}

// Adds what a request asks for, what is held for its connection and for others, and the capacity.
fn push_fit(
    object: &mut Writer,
    asks: u64,
    holds: u64,
    total: u64,
    capacity: u64,
) -> Result<(), AllocError>
    ensures { OnOk result (Adds (spec.fit_numbers asks holds total capacity) object.old object.new) }
{
    push_number(object, "asks", asks)?;
    push_number(object, "holds", holds)?;
    push_exact(object, "others", "others_text", total.saturating_sub(holds))?;
    push_exact(object, "capacity", "capacity_text", capacity)
}

fn push_newest(object: &mut Writer, newest: u32) -> Result<(), AllocError>
    ensures { OnOk result (Adds (spec.newest_member newest) object.old object.new) }
{
    push_number(object, "newest", u64::from(newest))
}

fn push_back(object: &mut Writer, numbers: &Numbers, reply: Back) -> Result<(), AllocError>
    ensures { OnOk result (Adds (spec.back_numbers numbers.now reply) object.old object.new) }
{
    match (*numbers, reply) {
        (Numbers::Newest { newest }, Back::Drop(DropCause::Stale)) => push_newest(object, newest),
        _ => Ok(()),
    }
}

fn push_heard(object: &mut Writer, numbers: &Numbers, heard: Heard) -> Result<(), AllocError>
    ensures { OnOk result (Adds (spec.heard_numbers numbers.now heard) object.old object.new) }
{
    match (*numbers, heard) {
        (Numbers::Waits { awaited }, Heard::Ignored) => push_awaited(object, awaited),
        _ => Ok(()),
    }
}

// Adds the number that a source waits for, null for none.
fn push_awaited(object: &mut Writer, awaited: Option<u32>) -> Result<(), AllocError>
    ensures { OnOk result (Adds (spec.awaited_member awaited) object.old object.new) }
{
    match awaited {
        Some(seq) => push_number(object, "awaited", u64::from(seq)),
        None => {
            object.key("awaited")?;
            object.null()
        }
    }
}

fn push_capacity(
    object: &mut Writer,
    numbers: &Numbers,
    fault: CapacityFault,
) -> Result<(), AllocError>
    ensures { OnOk result (Adds (spec.capacity_numbers numbers.now fault) object.old object.new) }
{
    match (*numbers, fault) {
        (Numbers::Reserved { total }, CapacityFault::BelowSum) => {
            push_exact(object, "total", "total_text", total)
        }
        _ => Ok(()),
    }
}

fn push_cause(object: &mut Writer, numbers: &Numbers, cause: Cause) -> Result<(), AllocError>
    ensures { OnOk result (Adds (spec.cause_numbers numbers.now cause) object.old object.new) }
{
    match (*numbers, cause) {
        (Numbers::NoConnection { connections }, _) => {
            push_number(object, "connections", connections)
        }
        (Numbers::NoPort { ports }, _) => push_number(object, "ports", ports),
        (Numbers::NoHop { hops }, _) => push_number(object, "hops", hops),
        (Numbers::Moment { clock, .. }, Cause::ClockBack) => push_exact(
            object,
            "clock",
            "clock_text",
            clock,
        ),
        _ => push_cell(object, numbers, cause),
    }
}

// Adds why a cell can't arrive; nothing for other numbers.
fn push_cell(object: &mut Writer, numbers: &Numbers, cause: Cause) -> Result<(), AllocError>
    ensures { OnOk result (Adds (spec.cell_numbers numbers.now cause) object.old object.new) }
{
    let Numbers::Cell {
        emitted,
        fence,
        moment,
        delay,
        tau,
        last,
        ..
    } = *numbers
    else {
        return Ok(());
    };
    match cause {
        Cause::NotSent => push_number(object, "emitted", emitted),
        Cause::Fenced => push_number(object, "fence", fence),
        Cause::Delay => push_window(object, moment, delay, tau),
        Cause::ClockBack => push_exact(object, "last", "last_text", last),
        _ => Ok(()),
    }
}

// Adds the first and the last moment at which a cell may be at the first hop.
fn push_window(object: &mut Writer, moment: u64, delay: u64, tau: u64) -> Result<(), AllocError>
    ensures { OnOk result (Adds (spec.window_members moment delay tau) object.old object.new) }
{
    let from = window_start(moment, delay);
    push_exact(object, "from", "from_text", from)?;
    push_exact(object, "to", "to_text", from.saturating_add(tau))
}

// The first moment at which a cell may be at the first hop that left at a moment.
fn window_start(moment: u64, delay: u64) -> u64
    ensures { result ≡ moments.window_start moment delay }
{
    moment.saturating_add(delay)
}
