//! Why ports and sources refuse what comes to them.
ghost use Rattle.std.specs.Prelude.{◌≡◌, ◌++◌, OnOk, string_bytes};
ghost use Rattle.abt_reason.specs.Reasons as spec;

use crate::grounds::Numbers;
use abt_format::seconds_text;
use abt_model::Heard;
use abt_node::{Back, CapacityFault, DropCause, Onward};
use abt_shaper::ShapeFault;
use abt_source::{AskFault, StartFault};
use std::alloc::{AllocError, Global};

pub(crate) fn push_onward(
    text: &mut String,
    numbers: &Numbers,
    reply: Onward,
) -> Result<(), AllocError>
    ensures { OnOk result (string_bytes text.new ≡ string_bytes text.old ++
        spec.onward_reason numbers.now reply) }
{
    let Numbers::AtHop {
        seq,
        newest,
        asks,
        holds,
        total,
        capacity,
    } = *numbers
    else {
        return Ok(());
    };
    match reply {
        Onward::Refuse(_) if seq == newest => write!(text, ": {seq} was refused here"),
        Onward::Refuse(_) => {
            let others = total.saturating_sub(holds);
            write!(
                text,
                ": asks {asks}, holds {holds}, others hold {others} of {capacity}"
            )
        }
        Onward::Drop(DropCause::Stale) => push_newest(text, newest),
        Onward::Pass | Onward::Drop(_) => Ok(()),
    }
}

fn push_newest(text: &mut String, newest: u32) -> Result<(), AllocError>
    ensures { OnOk result (string_bytes text.new ≡ string_bytes text.old ++ spec.newest_text newest) }
{
    write!(text, ": {newest} is the newest here")
}

pub(crate) fn push_back(text: &mut String, numbers: &Numbers, reply: Back) -> Result<(), AllocError>
    ensures { OnOk result (string_bytes text.new ≡ string_bytes text.old ++
        spec.back_reason numbers.now reply) }
{
    match (*numbers, reply) {
        (Numbers::Newest { newest }, Back::Drop(DropCause::Stale)) => push_newest(text, newest),
        _ => Ok(()),
    }
}

pub(crate) fn push_heard(
    text: &mut String,
    numbers: &Numbers,
    heard: Heard,
) -> Result<(), AllocError>
    ensures { OnOk result (string_bytes text.new ≡ string_bytes text.old ++
        spec.heard_reason numbers.now heard) }
{
    match (*numbers, heard) {
        (Numbers::Waits { awaited: Some(seq) }, Heard::Ignored) => write!(
            text,
            ": waits for {seq}"
        ),
        (Numbers::Waits { awaited: None }, Heard::Ignored) => text.push_str(": waits for none"),
        _ => Ok(()),
    }
}

// The moment from which the next cell may leave.
pub(crate) fn push_next(
    alloc: Global,
    text: &mut String,
    words: &str,
    next: u64,
) -> Result<(), AllocError>
    ensures { OnOk result (string_bytes text.new ≡ string_bytes text.old ++ spec.next_text words.now next) }
{
    let next = seconds_text(alloc, next)?;
    write!(text, "{words}{next} s")
}

pub(crate) fn push_shape(
    alloc: Global,
    text: &mut String,
    fault: ShapeFault,
) -> Result<(), AllocError>
    ensures { OnOk result (string_bytes text.new ≡ string_bytes text.old ++ spec.shape_reason fault) }
{
    match fault {
        ShapeFault::TooSoon { next } => push_next(alloc, text, ": not before ", next),
        _ => text.push_str(shape_words(fault)),
    }
}

// Why no cell left, if no moment tells it.
fn shape_words(fault: ShapeFault) -> &'static str
    ensures { result.now ≡ spec.shape_words fault }
{
    match fault {
        ShapeFault::Zero => ": the rate is 0",
        ShapeFault::TimeRange => ": no cell leaves after 2305843.009213693952 s",
        ShapeFault::ClockBack | ShapeFault::TooSoon { .. } => "",
    }
}

// Why a source didn't start.
pub(crate) fn start_reason(fault: StartFault) -> &'static str
    ensures { result.now ≡ spec.start_reason fault }
{
    match fault {
        StartFault::Keep => ": the store failed",
        StartFault::TimeRange => ": no source starts after 2305842.009213693952 s",
    }
}

// Why a source didn't ask.
pub(crate) fn ask_reason(fault: AskFault) -> &'static str
    ensures { result.now ≡ spec.ask_reason fault }
{
    match fault {
        AskFault::SeqExhausted => ": 4294967295 was the last number",
        AskFault::Keep => ": the store failed",
    }
}

pub(crate) fn push_capacity(
    text: &mut String,
    numbers: &Numbers,
    fault: CapacityFault,
) -> Result<(), AllocError>
    ensures { OnOk result (string_bytes text.new ≡ string_bytes text.old ++
        spec.capacity_reason numbers.now fault) }
{
    match (*numbers, fault) {
        (Numbers::Reserved { total }, CapacityFault::BelowSum) => write!(
            text,
            ": {total} are held there"
        ),
        (_, CapacityFault::AboveLimit) => text.push_str(": the limit is 1152921504606846976"),
        _ => Ok(()),
    }
}
