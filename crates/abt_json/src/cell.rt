//! The object of `abt cell --json`.
ghost use Rattle.std.specs.Prelude.{◌≡◌, ◌⊎◌, ◌++◌, Ok, Err, IfOk, IfErr, OnOk};
ghost use Rattle.abt_cell.specs.Message.{Terms};
ghost use Rattle.abt_perform.specs.declared.fault.Fault.TheVariants.{Memory};
ghost use Rattle.abt_entry.specs.ObjectMembers.{Adds};
ghost use Rattle.abt_json.specs.Objects.{cell_json, cell_object, message_members, message_name, channel_members, terms_members, rates_members, request_members};

use crate::object::begin_kind_behind;
use abt_cell::{Request, Rm, Vc};
use abt_entry::{end, push_number, push_rate, push_text};
use abt_perform::{Fault, message_of};
use abt_rate::Rate;
use json::Writer;
use std::alloc::{AllocError, Global};

/// What the RM cell says that a text spells, as an object on a line.
pub fn cell_json(alloc: Global, hex: &str) -> Result<Vec<u8>, Fault>
    ensures ok { IfOk result (λ text. cell_json hex.now ≡ Ok text.items) }
    ensures err { IfErr result (λ fault. (fault ≡ Memory) ⊎ (cell_json hex.now ≡ Err fault)) }
{
    let rm = message_of(alloc, hex.as_bytes())?;
    Ok(cell_object(alloc, &rm)?)
}

fn cell_object(alloc: Global, rm: &Rm) -> Result<Vec<u8>, AllocError>
    ensures { IfOk result (λ text. text.items ≡ cell_object rm.now) }
{
    let mut text = Vec::new(alloc);
    let mut object = begin_kind_behind(alloc, &mut text, "message")?;
    push_message(alloc, &mut object, rm)?;
    end(object, &mut text)?;
    Ok(text)
}

/// Adds which message a request or an answer is, its channel, its number, its floor and its asked rate.
///
/// # Errors
/// If memory is refused.
pub fn push_message(alloc: Global, object: &mut Writer, rm: &Rm) -> Result<(), AllocError>
    ensures { OnOk result (Adds (message_members rm.now) object.old object.new) }
{
    push_text(object, "message", message_name(rm))?;
    push_terms(alloc, object, &rm.request())
}

// Adds a request with its channel.
fn push_terms(alloc: Global, object: &mut Writer, request: &Request) -> Result<(), AllocError>
    ensures { OnOk result (Adds (terms_members request.now) object.old object.new) }
{
    push_channel(object, request.vc())?;
    push_request(alloc, object, request)
}

fn push_channel(object: &mut Writer, vc: Vc) -> Result<(), AllocError>
    ensures { OnOk result (Adds (channel_members vc) object.old object.new) }
{
    push_number(object, "vpi", u64::from(vc.vpi()))?;
    push_number(object, "vci", u64::from(vc.vci()))
}

fn message_name(rm: &Rm) -> &'static str
    ensures { result.now ≡ message_name rm.now }
{
    match rm {
        Rm::Request(_) => "request",
        Rm::Answer(answer) if answer.granted() => "yes",
        Rm::Answer(_) => "no",
    }
}

/// Adds the number of a request, its floor and its asked rate.
pub(crate) fn push_request(
    alloc: Global,
    object: &mut Writer,
    request: &Request,
) -> Result<(), AllocError>
    ensures { OnOk result (Adds (request_members request.now) object.old object.new) }
{
    push_number(object, "seq", u64::from(request.seq()))?;
    push_rates(alloc, object, request.floor(), request.ask())
}

fn push_rates(alloc: Global, object: &mut Writer, floor: Rate, ask: Rate) -> Result<(), AllocError>
    ensures { OnOk result (Adds (rates_members floor ask) object.old object.new) }
{
    push_rate(alloc, object, "floor", floor)?;
    push_rate(alloc, object, "ask", ask)
}
