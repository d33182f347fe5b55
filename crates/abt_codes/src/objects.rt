//! The objects of `abt code --json` and `abt write --json`.
ghost use Rattle.std.specs.Prelude.{◌≡◌, ◌<◌, ◌⊎◌, None, Err, IfOk, IfErr, IsOkAnd, IsSomeAnd, OnOk, string_bytes};
ghost use Rattle.abt_entry.specs.ObjectMembers.{Adds};
ghost use Rattle.abt_text.specs.Text.{◌⋅◌};
ghost use Rattle.abt_codes.specs.CodeObjects.{AreCodeObjects, above_members, above_object, below_object, no_rate_members, null_member, written_object};
ghost use Rattle.abt_codes.specs.Message.{rm_in};
ghost use Rattle.abt_codes.specs.Quantity.{quantity_in};
ghost use Rattle.abt_codes.specs.declared.fault.CodesFault.TheVariants.{Memory};
ghost use Rattle.abt_codes.specs.declared.fault.CodesFault.TheVariants as fault;

use crate::fault::CodesFault;
use crate::message::{MessageWords, rm_in};
use crate::nearest::{above, below};
use crate::quantity::{Quantity, quantity_in};
use abt_cell::Rm;
use abt_entry::push_text;
use abt_json::{begin_kind, end_line, push_rate_members};
use abt_perform::message_hex;
use abt_rate::Rate;
use json::Writer;
use std::alloc::{AllocError, Global};

/// The codes nearest to the rate that a text says, an object each on a line: the greatest that isn't above it, and the least that isn't
/// below it, whose members are null if there is none.
pub fn code_objects(alloc: Global, word: &str) -> Result<String, CodesFault>
    ensures ok { IfOk result
        (λ text. IsSomeAnd (quantity_in word.now) (λ quantity. AreCodeObjects quantity (string_bytes text))) }
    ensures err { IfErr result
        (λ found. (found ≡ Memory) ⊎ ((found ≡ fault.Rate) × (quantity_in word.now ≡ None))) }
{
    match quantity_in(word) {
        Some(quantity) => Ok(nearest_objects(alloc, quantity)?),
        None => Err(CodesFault::Rate),
    }
}

// The two objects of a quantity.
fn nearest_objects(alloc: Global, quantity: Quantity) -> Result<String, AllocError>
    requires { 0 < quantity.under }
    ensures { IfOk result (λ text. AreCodeObjects quantity (string_bytes text)) }
{
    let mut text = String::new(alloc);
    push_below(alloc, &mut text, below(quantity))?;
    push_above(alloc, &mut text, above(quantity))?;
    Ok(text)
}

fn push_below(alloc: Global, text: &mut String, below: Rate) -> Result<(), AllocError>
    ensures { OnOk result (string_bytes text.new ≡ string_bytes text.old ⋅ below_object below) }
{
    let mut object = begin_kind(alloc, "below")?;
    push_rate_members(alloc, &mut object, below)?;
    end_line(object, text)
}

fn push_above(alloc: Global, text: &mut String, above: Option<Rate>) -> Result<(), AllocError>
    ensures { OnOk result (string_bytes text.new ≡ string_bytes text.old ⋅ above_object above) }
{
    let mut object = begin_kind(alloc, "above")?;
    push_above_members(alloc, &mut object, above)?;
    end_line(object, text)
}

fn push_above_members(
    alloc: Global,
    object: &mut Writer,
    above: Option<Rate>,
) -> Result<(), AllocError>
    ensures { OnOk result (Adds (above_members above) object.old object.new) }
{
    match above {
        Some(rate) => push_rate_members(alloc, object, rate),
        None => push_no_rate(object),
    }
}

fn push_no_rate(object: &mut Writer) -> Result<(), AllocError>
    ensures { OnOk result (Adds no_rate_members object.old object.new) }
{
    push_null(object, "code")?;
    push_null(object, "units")?;
    push_null(object, "spacing")
}

fn push_null(object: &mut Writer, name: &str) -> Result<(), AllocError>
    ensures { OnOk result (Adds (null_member name.now) object.old object.new) }
{
    object.key(name)?;
    object.null()
}

/// The cell that is written for the message that words say, as 104 hexadecimal digits in an object on a line.
pub fn written_object(alloc: Global, words: &MessageWords) -> Result<String, CodesFault>
    ensures ok { IfOk result
        (λ text. IsOkAnd (rm_in words.now) (λ rm. string_bytes text ≡ written_object rm)) }
    ensures err { IfErr result (λ fault. (fault ≡ Memory) ⊎ (rm_in words.now ≡ Err fault)) }
{
    let rm = rm_in(words)?;
    Ok(object_of_cell(alloc, &rm)?)
}

fn object_of_cell(alloc: Global, rm: &Rm) -> Result<String, AllocError>
    ensures { IfOk result (λ text. string_bytes text ≡ written_object rm.now) }
{
    let hex = message_hex(alloc, rm)?;
    let mut text = String::new(alloc);
    let mut object = begin_kind(alloc, "written")?;
    push_text(&mut object, "cell", hex.as_str())?;
    end_line(object, &mut text)?;
    Ok(text)
}
