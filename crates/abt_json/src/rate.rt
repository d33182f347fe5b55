//! The object of `abt rate --json`.
ghost use Rattle.std.specs.Prelude.{◌≡◌, ◌⊎◌, ◌++◌, Ok, IfOk, IfErr, OnOk, Err};
ghost use Rattle.abt_perform.specs.declared.fault.Fault.TheVariants.{Memory};
ghost use Rattle.abt_json.specs.Objects.{rate_json, rate_members, rate_object, spacing_member};
ghost use Rattle.abt_entry.specs.ObjectMembers.{Adds};

use crate::object::begin_kind_behind;
use abt_entry::{end, push_number, push_rate};
use abt_format::rate_of;
use abt_perform::Fault;
use abt_rate::Rate;
use json::Writer;
use std::alloc::{AllocError, Global};

/// What a rate code means, as an object on a line: its canonical form, its units of 1/512 cell/s and its spacing in picoseconds.
pub fn rate_json(alloc: Global, code: &str) -> Result<Vec<u8>, Fault>
    ensures ok { IfOk result (λ text. rate_json code.now ≡ Ok text.items) }
    ensures err { IfErr result (λ fault. (fault ≡ Memory) ⊎ (rate_json code.now ≡ Err fault)) }
{
    match rate_of(code) {
        Some(rate) => Ok(rate_object(alloc, rate)?),
        None => Err(Fault::Code),
    }
}

fn rate_object(alloc: Global, rate: Rate) -> Result<Vec<u8>, AllocError>
    ensures { IfOk result (λ text. text.items ≡ rate_object rate) }
{
    let mut text = Vec::new(alloc);
    let mut object = begin_kind_behind(alloc, &mut text, "rate")?;
    push_rate_members(alloc, &mut object, rate)?;
    end(object, &mut text)?;
    Ok(text)
}

/// Adds the code of a rate, its units of 1/512 cell/s, and its spacing in picoseconds, which is null for the rate 0.
///
/// # Errors
/// If memory is refused.
pub fn push_rate_members(alloc: Global, object: &mut Writer, rate: Rate) -> Result<(), AllocError>
    ensures { OnOk result (Adds (rate_members rate) object.old object.new) }
{
    push_rate(alloc, object, "code", rate)?;
    push_number(object, "units", rate.units())?;
    push_spacing(object, rate)
}

fn push_spacing(object: &mut Writer, rate: Rate) -> Result<(), AllocError>
    ensures { OnOk result (Adds (spacing_member rate) object.old object.new) }
{
    object.key("spacing")?;
    match rate.spacing() {
        Some(spacing) => object.u64(spacing),
        None => object.null(),
    }
}
