//! The state of a net as members of an object.
ghost use Rattle.std.specs.Prelude.{OnOk, ◌∷◌, ◌++◌, []};
ghost use Rattle.json.specs.Token.{begin_array, end_array};
ghost use Rattle.abt_entry.specs.ObjectMembers.{Adds};
ghost use Rattle.abt_json.specs.Objects.{rate_strings};
ghost use Rattle.abt_step.specs.StateMembers as spec;

use crate::net_state::NetState;
use abt_json::push_codes;
use abt_model::Sequence;
use abt_rate::Rate;
use json::Writer;
use std::alloc::{AllocError, Global};

// Adds the members of a state.
pub(crate) fn push_state_members(
    alloc: Global,
    object: &mut Writer,
    state: &NetState,
) -> Result<(), AllocError>
    ensures { OnOk result (Adds (spec.state_members state.now) object.old object.new) }
{
    push_rate_array(alloc, object, "rates", state.rates.as_slice())?;
    push_path_array(alloc, object, "held", state.held.as_slice())?;
    push_array(object, "totals", state.totals.as_slice())?;
    push_array(object, "capacities", state.capacities.as_slice())
}

// Adds a member that is an array of the codes of rates.
fn push_rate_array(
    alloc: Global,
    object: &mut Writer,
    name: &str,
    rates: &[Rate],
) -> Result<(), AllocError>
    ensures { OnOk result
        (Adds (spec.array_member name.now (rate_strings rates.now)) object.old object.new) }
{
    object.key(name)?;
    push_code_array(alloc, object, rates)
}

// Adds a member that is an array of such arrays, one for each path.
fn push_path_array(
    alloc: Global,
    object: &mut Writer,
    name: &str,
    held: &[Sequence<Rate>],
) -> Result<(), AllocError>
    ensures { OnOk result
        (Adds (spec.array_member name.now (spec.path_arrays held.now)) object.old object.new) }
{
    object.key(name)?;
    object.begin_array()?;
    push_paths(alloc, object, held)?;
    object.end_array()
}

// Adds an array of the codes of rates.
fn push_code_array(alloc: Global, object: &mut Writer, rates: &[Rate]) -> Result<(), AllocError>
    ensures { OnOk result
        (Adds (begin_array ∷ (rate_strings rates.now ++ end_array ∷ [])) object.old object.new) }
{
    object.begin_array()?;
    push_codes(alloc, object, rates)?;
    object.end_array()
}

// Adds such an array for each path.
fn push_paths(alloc: Global, object: &mut Writer, held: &[Sequence<Rate>]) -> Result<(), AllocError>
    ensures { OnOk result (Adds (spec.path_arrays held.now) object.old object.new) }
{
    for along in held {
        push_code_array(alloc, object, along.as_slice())?;
    }
    Ok(())
}

// Adds a member that is an array of numbers.
fn push_array(object: &mut Writer, name: &str, numbers: &[u64]) -> Result<(), AllocError>
    ensures { OnOk result
        (Adds (spec.array_member name.now (spec.number_tokens numbers.now)) object.old object.new) }
{
    object.key(name)?;
    object.begin_array()?;
    push_numbers(object, numbers)?;
    object.end_array()
}

fn push_numbers(object: &mut Writer, numbers: &[u64]) -> Result<(), AllocError>
    ensures { OnOk result (Adds (spec.number_tokens numbers.now) object.old object.new) }
{
    for number in numbers {
        object.u64(*number)?;
    }
    Ok(())
}
