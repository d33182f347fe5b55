//! The text of `abt rate`.
ghost use Rattle.std.specs.Prelude.{◌≡◌, ◌⊎◌, Ok, Err, IfOk, IfErr, string_bytes};
ghost use Rattle.std.specs.Option.{option_map};
ghost use Rattle.abt_perform.specs.RateText.{rate_line, rate_text};
ghost use Rattle.abt_perform.specs.declared.fault.Fault.TheVariants.{Memory};

use crate::fault::Fault;
use abt_format::rate_of;
use abt_rate::Rate;
use abt_text::HexCode;
use std::alloc::{AllocError, Global};

/// What a rate code means: its canonical form, its units of 1/512 cell/s and its spacing in picoseconds.
pub fn rate_text(alloc: Global, code: &str) -> Result<String, Fault>
    ensures ok { IfOk result (λ text. rate_text code.now ≡ Ok (string_bytes text)) }
    ensures err { IfErr result (λ fault. (fault ≡ Memory) ⊎ (rate_text code.now ≡ Err fault)) }
{
    match rate_of(code) {
        Some(rate) => Ok(rate_line(alloc, rate)?),
        None => Err(Fault::Code),
    }
}

/// The line of `abt rate`: the canonical form of a rate's code, its units of 1/512 cell/s and its spacing in picoseconds.
pub fn rate_line(alloc: Global, rate: Rate) -> Result<String, AllocError>
    ensures { IfOk result (λ line. string_bytes line ≡ rate_line rate) }
{
    let code = HexCode(rate.code());
    let units = rate.units();
    match rate.spacing() {
        Some(spacing) => format!(in alloc; "{code} units {units} spacing {spacing}\n"),
        None => format!(in alloc; "{code} units {units} spacing none\n"),
    }
}
