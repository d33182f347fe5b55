//! Rates and cells as JSON.
ghost use Rattle.std.specs.Prelude.{◌≡◌, ◌⊎◌, Ok, Err, IfOk, IfErr};
ghost use Rattle.abt_json.specs.Objects as objects;
ghost use Rattle.abt_perform.specs.declared.fault.Fault.TheVariants as fault;

use abt_json::rate_json;
use abt_perform::Fault;
use std::alloc::Global;

/// The object of a rate code, on a line of its own.
pub fn rate_object(alloc: Global, code: &str) -> Result<Vec<u8>, Fault>
    ensures ok { IfOk result (λ line. objects.rate_json code.now ≡ Ok line.items) }
    ensures err { IfErr result (λ why. (why ≡ fault.Memory) ⊎ (objects.rate_json code.now ≡ Err why)) }
{
    let line = rate_json(alloc, code)?;
    Ok(line)
}
