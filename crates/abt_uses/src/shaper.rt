//! Cells, sent as soon as a shaper lets them.
ghost use Rattle.std.specs.Prelude.{◌≡◌, ◌≢◌, ◌+◌, ◌≤◌, ◌↔◌, IfOk, IsOk};
ghost use Rattle.abt_rate.specs.Limits.{emit_max};
ghost use Rattle.abt_rate.specs.Rate.{spacing_of};

use abt_rate::Rate;
use abt_shaper::{ShapeFault, Shaper};

/// When the second of two cells leaves at a rate, if the first one leaves at a moment and the second as soon as it may.
pub fn second_leaves(first: u64, rate: Rate) -> Result<u64, ShapeFault>
    requires { first ≤ emit_max }
    ensures value { IfOk result (λ second. second ≡ first + spacing_of rate) }
    ensures ok { IsOk result ↔ ((rate ≢ 0) × (first + spacing_of rate ≤ emit_max)) }
{
    let mut shaper = Shaper::new(first);
    let second = shaper.emit(first, rate)?;
    shaper.emit(second, rate)?;
    Ok(second)
}
