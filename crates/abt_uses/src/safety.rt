//! What looks for violations finds none at a port.
ghost use Rattle.std.specs.Prelude.{◌≡◌, false};

use abt_node::Port;
use abt_safety::is_above;

/// Whether a port holds more than its capacity. It never does.
pub fn is_overbooked(port: &Port) -> bool
    ensures { result ≡ false }
{
    let _ = port.total();
    is_above(port)
}
