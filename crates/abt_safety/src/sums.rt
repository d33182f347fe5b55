//! The rates that ports hold in all.
ghost use Rattle.std.specs.Prelude.{◌≡◌, ◌+◌, ◌≤◌, if◌then◌else◌, is_some, min, nat_le};
ghost use Rattle.abt_safety.specs.Tallies.{is_above, over_at};

use abt_index::Lookups;
use abt_node::Port;

/// Whether a sum is at most a capacity, both in units of 1/512 cell/s.
pub fn fits(total: u64, capacity: u64) -> bool
    ensures { result ≡ nat_le total capacity }
{
    total <= capacity
}

/// Whether the sum of a port is above the capacity that it has then.
pub fn is_above(port: &Port) -> bool
    ensures { result ≡ is_above port.now }
{
    !fits(port.total(), port.capacity())
}

/// Whether the sum of the port of a number is above the capacity that it has then; no, if there is no port.
pub fn is_over(port: Option<u16>, ports: &[Port], looks: &mut Lookups) -> bool
    ensures value { result ≡ over_at port ports.now }
    ensures looks { looks.new ≤ looks.old + 1 }
    ensures counted { looks.new ≡ (if is_some port then min (looks.old + 1) u64.MAX else looks.old) }
{
    let Some(port) = port else {
        return false;
    };
    let place = usize::from(looks.counting(port));
    let Some(port) = ports.get(place) else {
        return false;
    };
    is_above(port)
}
