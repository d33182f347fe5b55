//! What the link behind a port makes of a capacity.
ghost use Rattle.std.specs.Prelude.{◌≡◌};
ghost use Rattle.abt_model.specs.Answers.{capped};
ghost use Rattle.abt_node.specs.Table.{capacity_set, table_after_capacity};

use abt_model::Outcome;
use abt_node::Port;

// A port is to have a capacity.
pub(crate) fn set_capacity(port: &mut Port, capacity: u64) -> Outcome
    ensures outcome { result ≡ capped (capacity_set port.old capacity) }
    ensures table { port.new ≡ table_after_capacity port.old capacity }
{
    match port.set_capacity(capacity) {
        Ok(()) => Outcome::CapacitySet,
        Err(fault) => Outcome::CapacityRefused(fault),
    }
}
