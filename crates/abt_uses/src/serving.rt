//! What was sent can be served.
ghost use Rattle.std.specs.Prelude.{◌<◌, List, All, ℕ, length};
ghost use Rattle.abt_cell.specs.declared.message.Rm.{Rm};
ghost use Rattle.abt_journal.specs.declared.input.PortInput.TheVariants.{Capacity};
ghost use Rattle.abt_model.specs.declared.event.Event.{Event};
ghost use Rattle.abt_model.specs.Events.{AsksRate};
ghost use Rattle.abt_net.specs.Topology.{Topology, IsWithinRules};
ghost use Rattle.abt_weave.specs.Projections.{past_of};
ghost use Rattle.abt_serving.specs.Messages.{Lies, ComesNow, input_of};

use abt_serving::{capacities_come, sent_messages_come};

/// A message that was sent to a port comes there now, and so does a capacity that an operator sets.
pub fn is_served()
    ensures messages { (net : Topology) (earlier : List Event) (port : ℕ) (message : Rm) → IsWithinRules net →
        All AsksRate earlier → Lies net (past_of net earlier) port message →
        ComesNow net earlier port (input_of message) }
    ensures capacities { (net : Topology) (earlier : List Event) (port capacity : ℕ) → IsWithinRules net →
        All AsksRate earlier → port < length net.capacities → ComesNow net earlier port (Capacity capacity) }
{
    sent_messages_come();
    capacities_come();
}
