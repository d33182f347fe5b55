//! What was sent can be served.
ghost use Rattle.std.specs.Prelude.{List, All, ◌++◌, ◌<◌, ℕ, length};
ghost use Rattle.abt_cell.specs.declared.message.Rm.{Rm};
ghost use Rattle.abt_journal.specs.declared.input.PortInput.TheVariants.{Capacity};
ghost use Rattle.abt_model.specs.declared.event.Event.{Event};
ghost use Rattle.abt_model.specs.Events.{AsksRate};
ghost use Rattle.abt_model.specs.Promises.{EveryPast};
ghost use Rattle.abt_net.specs.Topology.{Topology, IsWithinRules};
ghost use Rattle.abt_weave.specs.Projections.{past_of};
ghost use Rattle.abt_serving.specs.Arriving.{EmissionsArrive};
ghost use Rattle.abt_serving.specs.Followed.{RepliesLead};
ghost use Rattle.abt_serving.specs.Messages.{Lies, ComesNow, input_of};

/// A message that was sent to a port can be served there now, and the port's table replies to it; and it still can once more events
/// have happened.
///
/// This is a law and does nothing.
pub fn sent_messages_come()
    ensures comes { (net : Topology) (earlier : List Event) (port : ℕ) (message : Rm) → IsWithinRules net →
        All AsksRate earlier → Lies net (past_of net earlier) port message →
        ComesNow net earlier port (input_of message) }
    ensures stays { (net : Topology) (more earlier : List Event) (port : ℕ) (message : Rm) →
        All AsksRate (more ++ earlier) → Lies net (past_of net earlier) port message →
        Lies net (past_of net (more ++ earlier)) port message }
{}

/// A capacity that an operator sets comes to its port at any time.
///
/// This is a law and does nothing.
pub fn capacities_come()
    ensures { (net : Topology) (earlier : List Event) (port capacity : ℕ) → IsWithinRules net →
        All AsksRate earlier → port < length net.capacities → ComesNow net earlier port (Capacity capacity) }
{}

/// What follows a port's reply to a message lies then at the port or the source that it is for.
///
/// This is a law and does nothing.
pub fn replies_lead_on()
    ensures { (net : Topology) (earlier : List Event) → IsWithinRules net → All AsksRate earlier →
        RepliesLead net earlier }
{}

/// A cell that has just left can arrive, at the moment that its access worker says.
///
/// This is a law and does nothing.
pub fn cells_arrive_at_once()
    ensures { EveryPast EmissionsArrive }
{}
