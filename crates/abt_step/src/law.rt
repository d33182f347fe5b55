//! The answers of a net to lines, and what can happen next.
ghost use Rattle.std.specs.Prelude.{List, All};
ghost use Rattle.abt_model.specs.Events.{AsksRate};
ghost use Rattle.abt_model.specs.Run.{facts_after};
ghost use Rattle.abt_model.specs.declared.event.Event.{Event};
ghost use Rattle.abt_net.specs.Topology.{IsWithinRules, Topology};
ghost use Rattle.abt_step.specs.Possible.{CellsArePossible, MessagesArePossible};
ghost use Rattle.abt_step.specs.Steps.{AnswersLines};

/// Whatever steps a net takes over lines, what it says is what its net answers to the events that they say, each after those before it, and
/// it then stands at these.
pub fn a_net_is_stepped()
    ensures { AnswersLines }
{}

/// After any events of a net, what is told as possible is enabled: the events that take messages on, and the arrivals of cells within their
/// windows. Each message that was sent is told, and each arrival that is enabled is within a window.
pub fn what_is_possible()
    ensures messages { (net : Topology) → IsWithinRules net → (events : List Event) → All AsksRate events →
        MessagesArePossible net (facts_after net events) }
    ensures cells { (net : Topology) → IsWithinRules net → (events : List Event) → All AsksRate events →
        CellsArePossible net (facts_after net events) }
{}
