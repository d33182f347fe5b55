//! A list of events is one event after another.
ghost use Rattle.std.specs.Prelude.{◌≡◌, List, [], ◌∷◌, ◌++◌};
ghost use Rattle.abt_net.specs.Topology.{Topology};
ghost use Rattle.abt_model.specs.Outcomes.{outcome_of, after_event};
ghost use Rattle.abt_model.specs.Run.{facts_after, outcomes_of};
ghost use Rattle.abt_model.specs.declared.event.Event.{Event};

/// The outcome of one more event, and what it leaves behind, by the past of those before it.
///
/// This is a law and does nothing.
pub fn append_event()
    ensures facts { (net : Topology) (events : List Event) (event : Event) →
        facts_after net (events ++ event ∷ []) ≡ after_event net (facts_after net events) event }
    ensures outcomes { (net : Topology) (events : List Event) (event : Event) →
        outcomes_of net (events ++ event ∷ [])
        ≡ outcomes_of net events ++ outcome_of net (facts_after net events) event ∷ [] }
{}
