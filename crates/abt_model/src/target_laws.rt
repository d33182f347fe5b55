//! An event and where it happens say the same.
ghost use Rattle.std.specs.Prelude.{◌≡◌};
ghost use Rattle.abt_model.specs.declared.event.Event.{Event};
ghost use Rattle.abt_model.specs.declared.target.Target.{Target};
ghost use Rattle.abt_model.specs.Targets.{target_of, event_at};

/// Each event has one target, and each target one event.
///
/// This is a law and does nothing.
pub fn each_event_has_one_target()
    ensures event { (event : Event) → event_at (target_of event) ≡ event }
    ensures target { (target : Target) → target_of (event_at target) ≡ target }
{}
