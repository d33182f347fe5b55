//! What stays held.
ghost use Rattle.abt_model.specs.Promises.{EveryPast};
ghost use Rattle.abt_laws.specs.Holds.{NothingOlderIsHeld, HoldsStay, RequestsSetHolds, NoesLeaveFloors};

/// What a hop holds for a connection, which can be more than the source shapes at: the newest request that the hop decided sets it, and only
/// a later request or a no to that one changes it (docs/RULES.md, "What stays held").
///
/// This is a law and does nothing.
pub fn holds_stay_until_a_request_or_a_no()
    ensures newest { EveryPast NothingOlderIsHeld }
    ensures same { EveryPast HoldsStay }
    ensures request { EveryPast RequestsSetHolds }
    ensures no { EveryPast NoesLeaveFloors }
{}
