//! What is proved of every list of events, over every net within the rules.
ghost use Rattle.abt_model.specs.Promises.{EveryPast, NeverDisputes, OneAnswerEach, RatesWait};
ghost use Rattle.abt_model.specs.Promises.{YesStandsEverywhere, ArrivalsConform, NextIsDue};
ghost use Rattle.abt_model.specs.Promises.{CellsAreApart, ArrivalsInRange, StoreCovers};
ghost use Rattle.abt_model.specs.Safe.{IsSafe};

/// Rates never run ahead of what is reserved, reservations fit the links, and the cells that arrive conform
/// (docs/GUARANTEES.md, "The headline").
///
/// This is a law and does nothing: callers take from it what its clause says.
pub fn every_past_is_safe()
    ensures safe { EveryPast IsSafe }
{}

/// Sources and ports agree on every message: it may come too late to matter, but it never contradicts what was decided.
///
/// This is a law and does nothing.
pub fn messages_agree()
    ensures drops { EveryPast NeverDisputes }
    ensures answers { EveryPast OneAnswerEach }
{}

/// A source lowers its rate when it asks and raises it only on a yes that all hops stand by.
///
/// This is a law and does nothing.
pub fn rates_wait_for_answers()
    ensures floors { EveryPast RatesWait }
    ensures yes { EveryPast YesStandsEverywhere }
{}

/// No cell that a shaper emitted and its access line delivers in time and in order is found too early, or without a rate.
///
/// This is a law and does nothing.
pub fn arrivals_conform()
    ensures verdicts { EveryPast ArrivalsConform }
    ensures due { EveryPast NextIsDue }
    ensures in_range { EveryPast ArrivalsInRange }
    ensures apart { EveryPast CellsAreApart }
{}

/// What a source's store keeps is at least the gap that is running, the spacing of its rate and that of an open request, at
/// every moment. So no gap of before a crash is cut short by a start (docs/GUARANTEES.md, "The headline").
///
/// This is a law and does nothing.
pub fn stores_cover_sources()
    ensures spacing { EveryPast StoreCovers }
{}
