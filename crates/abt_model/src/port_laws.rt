//! The tables of ports follow the facts.
ghost use Rattle.abt_model.specs.Promises.{EveryPast};
ghost use Rattle.abt_model.specs.PortTable.{TotalsAreReserved, TablesHaveRows, TablesStay};
ghost use Rattle.abt_model.specs.PortTable.{RequestsServed, AnswersServed, ArrivalsServed, CapacitiesServed};

/// The table that the facts give a port has each connection through it, and its total is what is reserved on the port.
///
/// This is a law and does nothing.
pub fn tables_stand_for_facts()
    ensures rows { EveryPast TablesHaveRows }
    ensures totals { EveryPast TotalsAreReserved }
{}

/// A port that has the table of the facts serves what comes to it as the event's outcome says, and has the table of the
/// facts then. Other events leave it.
///
/// This is a law and does nothing.
pub fn tables_follow_facts()
    ensures requests { EveryPast RequestsServed }
    ensures answers { EveryPast AnswersServed }
    ensures arrivals { EveryPast ArrivalsServed }
    ensures capacities { EveryPast CapacitiesServed }
    ensures same { EveryPast TablesStay }
{}
