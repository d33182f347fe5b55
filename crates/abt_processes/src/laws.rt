//! What is proved of all runs of live processes.
ghost use Rattle.std.specs.Prelude.{List};
ghost use Rattle.abt_model.specs.declared.event.Event.{Event};
ghost use Rattle.abt_net.specs.Topology.{Topology, IsWithinRules};
ghost use Rattle.abt_weave.specs.Projections.{past_of};
ghost use Rattle.abt_world.specs.Headline.{HeadlineHolds};
ghost use Rattle.abt_processes.specs.Events.{AreEventsOf};
ghost use Rattle.abt_processes.specs.Lists.{IsIn};
ghost use Rattle.abt_processes.specs.Processes.{Processes};
ghost use Rattle.abt_processes.specs.Runs.{IsRun};
ghost use Rattle.abt_processes.specs.Safe.{AreSafe};

/// After each move of a run of live processes there is a list of events that is just what they did: each port has the table that these
/// leave it, and its journal their steps; each source is the one that did what its journal says. The headline holds of them.
///
/// This is a law and does nothing.
pub fn runs_are_events()
    ensures { (net : Topology) (states : List Processes) (processes : Processes) → IsWithinRules net →
        IsRun net states → IsIn processes states →
        (earlier : List Event) × AreEventsOf net earlier processes × HeadlineHolds net (past_of net earlier) }
{}

/// After each move of a run of live processes no source that is up shapes at a rate above what each port of its path holds for it, no
/// port holds more than its capacity, and each cell that came was found conforming.
///
/// This is a law and does nothing.
pub fn processes_are_safe()
    ensures { (net : Topology) (states : List Processes) (processes : Processes) → IsWithinRules net →
        IsRun net states → IsIn processes states → AreSafe net processes }
{}
