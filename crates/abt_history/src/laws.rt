//! What is proved of all histories.
ghost use Rattle.std.specs.Prelude.{List, All, reverse};
ghost use Rattle.abt_net.specs.Topology.{Topology};
ghost use Rattle.abt_journal.specs.declared.entry.Entry.{Entry};
ghost use Rattle.abt_model.specs.Events.{AsksRate};
ghost use Rattle.abt_model.specs.declared.journal.SourceJournal.{SourceJournal};
ghost use Rattle.abt_weave.specs.Woven.{IsWoven};
ghost use Rattle.abt_history.specs.declared.deed.Deed.{Deed};
ghost use Rattle.abt_history.specs.Ended.{AreEnded};
ghost use Rattle.abt_history.specs.Histories.{happened};
ghost use Rattle.abt_history.specs.Legal.{IsLegal};

/// If each port and each source has ended, the events of the history are woven from their journals.
///
/// This is a law and does nothing.
pub fn ended_histories_are_woven()
    ensures woven { (net : Topology) (journals : List (List Entry)) (sources : List SourceJournal)
        (log : List Deed) → IsLegal net log → AreEnded net journals sources log →
        IsWoven net journals sources (reverse (happened log)) }
    ensures rates { (net : Topology) (log : List Deed) → IsLegal net log →
        All AsksRate (reverse (happened log)) }
{}
