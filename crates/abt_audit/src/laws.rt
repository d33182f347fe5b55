//! Laws of mismatches, and of open writes.
ghost use Rattle.std.specs.Prelude.{List};
ghost use Rattle.abt_journal.specs.declared.entry.Entry.{Entry};
ghost use Rattle.abt_journal_text.specs.declared.open_write.OpenWrite.{OpenWrite};
ghost use Rattle.abt_model.specs.declared.journal.SourceJournal.{SourceJournal};
ghost use Rattle.abt_net.specs.Topology.{Topology, IsWithinRules};
ghost use Rattle.abt_weave.specs.Stuck.{RunJournals};
ghost use Rattle.abt_audit.specs.Contradicted.{PortsAreContradicted, SourcesAreContradicted};
ghost use Rattle.abt_audit.specs.Ways.{EachWayIsTried, EachCompletionIsTried};

/// If the entry of a port or of a source is named as a mismatch, what is told as the protocol's answer isn't the one that the entry has.
///
/// This is a law and does nothing.
pub fn mismatches_are_contradicted()
    ensures ports { (net : Topology) (journals : RunJournals) → IsWithinRules net →
        PortsAreContradicted net journals }
    ensures sources { (net : Topology) (journals : RunJournals) → SourcesAreContradicted net journals }
{}

/// If a source has few open writes, and not all entries of its settled journal have the outcomes that the source
/// gives, no list of events is woven from the journals in whatever way they are settled, and completed.
///
/// This is a law and does nothing.
pub fn each_way_is_tried()
    ensures settled { (net : Topology) (writes : List OpenWrite) (ports : List (List Entry))
        (sources settled : List SourceJournal) → EachWayIsTried net writes ports sources settled }
    ensures completed { (net : Topology) (writes : List OpenWrite) (ports : List (List Entry))
        (sources settled : List SourceJournal) → EachCompletionIsTried net writes ports sources settled }
{}
