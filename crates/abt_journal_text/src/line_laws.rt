//! What is proved of every text that is written, whoever reads it.
ghost use Rattle.std.specs.Prelude.{List};
ghost use Rattle.abt_net.specs.Topology.{Topology};
ghost use Rattle.abt_journal.specs.declared.entry.Entry.{Entry};
ghost use Rattle.abt_model.specs.declared.journal.SourceJournal.{SourceJournal};
ghost use Rattle.abt_journal_text.specs.RoundTrip.{HasRoundTrip};

/// The text of a net and its journals is read as just these, if lines can say them and none of its lines is too long.
///
/// This is a law and does nothing: callers take from it what its clause says.
pub fn what_is_written_is_read()
    ensures read { (net : Topology) (ports : List (List Entry)) (sources : List SourceJournal) →
        HasRoundTrip net ports sources }
{}
