//! What is proved of all ways of weaving.
ghost use Rattle.std.specs.Prelude.{List, All};
ghost use Rattle.abt_model.specs.declared.event.Event.{Event};
ghost use Rattle.abt_model.specs.Events.{AsksRate};
ghost use Rattle.abt_net.specs.Topology.{Topology, IsWithinRules};
ghost use Rattle.abt_weave.specs.Stuck.{RunJournals};
ghost use Rattle.abt_weave.specs.OneFault.{AreJournalsOf, HaveOneEnd, HaveOneFault};
ghost use Rattle.abt_weave.specs.OneLaw.{AreBegun, PortsReplyAgain, SourcesAnswerAgain};

/// Whether an event happens, and what comes of it, depends on the earlier entries of its own port and source alone, and on what was
/// sent, which only grows: if more events have happened elsewhere, it happens too, as it did, at a last hop maybe after a Turn.
///
/// This is a law and does nothing.
pub fn own_entries_decide_what_happens()
    ensures ports { (net : Topology) (less more : List Event) → IsWithinRules net → All AsksRate less →
        All AsksRate more →
        AreBegun net less more → PortsReplyAgain net less more }
    ensures sources { (net : Topology) (less more : List Event) → IsWithinRules net → All AsksRate less →
        All AsksRate more →
        AreBegun net less more → SourcesAnswerAgain net less more }
{}

/// In whatever order events are placed, the places end at the same entries, and what can be said of these is one fault.
///
/// This is a law and does nothing.
pub fn journals_have_one_fault()
    ensures ends { (net : Topology) (journals : RunJournals) → IsWithinRules net →
        AreJournalsOf net journals → HaveOneEnd net journals }
    ensures fault { (net : Topology) (journals : RunJournals) → IsWithinRules net →
        AreJournalsOf net journals → HaveOneFault net journals }
{}
