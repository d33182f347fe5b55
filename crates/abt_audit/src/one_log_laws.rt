//! Laws of logs that are judged alone.
ghost use Rattle.abt_net.specs.Topology.{Topology, IsWithinRules};
ghost use Rattle.abt_weave.specs.Stuck.{RunJournals};
ghost use Rattle.abt_audit.specs.Obeyed.{WovenPortsObey, WovenSourcesObey};

/// If journals are woven, each log of a port and of a source obeys by itself, a source's also without what was put in to complete it. So
/// no log is refused alone that an audit of all shows.
///
/// This is a law and does nothing.
pub fn woven_logs_obey()
    ensures ports { (net : Topology) (journals : RunJournals) → IsWithinRules net →
        WovenPortsObey net journals }
    ensures sources { (net : Topology) (journals : RunJournals) → WovenSourcesObey net journals }
{}
