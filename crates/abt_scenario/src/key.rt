//! The keys of a scenario.
ghost use Rattle.std.specs.Prelude.{◌≡◌, Some};
ghost use Rattle.abt_scenario.specs.Keys.{key_name};

use std::fmt;

/// The keys of a scenario's text, in the order in which they are looked for (docs/FORMATS.md, "Scenario"). A key shows
/// itself as it is written there.
#[derive(Clone, Copy, Debug, PartialEq, Eq)]
pub enum Key {
    /// The capacities of the ports.
    Ports,
    /// The connections.
    Connection,
    /// The virtual path identifier of a connection.
    Vpi,
    /// Its virtual channel identifier.
    Vci,
    /// The ports that it visits.
    Path,
    /// How long a cell travels on its access line.
    Delay,
    /// By how much a cell may come too early.
    Tau,
    /// The script of its source.
    Script,
    /// The events in the net.
    Events,
    /// The operations of its operator.
    Operator,
}

impl Key {
    /// The key as it is written.
    pub fn name(self) -> &'static str
        ensures { result.now ≡ key_name self }
    {
        match self {
            Key::Ports => "ports",
            Key::Connection => "connection",
            Key::Vpi => "vpi",
            Key::Vci => "vci",
            Key::Path => "path",
            Key::Delay => "delay",
            Key::Tau => "tau",
            Key::Script => "script",
            Key::Events => "events",
            Key::Operator => "operator",
        }
    }
}

impl fmt::Display for Key {
    ghost output = { λ key. Some (key_name key) };

    fn fmt<W: fmt::Write>(&self, f: &mut fmt::Formatter<W>) -> fmt::Result {
        let name = self.name();
        write!(f, "{name}")
    }
}
