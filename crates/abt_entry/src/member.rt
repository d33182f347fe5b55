//! The names of members.
ghost use Rattle.std.specs.Prelude.{◌≡◌, Some};
ghost use Rattle.abt_entry.specs.Members.{member_name};

use std::fmt;

/// The members of the objects that lines have (docs/JOURNALS.md). A member shows itself as it is written there.
#[derive(Clone, Copy, Debug, PartialEq, Eq)]
pub enum Member {
    /// The net.
    Net,
    /// The capacities of its ports.
    Ports,
    /// Its connections.
    Connections,
    /// The virtual path identifier of a channel.
    Vpi,
    /// Its virtual channel identifier.
    Vci,
    /// The ports that a connection visits.
    Path,
    /// How long a cell travels on its access line.
    Delay,
    /// By how much a cell may come too early.
    Tau,
    /// The port of an entry.
    Port,
    /// How many entries of a port came before.
    Place,
    /// Who had a step done.
    Caller,
    /// The input of a port.
    Input,
    /// The reply of a port.
    Reply,
    /// A request.
    Request,
    /// An answer.
    Answer,
    /// A data cell that came.
    Arrive,
    /// When it came.
    At,
    /// A capacity.
    Capacity,
    /// The sequence number of a request.
    Seq,
    /// The rate that a source keeps until it hears an answer.
    Floor,
    /// The rate that is asked for.
    Ask,
    /// Whether an answer is a yes.
    Granted,
    /// The answer that went back, or the refusal.
    Refused,
    /// Why a message was dropped.
    Dropped,
    /// The connection whose source an entry is of.
    Source,
    /// The deed of a source.
    Did,
    /// Its outcome.
    Outcome,
    /// A start.
    Start,
    /// The plan of the store at an ask.
    Store,
    /// An emission.
    Emit,
    /// An answer that a source is told.
    Told,
    /// A request that was asked.
    Asked,
    /// A request that was repeated.
    Again,
    /// A cell that left.
    Emitted,
    /// The number of a cell.
    Cell,
    /// When the next cell may leave.
    Next,
    /// A cell is too soon, and may leave at this moment.
    TooSoon,
    /// Why something could not happen.
    NotEnabled,
    /// A request that was served at the first port.
    Sent,
    /// A cell that was served at the first port.
    Arrived,
    /// The end of a journal.
    End,
}

impl Member {
    /// The member as it is written.
    pub fn name(self) -> &'static str
        ensures { result.now ≡ member_name self }
    {
        match self {
            Member::Net => "net",
            Member::Ports => "ports",
            Member::Connections => "connections",
            Member::Vpi => "vpi",
            Member::Vci => "vci",
            Member::Path => "path",
            Member::Delay => "delay",
            Member::Tau => "tau",
            Member::Port => "port",
            Member::Place => "place",
            Member::Caller => "caller",
            Member::Input => "input",
            Member::Reply => "reply",
            Member::Request => "request",
            Member::Answer => "answer",
            Member::Arrive => "arrive",
            Member::At => "at",
            Member::Capacity => "capacity",
            Member::Seq => "seq",
            Member::Floor => "floor",
            Member::Ask => "ask",
            Member::Granted => "granted",
            Member::Refused => "refused",
            Member::Dropped => "dropped",
            Member::Source => "source",
            Member::Did => "did",
            Member::Outcome => "outcome",
            Member::Start => "start",
            Member::Store => "store",
            Member::Emit => "emit",
            Member::Told => "told",
            Member::Asked => "asked",
            Member::Again => "again",
            Member::Emitted => "emitted",
            Member::Cell => "cell",
            Member::Next => "next",
            Member::TooSoon => "TooSoon",
            Member::NotEnabled => "not-enabled",
            Member::Sent => "sent",
            Member::Arrived => "arrived",
            Member::End => "end",
        }
    }
}

impl fmt::Display for Member {
    ghost output = { λ member. Some (member_name member) };

    fn fmt<W: fmt::Write>(&self, f: &mut fmt::Formatter<W>) -> fmt::Result {
        let name = self.name();
        write!(f, "{name}")
    }
}
