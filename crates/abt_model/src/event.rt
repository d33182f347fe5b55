//! Events in a net.
use abt_keep::StorePlan;
use abt_rate::Rate;

/// One thing that happens (docs/FORMATS.md, "Events and outcomes"). A connection is its place in the net, from 0; a hop
/// counts from 1, a cell from 0; moments are picoseconds. A port is its place in the net too, from 0. Requests and answers are named by the number of the request.
#[derive(Clone, Copy, Debug, PartialEq, Eq)]
pub enum Event {
    /// A source starts.
    Start {
        conn: u16,
        now: u64,
    },
    /// A source asks for a rate. The plan is that of the one write into its store.
    Ask {
        conn: u16,
        rate: Rate,
        plan: StorePlan,
    },
    /// A source sends its open request once more.
    Again {
        conn: u16,
    },
    /// A source loses all but its store.
    Crash {
        conn: u16,
    },
    /// A source wants to send a cell.
    Emit {
        conn: u16,
        now: u64,
    },
    /// A cell comes to the first hop.
    Arrive {
        conn: u16,
        cell: u64,
        at: u64,
    },
    /// A request comes to a hop.
    Request {
        conn: u16,
        hop: u16,
        seq: u32,
    },
    /// A request that the last hop passed is turned into a yes.
    Turn {
        conn: u16,
        seq: u32,
    },
    /// An answer comes to a hop.
    Answer {
        conn: u16,
        hop: u16,
        seq: u32,
        granted: bool,
    },
    /// An answer comes to its source.
    Told {
        conn: u16,
        seq: u32,
        granted: bool,
    },
    /// The link behind a port is to have another capacity, in units of 1/512 cell per second.
    Capacity {
        port: u16,
        capacity: u64,
    },
}
