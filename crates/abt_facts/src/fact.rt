//! The facts that events leave.
use abt_gcra::Verdict;
use abt_keep::Record;
use abt_rate::Rate;

/// One thing that happened to a connection (docs/RULES.md, "Facts"). A connection's past is the list of its facts, and
/// everything that a source, a hop or a policer does next follows from that list.
///
/// Moments are picoseconds, hops count from 1, cells of a connection from 0 and over restarts too.
#[derive(Clone, Copy, Debug, PartialEq, Eq)]
pub enum Fact {
    /// The source started, and goes on from the record that its store held.
    Started {
        now: u64,
        kept: Record,
    },
    /// The source lost what it kept outside its store.
    Crashed,
    /// A record was written into the source's store.
    Stored {
        kept: Record,
    },
    /// The source sent a request, after so many emitted cells.
    Asked {
        seq: u32,
        floor: Rate,
        ask: Rate,
        mark: u64,
    },
    /// The source took an answer to the request that it waited for.
    Heard {
        seq: u32,
        granted: bool,
    },
    /// A cell left the shaper.
    Emitted {
        cell: u64,
        at: u64,
        rate: Rate,
    },
    /// A request came to the first hop.
    Delivered {
        seq: u32,
    },
    /// A hop passed a request on, so it holds the asked rate for it.
    Passed {
        seq: u32,
        hop: u16,
    },
    /// A hop refused a request, or passed a no back, so it holds the floor for it.
    Shut {
        seq: u32,
        hop: u16,
    },
    /// The request that the last hop passed was turned into a yes.
    Turned {
        seq: u32,
    },
    /// A hop passed a yes back.
    Back {
        seq: u32,
        hop: u16,
    },
    /// A cell came to the first hop, which then held that rate, and was policed.
    Arrived {
        cell: u64,
        at: u64,
        rate: Rate,
        verdict: Verdict,
    },
}
