//! The outcomes of events.
use abt_cell::Request;
use abt_gcra::Verdict;
use abt_node::{Back, CapacityFault, Onward};
use abt_shaper::ShapeFault;
use abt_source::{AskFault, StartFault};

/// Why an event could not happen. Which of them can stop an event, and in which order, stands in docs/FORMATS.md,
/// "Events and outcomes".
#[derive(Clone, Copy, Debug, PartialEq, Eq)]
pub enum Cause {
    /// The source is down.
    Down,
    /// The source isn't down.
    Running,
    /// No such message was sent there; for a cell, it wasn't emitted.
    NotSent,
    /// The cell is below the fence.
    Fenced,
    /// The cell would come sooner or later than its access line delivers it.
    Delay,
    /// The moment is before the last one.
    ClockBack,
    /// There is no such connection, or its path has no such hop, or there is no such port.
    Unknown,
    /// The source waits for no answer.
    NotAsking,
}

/// The outcome of an answer at a source.
#[derive(Clone, Copy, Debug, PartialEq, Eq)]
pub enum Heard {
    /// A yes to the request that it waited for: it shapes at the asked rate.
    Raised,
    /// A no to the request that it waited for: it stays at the floor.
    Refused,
    /// It waited for no answer, or for that to another number.
    Ignored,
}

/// The outcome of an event. An event that isn't enabled changes nothing.
#[derive(Clone, Copy, Debug, PartialEq, Eq)]
pub enum Outcome {
    /// The source started.
    Started,
    /// The source didn't start.
    StartRefused(StartFault),
    /// The source sent this request.
    Asked(Request),
    /// The source didn't ask.
    AskRefused(AskFault),
    /// The source sent this request once more.
    Repeated(Request),
    /// The source is down.
    Crashed,
    /// The cell of this number left, and the next one may leave at that moment.
    Emitted { cell: u64, next: u64 },
    /// No cell left.
    EmitRefused(ShapeFault),
    /// The cell was policed.
    Arrived(Verdict),
    /// The hop's reply to the request.
    Requested(Onward),
    /// A yes to the request goes back.
    Turned,
    /// The hop's reply to the answer.
    Answered(Back),
    /// The outcome of the answer at the source.
    Told(Heard),
    /// The link has the capacity.
    CapacitySet,
    /// The link keeps the capacity that it had.
    CapacityRefused(CapacityFault),
    /// The event could not happen.
    NotEnabled(Cause),
}
