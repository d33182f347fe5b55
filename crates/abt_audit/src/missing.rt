//! What entries at which journals are stuck miss.
use abt_cell::Vc;
use abt_journal_text::Spot;
use abt_model::Event;
use abt_rate::Rate;
use abt_reason::Sought;

/// What an entry at which a journal is stuck misses, after the events before such entries. Moments are picoseconds.
#[derive(Clone, Copy, Debug)]
pub(crate) enum Missing {
    /// Nothing that can be told.
    Nothing,
    /// A connection of this channel, which the net doesn't have.
    NoChannel {
        vc: Vc,
    },
    /// A path that visits the port, which that of the connection doesn't.
    OffPath {
        conn: u16,
        port: u16,
    },
    /// Cells at this port, which isn't the first of the connection's path.
    NotFirst {
        conn: u16,
        port: u16,
    },
    /// The request of this number, which the source hasn't asked.
    Unasked {
        conn: u16,
        seq: u32,
    },
    /// Other rates: the source asked with these under the number.
    OtherRates {
        conn: u16,
        seq: u32,
        floor: Rate,
        ask: Rate,
    },
    /// The entry of the source that says that its request was served at this place.
    Beside {
        conn: u16,
        place: u64,
    },
    /// The message that this event takes on, which lies elsewhere.
    Message {
        event: Event,
        sought: Option<Sought>,
    },
    /// A cell that hasn't left: there is none that can still come.
    NoCell {
        conn: u16,
        cell: u64,
    },
    /// The oldest cell that can still come, from a moment on and until another.
    Cell {
        conn: u16,
        cell: u64,
        from: u64,
        to: u64,
    },
    /// The step of this place of a port, and where it stands, if it is in the texts.
    Step {
        port: u16,
        place: u64,
        spot: Option<Spot>,
    },
}
