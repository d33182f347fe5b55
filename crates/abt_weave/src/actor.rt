//! Who keeps a journal.

/// A source or a port of a net, by its number.
#[derive(Clone, Copy, Debug, PartialEq, Eq)]
pub enum Actor {
    /// The source of the connection of this number.
    Source(u16),
    /// The port of this number.
    Port(u16),
}

/// The entry at which an actor's journal got stuck, by its index there.
#[derive(Clone, Copy, Debug, PartialEq, Eq)]
pub struct Stuck {
    /// The source or port whose journal it is.
    pub actor: Actor,
    /// How many entries of the journal come before this one.
    pub place: u64,
}
