//! The options of processes, by the names that `clap` has for them.
use crate::names::{PORT, flag, valued};
use clap::{Arg, ArgAction};
use std::alloc::Global;

/// The journal of a process, the store of `abt source`, and whether that is made.
pub const JOURNAL: &str = "journal";

pub const STORE: &str = "store";

pub const NEW: &str = "new";

/// Messages as cells.
pub const BINARY: &str = "binary";

/// The epoch of a run, where moments are read from the machine's clock.
pub const CLOCK: &str = "clock";

pub(crate) fn ports<'a>(alloc: Global) -> Arg<'a> {
    valued(
        alloc,
        PORT,
        "P",
        "A port of the switch, by its number in the net; once for each port",
    )
    .action(ArgAction::Append)
    .required(true)
}

pub(crate) fn journal<'a>(alloc: Global, help: &'a str) -> Arg<'a> {
    valued(alloc, JOURNAL, "FILE", help).required(true)
}

pub(crate) fn store<'a>(alloc: Global) -> Arg<'a> {
    valued(
        alloc,
        STORE,
        "FILE",
        "The store of the source, a file that no other process uses",
    )
    .required(true)
}

pub(crate) fn new<'a>(alloc: Global) -> Arg<'a> {
    flag(
        alloc,
        NEW,
        "Make the store, which must not be there, and begin the journal, which must have no line",
    )
}

pub(crate) fn binary<'a>(alloc: Global) -> Arg<'a> {
    flag(
        alloc,
        BINARY,
        "Have messages come and go as cells of 52 octets behind an octet that says which port, and all else as lines",
    )
}

pub(crate) fn clock<'a>(alloc: Global) -> Arg<'a> {
    valued(
        alloc,
        CLOCK,
        "EPOCH",
        "Read moments from the machine's monotonic clock; EPOCH has the nanoseconds at which the run of all sources began",
    )
}
