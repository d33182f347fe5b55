//! The journals of a run.

use crate::Entry;
use std::marker::Model;

/// The journals of all ports of a net, by the numbers of the ports. Contracts see them as lists of entries.
#[derive(Debug, Drop)]
pub struct Journals {
    /// The entries of each port.
    pub ports: Vec<Vec<Entry>>,
}

impl Model for Journals {
    ghost use Rattle.std.specs.Prelude.{List, map};
    ghost use Rattle.abt_journal.specs.declared.entry.Entry.{Entry};

    ghost Value = { List (List Entry) };

    ghost view = { λ j. map (λ v. v.items) j.ports.items };
}
