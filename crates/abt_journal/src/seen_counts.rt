//! How much a caller has seen of each port's journal.
ghost use Rattle.std.specs.Prelude.{◌≡◌, ◌<◌, ℕ, OnOk, length, slice_set};
ghost use Rattle.abt_journal.specs.Counts.{count_at};

use std::alloc::{AllocError, Global};
use std::marker::Model;

// How many entries of each port's journal were seen, by the port's number. A port past the last count was never seen.
#[derive(Debug, Drop)]
pub(crate) struct SeenCounts {
    counts: Vec<u64>,
}

impl Model for SeenCounts {
    ghost use Rattle.std.specs.Prelude.{List, ℕ};

    ghost Value = { List ℕ };

    ghost view = { λ s. s.counts.items };
}

impl SeenCounts {
    // Nothing was seen of any port.
    pub(crate) fn new(alloc: Global) -> SeenCounts
        ensures { (port : ℕ) → count_at result port ≡ 0 }
    {
        SeenCounts {
            counts: Vec::new(alloc),
        }
    }

    // How many entries of a port's journal were seen.
    pub(crate) fn of(&self, port: u16) -> u64
        ensures { result ≡ count_at self.now port }
    {
        self.counts.get(usize::from(port)).copied().unwrap_or(0)
    }

    // Makes room for the count of a port.
    pub(crate) fn make_room(&mut self, port: u16) -> Result<(), AllocError>
        ensures room { OnOk result (port < length self.new) }
        ensures same { (p : ℕ) → count_at self.new p ≡ count_at self.old p }
    {
        let place = usize::from(port);
        if place >= self.counts.len() {
            self.counts.resize(place + 1, 0)?;
        }
        Ok(())
    }

    // Notes how many entries of a port's journal were seen. There is room for it.
    pub(crate) fn note(&mut self, port: u16, count: u64)
        requires { port < length self.old }
        ensures { self.new ≡ slice_set self.old port count }
    {
        self.counts[usize::from(port)] = count;
    }
}
