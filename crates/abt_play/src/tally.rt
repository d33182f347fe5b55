//! Counts of connections.
ghost use Rattle.std.specs.Prelude.{◌≡◌, ◌↔◌, ◌<◌, ◌+◌, ◌-◌, IsTrue, OnOk, OnErr, ℕ, slice_index, vec_len};
ghost use Rattle.abt_play.specs.UnderWay.{one_of};

use std::alloc::{AllocError, Global};
use std::marker::Model;

/// How many messages there are of each connection.
#[derive(Drop)]
pub(crate) struct Tally {
    counts: Vec<usize>,
}

impl Model for Tally {
    ghost use Rattle.std.specs.Prelude.{ℕ, List};

    ghost Value = { List ℕ };

    ghost view = { λ t. t.counts.items };
}

impl Tally {
    // None of any connection.
    pub(crate) fn new(alloc: Global) -> Tally
        ensures { (c : ℕ) → slice_index result c ≡ 0 }
    {
        Tally {
            counts: Vec::new(alloc),
        }
    }

    // There is one more of a connection, if it is of one.
    pub(crate) fn raise(&mut self, conn: Option<u16>) -> Result<(), AllocError>
        ensures ok { OnOk result ((c : ℕ) → slice_index self.new c ≡ slice_index self.old c + one_of c conn) }
        ensures err { OnErr result ((c : ℕ) → slice_index self.new c ≡ slice_index self.old c) }
    {
        let Some(conn) = conn else {
            return Ok(());
        };
        grow(&mut self.counts, conn)?;
        let place = usize::from(conn);
        let Some(count) = self.counts[place].checked_add(1) else {
            return Err(AllocError);
        };
        self.counts[place] = count;
        Ok(())
    }

    // There is one less of a connection, if it is of one.
    pub(crate) fn lower(&mut self, conn: Option<u16>)
        ensures { (c : ℕ) → slice_index self.new c ≡ slice_index self.old c - one_of c conn }
    {
        let Some(conn) = conn else {
            return;
        };
        let place = usize::from(conn);
        if place < self.counts.len() {
            self.counts[place] = self.counts[place].saturating_sub(1);
        }
    }

    // Whether there is one of a connection.
    pub(crate) fn has(&self, conn: u16) -> bool
        ensures { IsTrue result ↔ (0 < slice_index self.now conn) }
    {
        let place = usize::from(conn);
        place < self.counts.len() && 0 < self.counts[place]
    }
}

// Has a count of a connection, which is 0 if there was none.
fn grow(counts: &mut Vec<usize>, conn: u16) -> Result<(), AllocError>
    ensures room { OnOk result (conn < vec_len counts.new) }
    ensures same { (c : ℕ) → slice_index counts.new.items c ≡ slice_index counts.old.items c }
{
    let place = usize::from(conn);
    if counts.len() <= place {
        counts.resize(place + 1, 0)?;
    }
    Ok(())
}
