//! All messages under way.
ghost use Rattle.std.specs.Prelude.{◌≡◌, ◌↔◌, ◌<◌, ◌≤◌, ◌++◌, [], ◌∷◌, length, IsTrue, IfSome, IfNone, OnOk, OnErr};
ghost use Rattle.abt_plans.specs.declared.chances.Fate.TheVariants as fate;
ghost use Rattle.abt_play.specs.UnderWay.{both, copies, count_of, IsTaken};

use crate::blocks::Blocks;
use crate::parcel::Parcel;
use crate::tally::Tally;
use abt_model::Event;
use abt_plans::Fate;
use std::alloc::{AllocError, Global};
use std::marker::Model;

/// The messages under way, in the order in which they were sent. How many there are of each connection is counted.
#[derive(Drop)]
pub(crate) struct UnderWay {
    parcels: Blocks,
    tally: Tally,
}

impl Model for UnderWay {
    ghost use Rattle.std.specs.Prelude.{◌≡◌, ℕ, List, slice_index};
    ghost use Rattle.abt_play.specs.UnderWay.{count_of};
    ghost use Rattle.abt_play.specs.declared.parcel.Parcel.{Parcel};

    ghost Value = { List Parcel };

    ghost view = { λ u. u.parcels };

    ghost invariant = { λ u. (c : ℕ) → slice_index u.tally c ≡ count_of c u.parcels };
}

impl UnderWay {
    // No messages.
    pub(crate) fn new(alloc: Global) -> UnderWay
        ensures { result ≡ [] }
    {
        UnderWay {
            parcels: Blocks::new(alloc),
            tally: Tally::new(alloc),
        }
    }

    // How many messages there are.
    pub(crate) fn len(&self) -> usize
        ensures { result ≡ length self.now }
    {
        self.parcels.len()
    }

    // Whether there is a message of a connection.
    pub(crate) fn has(&self, conn: u16) -> bool
        ensures { IsTrue result ↔ (0 < count_of conn self.now) }
    {
        self.tally.has(conn)
    }

    // Takes a message out, by its place.
    pub(crate) fn take(&mut self, place: usize) -> Option<Parcel>
        ensures some { IfSome result (IsTaken place self.old self.new) }
        ensures none { IfNone result (length self.old ≤ place) }
        ensures same { IfNone result (self.new ≡ self.old) }
    {
        let parcel = self.parcels.take(place)?;
        self.tally.lower(parcel.event.conn());
        Some(parcel)
    }

    // Adds a message that is sent, as often as its fate has it.
    pub(crate) fn send(&mut self, parcel: &Parcel, fate: Fate) -> Result<(), AllocError>
        ensures { OnOk result (self.new ≡ self.old ++ copies fate parcel.now) }
    {
        match fate {
            Fate::Lost => Ok(()),
            Fate::Once => self.add(parcel),
            Fate::Twice => self.add_twice(parcel),
        }
    }

    // Adds a message twice, if it may be repeated.
    fn add_twice(&mut self, parcel: &Parcel) -> Result<(), AllocError>
        ensures { OnOk result (self.new ≡ self.old ++ copies fate.Twice parcel.now) }
    {
        match parcel.repeats.checked_sub(1) {
            Some(repeats) => self.add_both(&parcel.event, repeats),
            None => self.add(parcel),
        }
    }

    // Adds both copies of a message, each of which may be repeated so often.
    fn add_both(&mut self, event: &Event, repeats: u8) -> Result<(), AllocError>
        ensures { OnOk result (self.new ≡ self.old ++ both event.now repeats) }
    {
        let copy = Parcel {
            event: *event,
            repeats,
        };
        self.add(&copy)?;
        self.add(&copy)
    }

    // Adds a message behind the others.
    fn add(&mut self, parcel: &Parcel) -> Result<(), AllocError>
        ensures ok { OnOk result (self.new ≡ self.old ++ parcel.now ∷ []) }
        ensures err { OnErr result (self.new ≡ self.old) }
    {
        let conn = parcel.event.conn();
        self.tally.raise(conn)?;
        match self.parcels.push(parcel) {
            Ok(()) => Ok(()),
            Err(refused) => {
                self.tally.lower(conn);
                Err(refused)
            }
        }
    }
}
