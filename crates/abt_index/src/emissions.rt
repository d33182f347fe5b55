//! When the cells of a connection were emitted.
ghost use Rattle.std.specs.Prelude.{◌≡◌, ◌+◌, ◌≤◌, [], ◌∷◌, OnOk, length, min};
ghost use Rattle.abt_index.specs.Index.{moment_in};

use crate::lookups::Lookups;
use std::alloc::{AllocError, Global};
use std::marker::Model;

/// The moments at which the cells of one connection were emitted, in picoseconds. Cells are numbered from 0.
#[derive(Debug, Drop)]
pub(crate) struct Emissions {
    moments: Vec<u64>,
}

impl Model for Emissions {
    ghost use Rattle.std.specs.Prelude.{◌-◌, reverse};
    ghost use Rattle.std.specs.List.{enumerate_from};
    ghost use Rattle.std.specs.Vec.{vec_capacity, vec_len};
    ghost use Rattle.abt_index.specs.FactIndex.{EmissionsView};

    ghost Value = { EmissionsView };

    ghost view = { λ e. record {
      moments = reverse (enumerate_from 0 e.moments.items);
      room = vec_capacity e.moments - vec_len e.moments;
    } };
}

impl Emissions {
    // No cell was emitted.
    pub(crate) fn new(alloc: Global) -> Emissions
        ensures { result.moments ≡ [] }
    {
        Emissions {
            moments: Vec::new(alloc),
        }
    }

    // Makes room for two more.
    pub(crate) fn reserve(&mut self) -> Result<(), AllocError>
        ensures ok { OnOk result (2 ≤ self.new.room) }
        ensures same { self.new.moments ≡ self.old.moments }
    {
        self.moments.reserve(2)
    }

    // The next cell was emitted.
    pub(crate) fn note(&mut self, at: u64)
        requires { 1 ≤ self.old.room }
        ensures moments { self.new.moments ≡ (length self.old.moments, at) ∷ self.old.moments }
        ensures room { self.old.room ≤ self.new.room + 1 }
    {
        self.moments.push_reserved(at);
    }

    // The moment of a cell, 0 if it wasn't emitted.
    #[tactic(auto, using(crate::proofs::Emitted::moment_at, crate::proofs::Emitted::no_moment))]
    pub(crate) fn of(&self, cell: u64, looks: &mut Lookups) -> u64
        ensures value { result ≡ moment_in self.now.moments cell }
        ensures looks { looks.new ≤ looks.old + 1 }
        ensures counted { looks.new ≡ min (looks.old + 1) u64.MAX }
    {
        match usize::try_from(looks.counting(cell)) {
            Ok(place) if place < self.moments.len() => self.moments[place],
            _ => 0,
        }
    }
}
