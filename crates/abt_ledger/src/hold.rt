//! Holds.
ghost use Rattle.std.specs.Prelude.{◌≡◌, IsTrue};

use abt_rate::Rate;
use std::marker::Model;

// What a hold bears until it is spent. It is made whole and never broken, so nothing that bears one can be dropped.
#[derive(Debug)]
struct Seal {
    broken: bool,
}

impl Seal {
    fn whole() -> Seal {
        Seal { broken: false }
    }

    fn take_off(self) {
        let Seal { broken: _ } = self;
    }
}

impl Drop for Seal {
    fn drop(self)
        requires { IsTrue self.broken }
    {
        let Seal { broken: _ } = self;
    }
}

/// A part of the total of a [`Ledger`](crate::Ledger), at a rate.
///
/// Only a ledger makes one, and it can be neither copied nor dropped: it goes back to its ledger, by
/// [`change`](crate::Ledger::change) or [`close`](crate::Ledger::close). Contracts see it as the units of its rate.
#[must_use]
#[derive(Debug)]
pub struct Hold {
    rate: Rate,
    seal: Seal,
}

impl Model for Hold {
    ghost use Rattle.std.specs.Prelude.{ℕ};

    ghost Value = { ℕ };

    ghost view = { λ h. h.rate };
}

impl Hold {
    /// The rate that is held.
    pub fn rate(&self) -> Rate
        ensures { result ≡ self.now }
    {
        self.rate
    }

    pub(crate) fn of(rate: Rate) -> Hold
        ensures { result ≡ rate }
    {
        Hold {
            rate,
            seal: Seal::whole(),
        }
    }

    pub(crate) fn spend(self) -> Rate
        ensures { result ≡ self }
    {
        let Hold { rate, seal } = self;
        seal.take_off();
        rate
    }
}
