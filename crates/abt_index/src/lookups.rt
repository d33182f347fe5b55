//! Counts of look-ups.
ghost use Rattle.std.specs.Prelude.{◌≡◌, ◌+◌, min};

use std::marker::Model;

/// How many entries of maps and lists were looked up. Whoever looks one up does so by a key that went through `counting`.
#[derive(Debug, Drop)]
pub struct Lookups {
    count: u64,
}

impl Model for Lookups {
    ghost use Rattle.std.specs.Prelude.{ℕ};

    ghost Value = { ℕ };

    ghost view = { λ l. l.count };
}

impl Lookups {
    /// None so far.
    pub fn new() -> Lookups
        ensures { result ≡ 0 }
    {
        Lookups { count: 0 }
    }

    /// The key of an entry that is looked up next. One more is counted, up to the greatest count.
    pub fn counting<K>(&mut self, key: K) -> K
        ensures value { result ≡ key }
        ensures count { self.new ≡ min (self.old + 1) u64.MAX }
    {
        self.count = self.count.saturating_add(1);
        key
    }

    /// How many were looked up.
    pub fn count(&self) -> u64
        ensures { result ≡ self.now }
    {
        self.count
    }
}
