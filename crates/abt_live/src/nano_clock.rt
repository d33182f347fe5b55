//! Clocks that count nanoseconds.
ghost use Rattle.std.specs.Prelude.{ℕ, Option};

/// A clock that counts nanoseconds, from some start of its own. Nothing is known of them but which one a reading gave.
pub trait NanoClock {
    // A reading of it may give this, and it is then that. It gives `None` if it can't be read.
    ghost reads: { (old : Self) → (reading : Option ℕ) → (new : Self) → Type 0 };

    /// The nanoseconds that it counts now, if it can be read and they have 64 bits.
    fn nanoseconds(&mut self) -> Option<u64>
        ensures { reads self.old result self.new };
}
