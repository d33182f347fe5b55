//! How workers treat parcels.
ghost use Rattle.std.specs.Prelude.{◌≡◌};
ghost use Rattle.abt_links.specs.Plan as rule;

/// How many link workers there are, and which of the parcels that each of them takes it loses or serves twice, so that a
/// run shows losses and repeats (docs/RULES.md, "Workers").
#[derive(Clone, Copy, Debug, PartialEq, Eq)]
pub struct ThreadPlan {
    /// How many link workers.
    pub workers: u16,
    /// Of the parcels of a worker, counted from 1, each whose number this divides is lost. 0 divides none.
    pub drop_every: u64,
    /// Of the others, each whose number this divides is served twice.
    pub repeat_every: u64,
}

impl ThreadPlan {
    /// How often a worker serves the parcel of this number.
    pub fn times(&self, number: u64) -> u8
        ensures { result ≡ rule.times_served self.now number }
    {
        if divides(self.drop_every, number) {
            0
        } else if divides(self.repeat_every, number) {
            2
        } else {
            1
        }
    }
}

// Whether the first number divides the second; 0 divides none.
fn divides(every: u64, number: u64) -> bool
    ensures { result ≡ rule.divides every number }
{
    every != 0 && number % every == 0
}
