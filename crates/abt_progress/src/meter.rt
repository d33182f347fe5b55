//! How much has been read, and when that is to be told.
ghost use Rattle.std.specs.Prelude.{◌≡◌, if◌then◌else◌};
ghost use Rattle.abt_progress.specs.Meter as spec;

// How many octets are read between a line and the next.
const PACE: u64 = 262144;

// How many octets have been read, and how many were told last.
#[derive(Drop)]
pub(crate) struct Meter {
    octets: u64,
    told: u64,
}

impl Meter {
    pub(crate) fn new() -> Meter
        ensures octets { result.octets ≡ 0 }
        ensures told { result.told ≡ 0 }
    {
        Meter { octets: 0, told: 0 }
    }

    // How many octets have been read.
    pub(crate) fn octets(&self) -> u64
        ensures { result ≡ self.now.octets }
    {
        self.octets
    }

    // Counts the octets of a read, none at the end of an input, and says whether they are to be told now.
    pub(crate) fn count(&mut self, more: usize) -> bool
        ensures octets { self.new.octets ≡ spec.counted self.old.octets more }
        ensures due { result ≡ spec.is_due self.old.octets self.old.told more }
        ensures told { self.new.told ≡ (if result then self.new.octets else self.old.told) }
    {
        self.octets = self.octets.saturating_add(more as u64);
        let due = if more == 0 {
            self.told > 0
        } else {
            self.octets.saturating_sub(self.told) >= PACE
        };
        if due {
            self.told = self.octets;
        }
        due
    }
}
