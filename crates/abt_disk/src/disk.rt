//! What a disk promises.
ghost use Rattle.std.specs.Prelude.{◌≡◌, ◌<◌, ◌≤◌, ℕ, Bool, true, is_err, IfOk, OnOk};
ghost use Rattle.abt_disk.specs.Disk.{Blocks, AreSame, Torn, Follows, NoMore, Only, Elapses};

use thiserror::Error;

/// Why a disk doesn't do what is asked.
#[derive(Clone, Copy, Debug, PartialEq, Eq, Error)]
pub enum DiskFault {
    /// The device failed.
    #[error("the disk failed")]
    Device,
    /// It has no room.
    #[error("the disk is full")]
    Full,
    /// It gives other octets than were written.
    #[error("the disk gives other octets than were written")]
    Differs,
}

/// A disk of four blocks of 24 octets (docs/RULES.md, "A store on a disk"). Until a sync, a crash may leave anything in the
/// blocks that were written. A disk that has failed once does nothing any more.
pub trait Disk {
    /// What a read gives.
    ghost seen: { Self → Blocks };

    /// What a crash at this moment may leave.
    ghost may_leave: { Self → Blocks → Type 0 };

    /// The moment, as a number that doesn't fall.
    ghost moment: { Self → ℕ };

    /// What a crash at some moment from that one on might have left, during a call or between two.
    ghost left_since: { Self → ℕ → Blocks → Type 0 };

    /// Whether it has failed.
    ghost has_failed: { Self → Bool };

    /// Reads a block.
    ///
    /// # Errors
    /// As the disk fails, now or earlier.
    fn read(&mut self, block: u64) -> Result<[u8; 24], DiskFault>
        requires { block < 4 }
        ensures octets { IfOk result (λ octets. octets ≡ seen self.old block) }
        ensures seen { AreSame (seen self.new) (seen self.old) }
        ensures crash { NoMore (may_leave self.old) (may_leave self.new) }
        ensures time { Elapses (moment self.old) (moment self.new)
            (left_since self.old) (left_since self.new) (may_leave self.new) }
        ensures fails { has_failed self.new ≡ is_err result }
        ensures stays { has_failed self.old ≡ true → self.new ≡ self.old };

    /// Writes a block. Until a sync, a crash may leave anything in it.
    ///
    /// # Errors
    /// As the disk fails, now or earlier.
    fn write(&mut self, block: u64, octets: &[u8; 24]) -> Result<(), DiskFault>
        requires { block < 4 }
        ensures written { OnOk result (seen self.new block ≡ octets.now) }
        ensures others { Torn block (seen self.old) (seen self.new) }
        ensures crash { Follows (Torn block) (may_leave self.old) (may_leave self.new) }
        ensures time { Elapses (moment self.old) (moment self.new)
            (left_since self.old) (left_since self.new) (may_leave self.new) }
        ensures fails { has_failed self.new ≡ is_err result }
        ensures stays { has_failed self.old ≡ true → self.new ≡ self.old };

    /// Brings all that was written onto the disk: after it a crash leaves what a read gives.
    ///
    /// # Errors
    /// As the disk fails, now or earlier.
    fn sync(&mut self) -> Result<(), DiskFault>
        ensures durable { OnOk result (Only (seen self.old) (may_leave self.new)) }
        ensures seen { AreSame (seen self.new) (seen self.old) }
        ensures crash { NoMore (may_leave self.old) (may_leave self.new) }
        ensures time { Elapses (moment self.old) (moment self.new)
            (left_since self.old) (left_since self.new) (may_leave self.new) }
        ensures fails { has_failed self.new ≡ is_err result }
        ensures stays { has_failed self.old ≡ true → self.new ≡ self.old };

    /// This moment is one of those since an earlier one.
    ghost counts_now: { (disk : Self) (t : ℕ) (c : Blocks) → t ≤ moment disk → may_leave disk c → left_since disk t c };

    /// Since this moment there is no other.
    ghost only_now: { (disk : Self) (c : Blocks) → left_since disk (moment disk) c → may_leave disk c };
}
