//! Files of blocks, which keep a log of their calls.
ghost use Rattle.std.specs.Prelude.{◌≡◌, ◌<◌, List, ◌∷◌, MatchResult};
ghost use Rattle.abt_disk.specs.declared.log.DiskCall.{DiskCall};
ghost use Rattle.abt_disk.specs.declared.log.DiskCall.TheVariants as call;

use crate::disk::DiskFault;

/// A file of four blocks, which does what it is asked and notes it. No clause says what a file holds: that is a premise
/// on the log (docs/RULES.md, "A store on a disk").
pub trait BlockFile {
    /// All calls so far, the newest first.
    ghost calls: { Self → List DiskCall };

    /// Reads a block.
    ///
    /// # Errors
    /// As the file fails.
    fn read(&mut self, block: u64) -> Result<[u8; 24], DiskFault>
        requires { block < 4 }
        ensures { MatchResult result
            (λ octets. calls self.new ≡ call.Read block octets ∷ calls self.old)
            (λ _. calls self.new ≡ call.Failed ∷ calls self.old) };

    /// Writes a block.
    ///
    /// # Errors
    /// As the file fails. The block may have been written in part.
    fn write(&mut self, block: u64, octets: &[u8; 24]) -> Result<(), DiskFault>
        requires { block < 4 }
        ensures { MatchResult result
            (λ _. calls self.new ≡ call.Write block octets.now ∷ calls self.old)
            (λ _. calls self.new ≡ call.WriteFailed block ∷ calls self.old) };

    /// Brings all that was written onto the device.
    ///
    /// # Errors
    /// As the file fails.
    fn sync(&mut self) -> Result<(), DiskFault>
        ensures { MatchResult result
            (λ _. calls self.new ≡ call.Sync ∷ calls self.old)
            (λ _. calls self.new ≡ call.Failed ∷ calls self.old) };
}
