//! A file that fails and loses power when it is told.
ghost use Rattle.std.specs.Prelude.{◌≡◌, []};

use abt_disk::{
    BlockFile, CallLog, DiskCall, DiskFault, FileDisk, OpenFault, OpenRefused, SlotStore,
};

/// The octets of four blocks.
pub(super) type Octets = [[u8; 24]; 4];

/// A file in memory, whose calls are counted, and of which a call of a number fails.
#[derive(Drop)]
pub(super) struct TrialFile {
    /// What a read gives.
    pub(super) held: Octets,
    /// What was synced.
    pub(super) device: Octets,
    /// How many calls were made.
    pub(super) made: u64,
    /// The call that fails, counted from 1; none if it is 0.
    pub(super) fails: u64,
    /// Whether a write that fails is made all the same.
    pub(super) writes: bool,
    log: CallLog,
}

impl TrialFile {
    // A file that holds these blocks, all synced.
    fn new(octets: Octets) -> TrialFile
        ensures { result.log.calls ≡ [] }
    {
        TrialFile {
            held: octets,
            device: octets,
            made: 0,
            fails: 0,
            writes: false,
            log: CallLog::new(),
        }
    }

    // Counts a call, and says whether it fails.
    fn is_failing(&mut self) -> bool
        ensures { self.new.log ≡ self.old.log }
    {
        self.made = self.made.saturating_add(1);
        self.made == self.fails
    }
}

impl BlockFile for TrialFile {
    ghost calls = { λ f. f.log.calls };

    fn read(&mut self, block: u64) -> Result<[u8; 24], DiskFault> {
        if self.is_failing() {
            self.log.note(&DiskCall::Failed);
            return Err(DiskFault::Device);
        }
        let octets = self.held[block as usize];
        self.log.note(&DiskCall::Read { block, octets });
        Ok(octets)
    }

    fn write(&mut self, block: u64, octets: &[u8; 24]) -> Result<(), DiskFault> {
        let is_failing = self.is_failing();
        let octets = *octets;
        if !is_failing || self.writes {
            self.held[block as usize] = octets;
        }
        if is_failing {
            self.log.note(&DiskCall::WriteFailed { block });
            return Err(DiskFault::Full);
        }
        self.log.note(&DiskCall::Write { block, octets });
        Ok(())
    }

    fn sync(&mut self) -> Result<(), DiskFault> {
        if self.is_failing() {
            self.log.note(&DiskCall::Failed);
            return Err(DiskFault::Device);
        }
        self.device = self.held;
        self.log.note(&DiskCall::Sync);
        Ok(())
    }
}

/// A store on such a file.
pub(super) type TrialStore = SlotStore<FileDisk<TrialFile>>;

/// Opens the store of a file that holds these blocks.
pub(super) fn store_on(octets: Octets) -> Result<TrialStore, OpenFault> {
    failing_store(octets, 0, false)
}

/// The same, where the call of a number fails, and a write that fails is made or not.
pub(super) fn failing_store(
    octets: Octets,
    fails: u64,
    writes: bool,
) -> Result<TrialStore, OpenFault> {
    let mut file = TrialFile::new(octets);
    file.fails = fails;
    file.writes = writes;
    match SlotStore::open(FileDisk::new(file, octets)) {
        Ok(store) => Ok(store),
        Err(OpenRefused { disk: _, fault }) => Err(fault),
    }
}
