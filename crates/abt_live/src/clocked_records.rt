//! A source with a clock, by lines and cells.
ghost use Rattle.std.specs.Prelude.{◌≡◌, [], OnOk, OnErr};
ghost use Rattle.std.specs.Option.{option_map};
ghost use Rattle.abt_live.specs.Clocked.{DoesClockedRecord, StopsClockedRecord};

use crate::clocked::clocked;
use crate::fault::StopFault;
use crate::nano_clock::NanoClock;
use crate::record_serving::JournalRecords;
use crate::run_clock::RunClock;
use crate::source_records::{SourceRecords, record_asked};
use abt_keep::SeqStore;
use std::alloc::Global;
use std::io::Write;

/// A source with a clock, whose requests go out as cells, and to which answers come as cells (docs/LIVE.md, "Moments").
#[derive(Drop)]
pub struct ClockedRecords<K: SeqStore, J: Write, N: NanoClock> {
    /// The source, and the port that its requests go to first.
    pub records: SourceRecords<K, J>,
    /// The clock, from the beginning of the run on.
    pub clock: RunClock<N>,
}

impl<K: SeqStore, J: Write, N: NanoClock> ClockedRecords<K, J, N> {
    /// Reads the clock, and does what a line or a cell asks for then, as `SourceRecords::take` does for the line that has the moment.
    ///
    /// # Errors
    /// As for `SourceLines::take`.
    pub fn take(
        &mut self,
        alloc: Global,
        seen: Option<&[u8]>,
        said: &mut Vec<u8>,
    ) -> Result<(), StopFault>
        requires { said.old.items ≡ [] }
        ensures ok { OnOk result (DoesClockedRecord N.reads J.contents self.old
            (option_map (λ octets. octets.now) seen.entry) said.new.items self.new) }
        ensures err { OnErr result (StopsClockedRecord N.reads J.contents self.old
            (option_map (λ octets. octets.now) seen.entry) self.new) }
    {
        let moment = self.clock.moment();
        let asked = record_asked(alloc, seen)?;
        let answer = self
            .records
            .lines
            .act(alloc, &clocked(moment, seen, asked))?;
        Ok(answer.add_to(alloc, self.records.first_port, said)?)
    }
}

impl<K: SeqStore, J: Write, N: NanoClock> JournalRecords for ClockedRecords<K, J, N> {
    ghost use Rattle.abt_live.specs.Clocked.{ClockedRecord};

    ghost steps = { ClockedRecord N.reads J.contents };

    fn answer(
        &mut self,
        alloc: Global,
        seen: Option<&[u8]>,
        said: &mut Vec<u8>,
    ) -> Result<(), StopFault> {
        self.take(alloc, seen, said)
    }
}
