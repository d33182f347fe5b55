//! A source with a clock, line by line.
ghost use Rattle.std.specs.Prelude.{◌≡◌, [], OnOk, OnErr, string_bytes};
ghost use Rattle.std.specs.Option.{option_map};
ghost use Rattle.abt_live.specs.Clocked.{DoesClocked, StopsClocked};

use crate::clocked::clocked;
use crate::fault::StopFault;
use crate::nano_clock::NanoClock;
use crate::run_clock::RunClock;
use crate::serving::JournalServer;
use crate::source_asked::asked_on;
use crate::source_lines::SourceLines;
use abt_keep::SeqStore;
use std::alloc::Global;
use std::io::Write;

/// A source that starts, and emits cells, at the moments that a clock has when it is told to (docs/LIVE.md, "Moments").
#[derive(Drop)]
pub struct ClockedLines<K: SeqStore, J: Write, N: NanoClock> {
    /// The source.
    pub lines: SourceLines<K, J>,
    /// The clock, from the beginning of the run on.
    pub clock: RunClock<N>,
}

impl<K: SeqStore, J: Write, N: NanoClock> ClockedLines<K, J, N> {
    /// Reads the clock, and does what a line asks for then, as `SourceLines::take` does for the line that has the moment.
    ///
    /// # Errors
    /// As for `SourceLines::take`.
    pub fn take(
        &mut self,
        alloc: Global,
        line: Option<&[u8]>,
        text: &mut String,
    ) -> Result<(), StopFault>
        requires { string_bytes text.old ≡ [] }
        ensures ok { OnOk result (DoesClocked N.reads J.contents self.old
            (option_map (λ line. line.now) line.entry) (string_bytes text.new) self.new) }
        ensures err { OnErr result (StopsClocked N.reads J.contents self.old
            (option_map (λ line. line.now) line.entry) self.new) }
    {
        let moment = self.clock.moment();
        let asked = asked_on(alloc, line)?;
        let answer = self.lines.act(alloc, &clocked(moment, line, asked))?;
        Ok(answer.push_to(alloc, text)?)
    }
}

impl<K: SeqStore, J: Write, N: NanoClock> JournalServer for ClockedLines<K, J, N> {
    ghost use Rattle.abt_live.specs.Clocked.{ClockedLine};

    ghost steps = { ClockedLine N.reads J.contents };

    fn answer(
        &mut self,
        alloc: Global,
        _number: u64,
        line: Option<&[u8]>,
        text: &mut String,
    ) -> Result<(), StopFault> {
        self.take(alloc, line, text)
    }
}
