//! A source, by lines and cells.
ghost use Rattle.std.specs.Prelude.{◌≡◌, ◌⊎◌, [], IfOk, OnOk, OnErr};
ghost use Rattle.std.specs.Option.{option_map};
ghost use Rattle.abt_live.specs.SourceRecords.{DoesRecord, cell_asked, record_asked};
ghost use Rattle.abt_live.specs.SourceSteps.{StopsBefore, StopsBehind};

use crate::fault::{LiveFault, StopFault};
use crate::marks::SOURCE_MARK;
use crate::record_serving::JournalRecords;
use crate::source_asked::{SourceAsked, asked_on, heard_in};
use crate::source_lines::SourceLines;
use abt_cell::{Cell, read_rm};
use abt_keep::SeqStore;
use abt_perform::Fault;
use abt_records::is_cell;
use std::alloc::{AllocError, Global};
use std::io::Write;

/// A source whose requests go out as cells, and to which answers come as cells (docs/LIVE.md, "Cells as octets").
#[derive(Drop)]
pub struct SourceRecords<K: SeqStore, J: Write> {
    /// The source.
    pub lines: SourceLines<K, J>,
    /// The port that its requests go to first, by its number in the net.
    pub first_port: u16,
}

impl<K: SeqStore, J: Write> SourceRecords<K, J> {
    /// Does what a line or a cell asks for, as `SourceLines::take` does for a line, and puts the answer where no octets are, a request as a
    /// cell.
    ///
    /// # Errors
    /// As for `SourceLines::take`.
    pub fn take(
        &mut self,
        alloc: Global,
        seen: Option<&[u8]>,
        said: &mut Vec<u8>,
    ) -> Result<(), StopFault>
        requires { said.old.items ≡ [] }
        ensures ok { OnOk result (DoesRecord J.contents self.old
            (record_asked (option_map (λ octets. octets.now) seen.entry)) said.new.items self.new) }
        ensures err { OnErr result
            (let asked = record_asked (option_map (λ octets. octets.now) seen.entry) in
            StopsBefore J.contents self.old.lines asked self.new.lines
            ⊎ StopsBehind J.contents self.old.lines asked self.new.lines) }
    {
        let asked = record_asked(alloc, seen)?;
        let answer = self.lines.act(alloc, &asked)?;
        Ok(answer.add_to(alloc, self.first_port, said)?)
    }
}

impl<K: SeqStore, J: Write> JournalRecords for SourceRecords<K, J> {
    ghost use Rattle.abt_live.specs.SourceRecords.{SourcesRecord};

    ghost steps = { SourcesRecord J.contents };

    fn answer(
        &mut self,
        alloc: Global,
        seen: Option<&[u8]>,
        said: &mut Vec<u8>,
    ) -> Result<(), StopFault> {
        self.take(alloc, seen, said)
    }
}

// What a line or a cell asks for, which is a line that is too long if there is `None`.
pub(crate) fn record_asked(alloc: Global, seen: Option<&[u8]>) -> Result<SourceAsked, AllocError>
    ensures { IfOk result (λ asked. asked ≡ record_asked (option_map (λ octets. octets.now) seen.entry)) }
{
    match seen {
        Some(octets) if is_cell(octets) => Ok(cell_asked(octets)),
        line => asked_on(alloc, line),
    }
}

// What a cell behind an octet asks for.
fn cell_asked(octets: &[u8]) -> SourceAsked
    ensures { result ≡ cell_asked octets.now }
{
    let Some((mark, octets)) = octets.split_first() else {
        return SourceAsked::Wrong(LiveFault::Cut);
    };
    let Ok(cell) = Cell::from_octets(octets) else {
        return SourceAsked::Wrong(LiveFault::Cut);
    };
    if *mark != SOURCE_MARK {
        return SourceAsked::Wrong(LiveFault::Port);
    }
    match read_rm(&cell) {
        Ok(rm) => heard_in(&rm),
        Err(fault) => SourceAsked::Wrong(LiveFault::Cell(Fault::Rm(fault))),
    }
}
