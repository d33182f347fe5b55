//! Lines answered, or lines and cells.
ghost use Rattle.std.specs.Prelude.{OnOk, OnErr};
ghost use Rattle.std.specs.Io.KnownBytes.{IsAtEnd};
ghost use Rattle.abt_live_files.specs.Served.{BeginsSource, BeginsSwitch, ServesSource, ServesSwitch};
ghost use Rattle.abt_live_files.specs.SourceServed.{BeginsClocked, BeginsHanded, ServesClocked, ServesHanded};

use crate::clock::MachineClock;
use abt_keep::SeqStore;
use abt_live::{
    ClockedLines, ClockedRecords, NanoClock, RunClock, ServeFault, SourceLines, SourceRecords,
    SwitchLines, serve_journal, serve_journal_records,
};
use abt_plans::SourcePlan;
use std::alloc::{AllocGlobal, Global};
use std::io::{Read, Write};
use std::rt::Clock;

// Answers all that a reader has left by a switch.
pub(crate) fn serve_switch<'net, J: Write + Drop, R: Read, W: Write>(
    alloc: Global,
    lines: SwitchLines<'net, J>,
    is_binary: bool,
    reader: &mut R,
    writer: &mut W,
) -> Result<(), ServeFault>
    ensures end { OnOk result (IsAtEnd (R.remaining reader.new)) }
    ensures ok { OnOk result (ServesSwitch J.contents is_binary lines.entry
        (R.remaining reader.old) (W.contents writer.old) (W.contents writer.new)) }
    ensures err { OnErr result (BeginsSwitch J.contents is_binary lines.entry
        (R.remaining reader.old) (W.contents writer.old) (W.contents writer.new)) }
{
    if is_binary {
        serve_journal_records(alloc, lines, reader, writer)
    } else {
        serve_journal(alloc, lines, reader, writer)
    }
}

// Answers all that a reader has left by a source, whose requests go to this port first. Its moments are handed in, or read from the
// machine's clock if the plan has an epoch.
pub(crate) fn serve_source<
    T: AllocGlobal + Clock,
    K: SeqStore + Drop,
    J: Write + Drop,
    R: Read,
    W: Write,
>(
    rt: &T,
    lines: SourceLines<K, J>,
    first_port: u16,
    plan: &SourcePlan,
    reader: &mut R,
    writer: &mut W,
) -> Result<(), ServeFault>
    ensures end { OnOk result (IsAtEnd (R.remaining reader.new)) }
    ensures ok { OnOk result (ServesSource J.contents plan.now.epoch plan.now.is_binary lines first_port
        (R.remaining reader.old) (W.contents writer.old) (W.contents writer.new)) }
    ensures err { OnErr result (BeginsSource J.contents plan.now.epoch plan.now.is_binary lines first_port
        (R.remaining reader.old) (W.contents writer.old) (W.contents writer.new)) }
{
    let Some(epoch) = plan.epoch else {
        let records = SourceRecords { lines, first_port };
        return serve_handed(rt.alloc(), records, plan.is_binary, reader, writer);
    };
    let records = ClockedRecords {
        records: SourceRecords { lines, first_port },
        clock: RunClock {
            clock: MachineClock::new(rt),
            epoch,
        },
    };
    serve_clocked(rt.alloc(), records, plan.is_binary, reader, writer)
}

// Answers all that a reader has left by a source to which moments are handed in.
fn serve_handed<K: SeqStore + Drop, J: Write + Drop, R: Read, W: Write>(
    alloc: Global,
    records: SourceRecords<K, J>,
    is_binary: bool,
    reader: &mut R,
    writer: &mut W,
) -> Result<(), ServeFault>
    ensures end { OnOk result (IsAtEnd (R.remaining reader.new)) }
    ensures ok { OnOk result (ServesHanded J.contents is_binary records
        (R.remaining reader.old) (W.contents writer.old) (W.contents writer.new)) }
    ensures err { OnErr result (BeginsHanded J.contents is_binary records
        (R.remaining reader.old) (W.contents writer.old) (W.contents writer.new)) }
{
    if is_binary {
        serve_journal_records(alloc, records, reader, writer)
    } else {
        serve_journal(alloc, records.lines, reader, writer)
    }
}

// Answers all that a reader has left by a source that has a clock.
fn serve_clocked<K: SeqStore + Drop, J: Write + Drop, N: NanoClock + Drop, R: Read, W: Write>(
    alloc: Global,
    records: ClockedRecords<K, J, N>,
    is_binary: bool,
    reader: &mut R,
    writer: &mut W,
) -> Result<(), ServeFault>
    ensures end { OnOk result (IsAtEnd (R.remaining reader.new)) }
    ensures ok { OnOk result (ServesClocked N.reads J.contents is_binary records
        (R.remaining reader.old) (W.contents writer.old) (W.contents writer.new)) }
    ensures err { OnErr result (BeginsClocked N.reads J.contents is_binary records
        (R.remaining reader.old) (W.contents writer.old) (W.contents writer.new)) }
{
    if is_binary {
        return serve_journal_records(alloc, records, reader, writer);
    }
    let lines = ClockedLines {
        lines: records.records.lines,
        clock: records.clock,
    };
    serve_journal(alloc, lines, reader, writer)
}
