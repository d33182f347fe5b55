//! A run, shown line by line.
ghost use Rattle.std.specs.Prelude.{◌≡◌, ◌<◌, ◌↔◌, ℕ, length, IfOk, IfErr, IsErrOf, OnErr, OnOk, MatchResult};
ghost use Rattle.std.specs.Io.KnownBytes.{Appends, Keeps};
ghost use Rattle.abt_rate.specs.Limits.{AreWorkers};
ghost use Rattle.abt_text.specs.Streams.{AppendsPrefix};
ghost use Rattle.abt_history.specs.Ended.{CanBeWoven};
ghost use Rattle.abt_links.specs.Runs.{ScriptsFit};
ghost use Rattle.abt_links.specs.Operations.{AreForPorts};
ghost use Rattle.abt_perform_threads.specs.Shown.{IsRanFrom, ShowsAll, ShowsUntil};

use crate::judging::{Judged, judge_events};
use crate::ran::{Ran, Unrun};
use abt_format::safe_line;
use abt_links::{Gate, RunFault};
use abt_text::{Unwritten, put};
use abt_weave::{WeaveFault, weave};
use std::alloc::{AllocError, Global};
use std::io::Write;
use std::sync::Wait;
use std::thread::Threads;
use thiserror::Error;

/// What a run left, and what became of showing it.
#[derive(Debug, Drop)]
pub struct Shown {
    /// The run.
    pub ran: Ran,
    /// What that was judged to be, or why the lines end.
    pub judged: Result<Judged, ShowFault>,
}

/// Why not all lines of a run went out.
#[derive(Debug, Drop, Error)]
pub enum ShowFault {
    /// What the run left isn't woven. Of a run of its own that is want of memory, as the clauses of [`show_run`] say.
    #[error("{0}")]
    Weave(WeaveFault),
    /// Memory was refused for the trace of the events.
    #[error("out of memory")]
    Trace,
    /// A line can't be written.
    #[error("the output can't be written")]
    Write,
}

impl From<WeaveFault> for ShowFault {
    ghost use Rattle.abt_perform_threads.specs.declared.showing.ShowFault.TheVariants.{Weave};

    ghost from_gives = { λ reason fault. fault ≡ Weave reason };

    fn from(reason: WeaveFault) -> ShowFault {
        ShowFault::Weave(reason)
    }
}

impl From<AllocError> for ShowFault {
    ghost use Rattle.abt_perform_threads.specs.declared.showing.ShowFault.TheVariants.{Trace};

    ghost from_gives = { λ _ fault. fault ≡ Trace };

    fn from(_: AllocError) -> ShowFault {
        ShowFault::Trace
    }
}

impl From<Unwritten> for ShowFault {
    ghost use Rattle.abt_perform_threads.specs.declared.showing.ShowFault.TheVariants.{Write as unwritten};

    ghost from_gives = { λ _ fault. fault ≡ unwritten };

    fn from(_: Unwritten) -> ShowFault {
        ShowFault::Write
    }
}

/// Runs a scenario's scripts, judges what they left, and shows it: each line goes out once its step is done. All that is shown is of
/// the one run that is handed out, whether its events were found or not.
///
/// # Errors
/// The faults of the run; then nothing went out. Why a run isn't shown is a part of the result.
pub fn show_run<T: Threads + Wait + Sync, G: Gate + Sync, W: Write>(
    rt: &T,
    alloc: Global,
    workers: u16,
    unrun: Unrun,
    gate: &G,
    writer: &mut W,
) -> Result<Shown, RunFault>
    ensures ran { IfOk result (λ shown. IsRanFrom unrun workers shown.ran) }
    ensures shown { IfOk result (λ shown. MatchResult shown.judged
        (λ judged. ShowsAll shown.ran judged (W.contents writer.old) (W.contents writer.new))
        (λ fault. ShowsUntil shown.ran fault (W.contents writer.old) (W.contents writer.new))) }
    ensures silent { OnErr result (Keeps (W.contents writer.old) (W.contents writer.new)) }
    ensures workers { IsErrOf result RunFault.Workers ↔ ¬ AreWorkers workers }
    ensures scripts { IsErrOf result RunFault.Scripts
        ↔ (AreWorkers workers × ¬ ScriptsFit unrun.net.conns unrun.scripts) }
    ensures operator { IsErrOf result RunFault.Operator
        ↔ (AreWorkers workers × ScriptsFit unrun.net.conns unrun.scripts ×
        ¬ AreForPorts unrun.net unrun.operator) }
    ensures wound { (seen found : ℕ) → IsErrOf result (RunFault.Wound seen found) → found < seen }
{
    let ran = unrun.run(rt, alloc, workers, gate)?;
    let judged = show(alloc, &ran, writer);
    Ok(Shown { ran, judged })
}

// Judges what a run left, and shows each step.
fn show<W: Write>(alloc: Global, ran: &Ran, writer: &mut W) -> Result<Judged, ShowFault>
    requires ports { length ran.now.gathered.journals ≡ length ran.now.net.capacities }
    requires sources { length ran.now.gathered.sources.items ≡ length ran.now.net.conns }
    requires woven { CanBeWoven ran.now.net ran.now.gathered.journals ran.now.gathered.sources.items }
    ensures ok { IfOk result
        (λ judged. ShowsAll ran.now judged (W.contents writer.old) (W.contents writer.new)) }
    ensures err { IfErr result
        (λ fault. ShowsUntil ran.now fault (W.contents writer.old) (W.contents writer.new)) }
{
    let Ran { net, gathered } = ran;
    put(writer, b"gathered\n")?;
    let events = weave(alloc, net, &gathered.journals, gathered.sources.as_slice())?;
    put(writer, b"woven\n")?;
    let judged = judge_events(alloc, net, events)?;
    put(writer, safe_line(judged.trace.safe).as_bytes())?;
    Ok(judged)
}
