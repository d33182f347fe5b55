//! A plan for threads, carried out.
ghost use Rattle.std.specs.Prelude.{◌≡◌, ◌⊎◌, ◌+◌, IfErr, IfOk, OnOk};
ghost use Rattle.std.specs.Io.KnownBytes.{Appends, Keeps};
ghost use Rattle.abt_perform.specs.Plans.{IsForThreads, ReadsFor};
ghost use Rattle.abt_text.specs.Streams.{ConsumesAtMost, text_max};
ghost use Rattle.abt_perform_threads.specs.Shown.{shown_text};
ghost use Rattle.abt_perform_threads.specs.Performing.{IsShown, IsRunOf, EndsBy, IsRefused, workers_of};

use crate::faults::{fault_of_run, fault_of_show};
use crate::judging::Judged;
use crate::ran::{Ran, Unrun};
use crate::showing::{Shown, show_run};
use abt_links::OpenGate;
use abt_perform::{Fault, Plan, tell_fault};
use std::alloc::Global;
use std::io::{Read, Write};
use std::sync::Wait;
use std::thread::Threads;

/// Carries out a plan for threads, and gives the exit status: 0 if all three lines went out to `writer`, and 1 if a line on
/// `errors` tells why not. A line that can't be written there changes no status. Each line goes out once its step is done, so those
/// before a fault stay.
pub fn perform_threads<T: Threads + Wait + Sync, R: Read, W: Write, E: Write>(
    rt: &T,
    alloc: Global,
    plan: &Plan,
    reader: &mut R,
    writer: &mut W,
    errors: &mut E,
) -> u8
    requires { IsForThreads plan.now }
    ensures status { (result ≡ 0) ⊎ (result ≡ 1) }
    ensures reads { ReadsFor plan.now (R.remaining reader.old) (R.remaining reader.new) }
    ensures shown { result ≡ 0 → IsShown (workers_of plan.now) (R.remaining reader.old)
        (W.contents writer.old) (W.contents writer.new) }
    ensures ok { result ≡ 0 → Appends (W.contents writer.old) (W.contents writer.new) shown_text }
    ensures quiet { result ≡ 0 → Keeps (E.contents errors.old) (E.contents errors.new) }
    ensures err { result ≡ 1 → IsRefused (workers_of plan.now) (R.remaining reader.old)
        (W.contents writer.old) (W.contents writer.new) (E.contents errors.old) (E.contents errors.new) }
{
    let Plan::Threads { file: _, workers } = plan else {
        unreachable!()
    };
    match carry_out(rt, alloc, *workers, reader, writer) {
        Ok(()) => 0,
        Err(fault) => {
            tell_fault(fault, errors);
            1
        }
    }
}

#[tactic(auto, using(crate::proofs::Runs::shown_by_run))]
// Reads a scenario, and shows a run of it.
fn carry_out<T: Threads + Wait + Sync, R: Read, W: Write>(
    rt: &T,
    alloc: Global,
    workers: u16,
    reader: &mut R,
    writer: &mut W,
) -> Result<(), Fault>
    ensures reads { ConsumesAtMost (R.remaining reader.old) (R.remaining reader.new) (text_max + 1) }
    ensures shown { OnOk result (IsShown workers (R.remaining reader.old) (W.contents writer.old)
        (W.contents writer.new)) }
    ensures err { IfErr result (λ fault.
        EndsBy workers fault (R.remaining reader.old) (W.contents writer.old) (W.contents writer.new)) }
{
    let _run = show_scenario(rt, alloc, workers, reader, writer)?;
    Ok(())
}

/// A run in threads, and what it was judged to be.
#[derive(Debug, Drop)]
pub struct JudgedRun {
    /// The run.
    pub ran: Ran,
    /// The events that its journals are, and their trace.
    pub judged: Judged,
}

/// Reads a scenario, and shows a run of it line by line, each once its step is done.
///
/// # Errors
/// Why there is no run, or why not all its lines went out; those before a fault stay.
pub fn show_scenario<T: Threads + Wait + Sync, R: Read, W: Write>(
    rt: &T,
    alloc: Global,
    workers: u16,
    reader: &mut R,
    writer: &mut W,
) -> Result<JudgedRun, Fault>
    ensures reads { ConsumesAtMost (R.remaining reader.old) (R.remaining reader.new) (text_max + 1) }
    ensures shown { IfOk result
        (λ run. IsRunOf workers run (R.remaining reader.old) (W.contents writer.old)
        (W.contents writer.new)) }
    ensures err { IfErr result (λ fault.
        EndsBy workers fault (R.remaining reader.old) (W.contents writer.old) (W.contents writer.new)) }
{
    let unrun = Unrun::read_from(alloc, reader)?;
    let shown = match show_run(rt, alloc, workers, unrun, &OpenGate, writer) {
        Ok(shown) => shown,
        Err(fault) => return Err(fault_of_run(fault)),
    };
    let Shown { ran, judged } = shown;
    match judged {
        Ok(judged) => Ok(JudgedRun { ran, judged }),
        Err(fault) => Err(fault_of_show(&fault)),
    }
}
